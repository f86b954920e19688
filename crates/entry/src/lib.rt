// A plan as bytes: for each interval an entry, a byte for the rate index and two for the choice index, which is the mark where no unit is decoded (document 01, "Levels, interval by interval"; document 02, E6).

#![tactic(auto)]

ghost use Rattle.std.specs.Prelude.{◌≡◌, ◌+◌, ◌*◌, ◌<◌, ◌≤◌, length};
ghost use Rattle.header.specs.Answers.{plain};
ghost use Rattle.replaying.specs.Entries.{entry_size, fits_under, shaped};
ghost use Rattle.entry.specs.Answers.{entry_numbers, EntryRead};
ghost use Rattle.base.specs.Lent.{over_at};

use header::{Choice, Header};

// The rate index, and the choice index or the mark.
#[derive(Clone, Copy)]
pub struct Entry {
    pub rate: u8,
    pub choice: Choice,
}

// How many bytes an entry takes.
pub const SIZE: usize = 3;

// T, the number of intervals.
pub fn intervals(header: Header) -> usize
    ensures { result ≡ header.units + header.delay }
{
    header.units as usize + header.delay as usize
}

// Whether an entry is in range: a rate that there is, and up to the delay the mark, after it a choice that there is. Plans of two bytes an entry had another mark.
pub fn entry_fits(mark: Choice, header: Header, place: usize, rate: u8, choice: Choice) -> bool
    ensures { result ≡ fits_under mark (plain header) place rate choice }
{
    if header.rates <= rate as u16 {
        return false;
    }
    if place < header.delay as usize {
        return choice == mark;
    }
    choice < header.choices
}

// The entry in this place.
pub fn entry_at(entries: &[u8], place: usize) -> Entry
    requires { entry_size * place + entry_size ≤ length entries.now }
    ensures { EntryRead entries.now place result }
{
    let at = SIZE * place;
    let next = at + 1;
    Entry {
        rate: entries[at],
        choice: fields::u16_at(entries, next),
    }
}

// Writes the entry in this place.
pub fn put_entry(entries: &mut [u8], place: usize, rate: u8, choice: Choice)
    requires { entry_size * place + entry_size ≤ length entries.old }
    ensures { entries.new ≡ over_at (entry_size * place) (entry_numbers rate choice) entries.old }
{
    let at = SIZE * place;
    let next = at + 1;
    entries[at] = rate;
    fields::put16(entries, next, choice);
}

// Whether the bytes are a plan in shape: refusal 14 where they are not.
pub fn shaped(header: Header, entries: &[u8]) -> bool
    ensures { result ≡ shaped (plain header) entries.now }
{
    let total = intervals(header);
    if entries.len() != SIZE * total {
        return false;
    }
    for place in 0..total {
        let entry = entry_at(entries, place);
        if !entry_fits(header::NO_CHOICE, header, place, entry.rate, entry.choice) {
            return false;
        }
    }
    true
}
