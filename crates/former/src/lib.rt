// Plans as they were stored before a unit could have a thousand choices (document 02, E6): two bytes an interval, the rate index and the choice index, 255 where no unit is decoded. Here they are turned into the entries of today.

#![tactic(auto)]

ghost use Rattle.std.specs.Prelude.{◌≡◌, ◌+◌, ◌*◌, ◌≤◌, length};
ghost use Rattle.base.specs.Lent.{over};
ghost use Rattle.format.specs.Choices.{choice_under, choice_number};
ghost use Rattle.format.specs.JobBytes.{Opens};
ghost use Rattle.replaying.specs.Entries.{entry_size, entries_from, entry_bytes};
ghost use Rattle.replaying.specs.Former.{former_mark, former_size, former_entry, former_shaped, turn_call};
ghost use Rattle.header.specs.Answers.{plain};
ghost use Rattle.former.specs.Answers.{turned, FormerRead};

use header::{Choice, Door, Header, Refusal};

// An entry of such a plan.
#[derive(Clone, Copy)]
struct Entry {
    rate: u8,
    choice: u8,
}

// The mark of such a plan, how many bytes an entry took, and how many choices a job had at most.
const MARK: u8 = 255;

const SIZE: usize = 2;

const MAX_CHOICES: u16 = 31;

// The entry in this place.
fn entry_at(old: &[u8], place: usize) -> Entry
    requires { former_size * place + former_size ≤ length old.now }
    ensures { FormerRead old.now place result }
{
    let at = SIZE * place;
    let next = at + 1;
    Entry {
        rate: old[at],
        choice: old[next],
    }
}

// A choice of such a plan as it stands in an entry of today.
fn widened(choice: u8) -> Choice
    ensures { result ≡ choice_number (choice_under former_mark choice) }
{
    if choice == MARK {
        return header::NO_CHOICE;
    }
    choice as Choice
}

// Whether the bytes were a plan of a job with this header: refusal 14 where they were not.
fn shaped(header: Header, old: &[u8]) -> bool
    ensures { result ≡ former_shaped (plain header) old.now }
{
    if MAX_CHOICES < header.choices {
        return false;
    }
    let total = entry::intervals(header);
    if old.len() != SIZE * total {
        return false;
    }
    for place in 0..total {
        let entry = entry_at(old, place);
        let choice = entry.choice as Choice;
        if !entry::entry_fits(MARK as Choice, header, place, entry.rate, choice) {
            return false;
        }
    }
    true
}

// Writes the entries of today over the first bytes of the list.
fn put_entries(header: Header, old: &[u8], entries: &mut [u8])
    requires { (former_size * (header.units + header.delay) ≤ length old.now) × (entry_size * (header.units + header.delay) ≤ length entries.old) }
    ensures { entries.new ≡ over (entry_bytes (entries_from (former_entry old.now) 0 (header.units + header.delay))) entries.old }
{
    let total = entry::intervals(header);
    for place in 0..total {
        let entry = entry_at(old, place);
        entry::put_entry(entries, place, entry.rate, widened(entry.choice));
    }
}

// Turning for a job that was read: 14, then 12.
fn turn_read(job: &[u8], header: Header, old: &[u8], entries: &mut [u8]) -> Result<(), Refusal>
    requires { Opens job.now (plain header) }
    ensures { turned result entries.new ≡ turn_call job.now old.now entries.old }
{
    if !shaped(header, old) {
        return Err(Refusal::Plan);
    }
    if entries.len() < entry::SIZE * entry::intervals(header) {
        return Err(Refusal::List);
    }
    put_entries(header, old, entries);
    Ok(())
}

// Turns a stored plan of two bytes an interval, of a job with at most 31 choices, into the entries of today: rates and choices are kept, and 255 is read as the mark.
pub fn turn(job: &[u8], old: &[u8], entries: &mut [u8]) -> Result<(), Refusal>
    ensures { turned result entries.new ≡ turn_call job.now old.now entries.old }
{
    let header = job::read(job, Door::Archive)?.header;
    turn_read(job, header, old, entries)
}
