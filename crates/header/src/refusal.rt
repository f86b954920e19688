// What calls are refused for, each by its number in documents 01 and 02.

ghost use Rattle.std.specs.Prelude.{Some};
ghost use Rattle.header.specs.Refusals.{Numbered, printed};

use std::fmt;

#[derive(Clone, Copy, Debug, PartialEq, Eq)]
pub enum Refusal {
    // fewer bytes are left than the record's head or body takes
    Cut,
    // a record's kind or length is not the one due
    NotDue,
    // a field of the header is out of range
    Header,
    // a rate is over its limit, or not above the rate before it
    Rates,
    // a size or a distortion is over its limit
    Codings,
    // the set does not match the job
    Set,
    // the unit is not in 1 to N
    Unit,
    // the choice is not below M
    Choice,
    // the unit is already pinned
    Pinned,
    // the unit is not pinned
    NotPinned,
    // the table is too short
    Table,
    // a list to be filled is too short
    List,
    // no plan is admissible
    NoPlan,
    // the plan's bytes are not those of T entries, or an entry is out of range
    Plan,
    // the input is longer than the program takes
    Input,
    // a list's length is not what the header calls for (document 02, E1)
    Lengths,
    // a bucket never drains (document 02, E8)
    NeverDrains,
    // the interval of the change is not one of 1 to T - 1 (document 02, E12)
    Interval,
    // the old plan has a violation by that interval (E12)
    Violation,
    // a level of a bucket is above its size, or there is another number of them than the job has buckets (E12 and E14)
    Levels,
    // the playlist has no entry, more than 64, or half an entry at its end (E14)
    Playlist,
    // an entry passes the slice, bytes are left behind its job, or it has another number of buckets than the first one (E14)
    Programme,
}

impl From<Refusal> for u8 {
    ghost from_gives = { Numbered };

    fn from(refusal: Refusal) -> u8 {
        match refusal {
            Refusal::Cut => 1,
            Refusal::NotDue => 2,
            Refusal::Header => 3,
            Refusal::Rates => 4,
            Refusal::Codings => 5,
            Refusal::Set => 6,
            Refusal::Unit => 7,
            Refusal::Choice => 8,
            Refusal::Pinned => 9,
            Refusal::NotPinned => 10,
            Refusal::Table => 11,
            Refusal::List => 12,
            Refusal::NoPlan => 13,
            Refusal::Plan => 14,
            Refusal::Input => 15,
            Refusal::Lengths => 16,
            Refusal::NeverDrains => 17,
            Refusal::Interval => 18,
            Refusal::Violation => 19,
            Refusal::Levels => 20,
            Refusal::Playlist => 21,
            Refusal::Programme => 22,
        }
    }
}

impl From<Refusal> for u32 {
    ghost from_gives = { Numbered };

    fn from(refusal: Refusal) -> u32 {
        u32::from(u8::from(refusal))
    }
}

// Its number.
impl fmt::Display for Refusal {
    ghost output = { λ refusal. Some (printed refusal) };

    fn fmt<W: fmt::Write>(&self, f: &mut fmt::Formatter<W>) -> fmt::Result {
        write!(f, "{}", u8::from(*self))
    }
}
