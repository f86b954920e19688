// The pins that editors set on a job's units (document 01, "Pins"): opening a job, pinning a unit at a choice, lifting the pin.

#![tactic(auto)]

pub mod kind;

ghost use Rattle.std.specs.Prelude.{◌≡◌};
ghost use Rattle.model.specs.Pins.{pin, lift, outside};
ghost use Rattle.format.specs.JobBytes.{no_header, job_in};
ghost use Rattle.header.specs.Refusals.{number};
ghost use Rattle.header.specs.Answers.{plain, door_of};
ghost use Rattle.pinning.specs.Check.{Ready};
ghost use Rattle.pinning.specs.Calls.{open_call, refuse, call_in, call};
ghost use Rattle.pinset.specs.Answers.{set_of};
ghost use Rattle.pins.specs.Answers.{opening, handed};

use header::{Bucket, Door, Header, Refusal};
use pinset::PinSet;

// The answer of opening, how many bytes the job took, and the set; beside a refusal the set is that of no job.
#[derive(Clone, Copy)]
pub struct Opened {
    pub answer: Result<usize, Refusal>,
    pub set: PinSet,
}

// The answer of a pin or a lift, and the set as it is now; a refused call hands it back as it came.
#[derive(Clone, Copy)]
pub struct Handed {
    pub answer: Result<(), Refusal>,
    pub set: PinSet,
}

// A header that no job has.
pub fn no_header() -> Header
    ensures { plain result ≡ no_header }
{
    Header {
        units: 0,
        delay: 0,
        decoder: 0,
        level: 0,
        first: Bucket {
            size: 0,
            drain: 0,
            fill: 0,
        },
        second: None,
        rates: 0,
        choices: 0,
    }
}

// The fresh set of a job that the door takes and how many bytes the job took; bytes behind the job are not looked at.
pub fn open(job: &[u8], door: Door) -> Opened
    ensures { opening result ≡ open_call (door_of door) job.now }
{
    match job::read(job, door) {
        Err(refusal) => Opened {
            answer: Err(refusal),
            set: PinSet::fresh(no_header()),
        },
        Ok(reading) => Opened {
            answer: Ok(reading.taken),
            set: PinSet::fresh(reading.header),
        },
    }
}

// The set as it came, beside the refusal's number.
fn refused(set: PinSet, refusal: Refusal) -> Handed
    ensures { handed result ≡ refuse (set_of set) (number refusal) }
{
    Handed {
        answer: Err(refusal),
        set,
    }
}

// Whether a unit is not in 1 to N.
fn outside(units: u16, unit: u16) -> bool
    ensures { result ≡ outside units unit }
{
    if unit < 1 {
        return true;
    }
    units < unit
}

// A pin, for a job that the set matches: 7, then 8, then 9.
fn pin_line(job: &[u8], header: Header, set: PinSet, unit: u16, choice: u16) -> Handed
    requires { Ready job.now (plain header) (set_of set) }
    ensures { handed result ≡ call_in (job_in job.now) (set_of set) (pin unit choice) }
{
    let units = header.units;
    let choices = header.choices;
    if outside(units, unit) {
        return refused(set, Refusal::Unit);
    }
    if choices <= choice {
        return refused(set, Refusal::Choice);
    }
    let at = (unit - 1) as usize;
    let old = set.pins[at];
    if old != PinSet::NO_PIN {
        return refused(set, Refusal::Pinned);
    }
    let coding = header::coding_at(job, header, unit, choice);
    Handed {
        answer: Ok(()),
        set: set.with_pin(at, choice, coding),
    }
}

// A lift, for a job that the set matches: 7, then 10.
fn lift_line(job: &[u8], header: Header, set: PinSet, unit: u16) -> Handed
    requires { Ready job.now (plain header) (set_of set) }
    ensures { handed result ≡ call_in (job_in job.now) (set_of set) (lift unit) }
{
    let units = header.units;
    if outside(units, unit) {
        return refused(set, Refusal::Unit);
    }
    let at = (unit - 1) as usize;
    let old = set.pins[at];
    if old == PinSet::NO_PIN {
        return refused(set, Refusal::NotPinned);
    }
    let coding = header::coding_at(job, header, unit, old);
    Handed {
        answer: Ok(()),
        set: set.without_pin(at, coding),
    }
}

// Pins a unit, counted from 1, at a choice, counted from 0.
pub fn pin(job: &[u8], set: PinSet, unit: u16, choice: u16) -> Handed
    ensures { handed result ≡ call job.now (set_of set) (pin unit choice) }
{
    match pinset::check(job, set, Door::Opening) {
        Err(refusal) => refused(set, refusal),
        Ok(reading) => pin_line(job, reading.header, set, unit, choice),
    }
}

// Lifts the pin of a unit.
pub fn lift(job: &[u8], set: PinSet, unit: u16) -> Handed
    ensures { handed result ≡ call job.now (set_of set) (lift unit) }
{
    match pinset::check(job, set, Door::Opening) {
        Err(refusal) => refused(set, refusal),
        Ok(reading) => lift_line(job, reading.header, set, unit),
    }
}
