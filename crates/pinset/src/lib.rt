// A set of pins (document 01, "Pins"): without a pin, with one more and with one lifted, and the check of a set against a job.

#![tactic(auto)]

ghost use Rattle.std.specs.Prelude.{◌≡◌, ◌<◌, ◌≤◌, length};
ghost use Rattle.model.specs.Pins.{totals_to};
ghost use Rattle.format.specs.JobBytes.{header_in};
ghost use Rattle.format.specs.Parser.{with_value};
ghost use Rattle.header.specs.Answers.{plain, coding_of, door_of};
ghost use Rattle.job.specs.Answers.{reading};
ghost use Rattle.pinning.specs.PinSet.{lines, fresh};
ghost use Rattle.pinning.specs.Check.{pin_fits, pins_fit, same_totals, fits, codings_in, checked};
ghost use Rattle.pinning.specs.Calls.{with_pin, without_pin};
ghost use Rattle.pinset.specs.Answers.{set_of, tallied, Added, Room, Pinned};

use header::{Choice, Coding, Door, Header, Refusal};
use job::Reading;

// Document 01's desk: the job's header, a pin for each of 512 units, and the totals of the pins: how many, their sizes, their distortions.
#[derive(Clone, Copy)]
pub struct PinSet {
    pub header: Header,
    pub pins: [Choice; 512],
    pub count: u32,
    pub size: u32,
    pub distortion: u32,
}

// Sums over pins, wide enough for any bytes.
#[derive(Clone, Copy)]
struct Tally {
    count: u64,
    size: u64,
    distortion: u64,
}

impl PinSet {
    // The pin of a unit without one.
    pub const NO_PIN: Choice = header::NO_CHOICE;

    // The set without a pin.
    pub fn fresh(header: Header) -> PinSet
        ensures { set_of result ≡ fresh (plain header) }
    {
        PinSet {
            header,
            pins: [65535; 512],
            count: 0,
            size: 0,
            distortion: 0,
        }
    }

    // The unit in place `at` pinned at a choice, which codes it so.
    pub fn with_pin(mut self, at: usize, choice: Choice, coding: Coding) -> PinSet
        requires { Room self at coding }
        ensures { set_of result ≡ with_pin (set_of self) at choice (coding_of coding) }
    {
        self.pins[at] = choice;
        self.count = self.count + 1;
        self.size = self.size + coding.size as u32;
        self.distortion = self.distortion + coding.distortion;
        self
    }

    // Its pin lifted.
    pub fn without_pin(mut self, at: usize, coding: Coding) -> PinSet
        requires { Pinned self at coding }
        ensures { set_of result ≡ without_pin (set_of self) at (coding_of coding) }
    {
        self.pins[at] = PinSet::NO_PIN;
        self.count = self.count - 1;
        self.size = self.size - coding.size as u32;
        self.distortion = self.distortion - coding.distortion;
        self
    }
}

// Whether a pin may stand in this place: no pin, or for a unit of the job a choice that it has.
fn pin_fits(header: Header, place: usize, pin: Choice) -> bool
    ensures { result ≡ pin_fits (plain header) place pin }
{
    if pin == PinSet::NO_PIN {
        return true;
    }
    if place < header.units as usize {
        return pin < header.choices;
    }
    false
}

fn pins_fit(header: Header, pins: &[Choice; 512]) -> bool
    ensures { result ≡ pins_fit (plain header) pins.now 512 }
{
    for (place, pin) in pins.iter().enumerate() {
        if !pin_fits(header, place, *pin) {
            return false;
        }
    }
    true
}

// The sums with one more unit's line, that of the unit in this place.
fn with_line(job: &[u8], header: Header, place: u16, pin: Choice, sum: Tally) -> Tally
    requires { (place < 512) × (sum.count < 512) × (sum.size < 33553920) × (sum.distortion < 2199023255040) }
    ensures { Added job.now (plain header) place pin sum result }
{
    if pin == PinSet::NO_PIN {
        return sum;
    }
    let unit = place + 1;
    let coding = header::coding_at(job, header, unit, pin);
    Tally {
        count: sum.count + 1,
        size: sum.size + coding.size as u64,
        distortion: sum.distortion + coding.distortion as u64,
    }
}

// The sums over the pins, of which there are as many as the header has units.
fn sum_lines(job: &[u8], header: Header, pins: &[Choice; 512]) -> Tally
    requires { (header.units ≤ 512) × (length pins.now ≡ 512) }
    ensures { tallied result ≡ totals_to (codings_in job.now (plain header)) (lines header.units pins.now) header.units }
{
    let units = header.units;
    let mut sum = Tally {
        count: 0,
        size: 0,
        distortion: 0,
    };
    for place in 0..units {
        sum = with_line(job, header, place, pins[place as usize], sum);
    }
    sum
}

// Whether the set's totals are these sums.
fn same_totals(set: PinSet, sum: Tally) -> bool
    ensures { result ≡ same_totals (set_of set).totals (tallied sum) }
{
    if set.count as u64 != sum.count {
        return false;
    }
    if set.size as u64 != sum.size {
        return false;
    }
    set.distortion as u64 == sum.distortion
}

// Whether the set is one of the job with this header: refusal 6 where it is not.
fn fits(job: &[u8], header: Header, set: PinSet) -> bool
    requires { header.units ≤ 512 }
    ensures { result ≡ fits (codings_in job.now (plain header)) (plain header) (set_of set) }
{
    let own = set.header;
    if !own.same(header) {
        return false;
    }
    let pins = set.pins;
    if !pins_fit(header, &pins) {
        return false;
    }
    same_totals(set, sum_lines(job, header, &pins))
}

// What every call that takes a job and a set tests first: the job by its door, refusals 1 to 5 and 17, then the set against it, refusal 6.
// That a set has 512 pins is handed on to the callers' proofs.
pub fn check(job: &[u8], set: PinSet, door: Door) -> Result<Reading, Refusal>
    ensures sized { length set.pins ≡ 512 }
    ensures answer { reading result ≡ with_value header_in (checked (door_of door) job.now (set_of set)) }
{
    let reading = job::read(job, door)?;
    if fits(job, reading.header, set) {
        Ok(reading)
    } else {
        Err(Refusal::Set)
    }
}
