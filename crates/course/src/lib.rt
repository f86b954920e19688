// The course of a plan in shape: what it does in the interval of a place, as the job's bytes, the set's pins and the plan's entries say.

#![tactic(auto)]

ghost use Rattle.std.specs.Prelude.{◌≡◌, ◌+◌, ◌<◌, length};
ghost use Rattle.model.specs.Levels.{sent};
ghost use Rattle.format.specs.JobBytes.{job_in};
ghost use Rattle.header.specs.Answers.{plain};
ghost use Rattle.pinning.specs.PinSet.{lines};
ghost use Rattle.replaying.specs.Entries.{plan_of};
ghost use Rattle.course.specs.Answers.{Shaped, CodingIn, PinIn, IsInterval};

use header::{Choice, Coding, Header};
use interval::Interval;

// The coding that the interval in this place decodes: none up to the delay.
fn coding_in(job: &[u8], header: Header, place: usize, choice: Choice) -> Coding
    requires { place < 600 }
    ensures { CodingIn job.now (plain header) place choice result }
{
    let delay = header.delay as usize;
    if place < delay {
        return Coding {
            size: 0,
            distortion: 0,
        };
    }
    let unit = (place - delay + 1) as u16;
    header::coding_at(job, header, unit, choice)
}

// The pin that bears on the interval in this place: none up to the delay.
fn pin_in(header: Header, pins: &[Choice; 512], place: usize) -> Choice
    requires { place < header.delay + 512 }
    ensures { PinIn (plain header) pins.now place result }
{
    let delay = header.delay as usize;
    if place < delay {
        return header::NO_CHOICE;
    }
    let at = place - delay;
    pins[at]
}

// What a plan in shape does in the interval of this place.
pub fn interval_at(
    job: &[u8],
    header: Header,
    pins: &[Choice; 512],
    entries: &[u8],
    place: usize,
) -> Interval
    requires { Shaped job.now (plain header) entries.now × (place < header.units + header.delay) × (length pins.now ≡ 512) }
    ensures { IsInterval (job_in job.now) (lines header.units pins.now) entries.now place result }
{
    let entry = entry::entry_at(entries, place);
    let rate = entry.rate;
    let choice = entry.choice;
    let coding = coding_in(job, header, place, choice);
    Interval {
        sent: header::rate_at(job, header, rate as u16),
        size: coding.size,
        distortion: coding.distortion,
        pin: pin_in(header, pins, place),
        choice,
    }
}

// What a plan in shape sends in the interval of this place.
pub fn sent_at(job: &[u8], header: Header, entries: &[u8], place: usize) -> u32
    requires { Shaped job.now (plain header) entries.now × (place < header.units + header.delay) }
    ensures { result ≡ sent (job_in job.now) (plan_of (job_in job.now) entries.now) (place + 1) }
{
    let entry = entry::entry_at(entries, place);
    header::rate_at(job, header, entry.rate as u16) as u32
}
