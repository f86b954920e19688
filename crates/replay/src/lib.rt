// Replaying a plan (document 01, "Levels, interval by interval").

#![tactic(auto)]

ghost use Rattle.std.specs.Prelude.{◌≡◌, suc, ◌+◌, ◌*◌, ◌≤◌, ◌∷◌, length, Ok};
ghost use Rattle.format.specs.JobBytes.{job_in};
ghost use Rattle.header.specs.Answers.{plain};
ghost use Rattle.pinning.specs.PinSet.{lines};
ghost use Rattle.pinning.specs.Check.{Ready};
ghost use Rattle.pinset.specs.Answers.{set_of};
ghost use Rattle.base.specs.Lent.{over_at};
ghost use Rattle.replaying.specs.Calls.{played, replay_call};
ghost use Rattle.interval.specs.Answers.{levels_of};
ghost use Rattle.replay.specs.Answers.{ended, Plays};

use header::{Choice, Door, Header, Refusal};
use interval::{Buffers, Levels, Totals};
use parts::Violation;
use pinset::PinSet;

// The totals of a plan without a violation; else the first interval with one, counted from 1, and its first violation.
#[derive(Clone, Copy, Debug, PartialEq, Eq)]
pub enum Replayed {
    Clean(Totals),
    Violated { interval: u16, violation: Violation },
}

// How many levels an interval has: the decoder's and each bucket's.
pub fn levels_each(header: Header) -> usize
    ensures { result ≡ suc (length (plain header).buckets) }
{
    match header.second {
        None => 2,
        Some(_) => 3,
    }
}

// Writes the levels of the interval in this place, `each` of them: the decoder's, then the buckets' in turn.
fn put_levels(levels: &mut [u16], each: usize, place: usize, l: Levels)
    requires { (each ≡ suc (length (levels_of l).buckets)) × (each * place + each ≤ length levels.old) }
    ensures { levels.new ≡ over_at (each * place) (l.decoder ∷ (levels_of l).buckets) levels.old }
{
    let at = each * place;
    let next = at + 1;
    levels[at] = l.decoder;
    levels[next] = l.bucket;
    if let Some(level) = l.bucket2 {
        let last = at + 2;
        levels[last] = level;
    }
}

// Interval after interval, up to the first violation.
fn play(
    job: &[u8],
    header: Header,
    pins: &[Choice; 512],
    entries: &[u8],
    levels: &mut [u16],
) -> Replayed
    requires { Plays job.now (plain header) pins.now entries.now levels.old }
    ensures { ended (Ok result) levels.new ≡ played (job_in job.now) (lines header.units pins.now) entries.now levels.old }
{
    let total = entry::intervals(header);
    let each = levels_each(header);
    let buffers = Buffers::of(header);
    let mut at = Levels::start(header);
    let mut sum = Totals::none(buffers);
    for place in 0..total {
        let x = course::interval_at(job, header, pins, entries, place);
        match interval::step(buffers, at, x) {
            Err(violation) => {
                let interval = (place + 1) as u16;
                return Replayed::Violated {
                    interval,
                    violation,
                };
            }
            Ok(next) => {
                put_levels(levels, each, place, next);
                sum = interval::with_interval(sum, buffers, at, x);
                at = next;
            }
        }
    }
    Replayed::Clean(sum)
}

// A replay for a job that the set matches: 14, then 12.
fn replay_checked(
    job: &[u8],
    header: Header,
    set: PinSet,
    entries: &[u8],
    levels: &mut [u16],
) -> Result<Replayed, Refusal>
    requires { Ready job.now (plain header) (set_of set) }
    ensures { ended result levels.new ≡ replay_call job.now (set_of set) entries.now levels.old }
{
    if !entry::shaped(header, entries) {
        return Err(Refusal::Plan);
    }
    let each = levels_each(header);
    if levels.len() < each * entry::intervals(header) {
        return Err(Refusal::List);
    }
    let pins = set.pins;
    Ok(play(job, header, &pins, entries, levels))
}

// Replays a plan of a job that the archive takes, with the pins of a set. The decoder's and the buckets' levels of each interval go to `levels`, up to the first interval with a violation.
pub fn replay(
    job: &[u8],
    set: PinSet,
    entries: &[u8],
    levels: &mut [u16],
) -> Result<Replayed, Refusal>
    ensures { ended result levels.new ≡ replay_call job.now (set_of set) entries.now levels.old }
{
    let header = pinset::check(job, set, Door::Archive)?.header;
    replay_checked(job, header, set, entries, levels)
}
