// A replay after calls as numbers, or with the pins of a set as numbers, and what it comes to as values in a list that is lent.

#![tactic(auto)]

ghost use Rattle.std.specs.Prelude.{◌≡◌, ◌≤◌, length};
ghost use Rattle.header.specs.Refusals.{code};
ghost use Rattle.header.specs.Answers.{verdict};
ghost use Rattle.pinset.specs.Answers.{set_of};
ghost use Rattle.calling.specs.Sessions.{set_replay_refusal};
ghost use Rattle.exporting.specs.Exports.{replayed, replay_export};
ghost use Rattle.exporting.specs.Sets.{set_replay_export};
ghost use Rattle.played.specs.Answers.{Room, Told};

use header::{Door, Refusal};
use pinset::PinSet;
use replay::Replayed;

// A replay gives so many values, and one more for each bucket.
const REPLAY_VALUES: usize = 5;

// What a replay came to over so many buckets, with its values.
fn tell(
    outcome: Result<Replayed, Refusal>,
    buckets: usize,
    values: &mut [u64],
) -> Result<(), Refusal>
    requires { Room outcome buckets (length values.old) }
    ensures { Told outcome buckets values.old result values.new }
{
    match outcome? {
        Replayed::Clean(totals) => {
            values::put_replayed(values, 0, 0, totals);
            Ok(())
        }
        Replayed::Violated {
            interval,
            violation,
        } => {
            let number = values::violation_number(violation);
            values::put_replayed(values, number, interval, values::no_totals(buckets));
            Ok(())
        }
    }
}

// Replays a plan with the pins that calls as numbers leave. Values: 0, or the number of the first violation (1 decoder short, 2 decoder over, 3 bucket over, 4 pin not held, 5 second bucket over); its interval, counted from 1, or 0; then distortion, source size, channel size and the unused drain of each bucket, 0 where there is a violation.
pub fn replay(
    job: &[u8],
    calls: &[u16],
    entries: &[u8],
    levels: &mut [u16],
    values: &mut [u64],
) -> Result<(), Refusal>
    ensures { replayed (code result) levels.new values.new ≡ replay_export job.now calls.now entries.now levels.old values.old }
{
    session::replay_refusal(job, calls, entries, levels.len())?;
    let buckets = values::buckets_in(job);
    if values.len() < REPLAY_VALUES + buckets {
        return Err(Refusal::List);
    }
    let outcome = session::replay_after(job, calls, entries, levels);
    tell(outcome, buckets, values)
}

// What refuses a replay with a set, of a job that the archive takes, with room for so many levels: the job, 1 to 5, the set, 6, the plan, 14, then 12.
fn set_refusal(job: &[u8], set: PinSet, entries: &[u8], levels: usize) -> Result<(), Refusal>
    ensures { verdict result ≡ set_replay_refusal job.now (set_of set) entries.now levels }
{
    let header = pinset::check(job, set, Door::Archive)?.header;
    if !entry::shaped(header, entries) {
        return Err(Refusal::Plan);
    }
    if levels < replay::levels_each(header) * entry::intervals(header) {
        return Err(Refusal::List);
    }
    Ok(())
}

// Replays a plan with the pins of a set as numbers. Values: as `replay` gives them.
pub fn replay_set(
    job: &[u8],
    set: &[u32],
    entries: &[u8],
    levels: &mut [u16],
    values: &mut [u64],
) -> Result<(), Refusal>
    ensures { replayed (code result) levels.new values.new ≡ set_replay_export job.now set.now entries.now levels.old values.old }
{
    let own = numbers::set_in(set);
    set_refusal(job, own, entries, levels.len())?;
    let buckets = values::buckets_in(job);
    if values.len() < REPLAY_VALUES + buckets {
        return Err(Refusal::List);
    }
    let outcome = replay::replay(job, own, entries, levels);
    tell(outcome, buckets, values)
}
