// Opening a job, and calls as numbers: what they come to as values in a list that is lent.

#![tactic(auto)]

ghost use Rattle.std.specs.Prelude.{◌≡◌};
ghost use Rattle.header.specs.Refusals.{code};
ghost use Rattle.header.specs.Answers.{door_of};
ghost use Rattle.exporting.specs.Exports.{opened, open_export, called, calls_export};

use header::{Door, Refusal};

// How many values each call gives.
const OPEN_VALUES: usize = 4;

const CALLS_VALUES: usize = 3;

// Opens a job by a door. Values: how many bytes it took, N, T, and how many words its table has.
pub fn open(job: &[u8], door: Door, values: &mut [u64]) -> Result<(), Refusal>
    ensures { opened (code result) values.new ≡ open_export (door_of door) job.now values.old }
{
    let opened = pins::open(job, door);
    let taken = opened.answer?;
    if values.len() < OPEN_VALUES {
        return Err(Refusal::List);
    }
    values::put_opened(values, taken, opened.set.header);
    Ok(())
}

// Makes calls as numbers, three a call (6 pins, 7 lifts; the unit; the choice), refused ones included, and no more. Each call's number goes to `answers`, 0 where it was taken. Values: how many pins the calls leave, the sum of their sizes and the sum of their distortions.
pub fn make_calls(
    job: &[u8],
    calls: &[u16],
    answers: &mut [u8],
    values: &mut [u64],
) -> Result<(), Refusal>
    ensures { called (code result) answers.new values.new ≡ calls_export job.now calls.now answers.old values.old }
{
    calls::calls_refusal(job, calls, answers.len())?;
    if values.len() < CALLS_VALUES {
        return Err(Refusal::List);
    }
    values::put_pins(values, calls::make_calls(job, calls, answers)?);
    Ok(())
}
