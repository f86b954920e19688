// The calls of an editor's tool with a set of pins as numbers, in a list that it lends and keeps: opening it, pins and lifts.

#![tactic(auto)]

ghost use Rattle.std.specs.Prelude.{◌≡◌, length};
ghost use Rattle.header.specs.Refusals.{code};
ghost use Rattle.model.specs.Pins.{pin, lift};
ghost use Rattle.header.specs.Answers.{door_of};
ghost use Rattle.pins.specs.Answers.{handed};
ghost use Rattle.exporting.specs.Exports.{filled};
ghost use Rattle.exporting.specs.Sets.{set_export, after_call, call_export};
ghost use Rattle.editor.specs.Answers.{Room};

use header::{Door, Refusal};
use pins::Handed;

// Opens a job by a door and writes its set without a pin.
pub fn open(job: &[u8], door: Door, set: &mut [u32]) -> Result<(), Refusal>
    ensures { filled (code result) set.new ≡ set_export (door_of door) job.now set.old }
{
    let opened = pins::open(job, door);
    opened.answer?;
    if set.len() < numbers::SIZE {
        return Err(Refusal::List);
    }
    numbers::put_set(opened.set, set);
    Ok(())
}

// What a pin or a lift comes to; one that was taken writes the set that it left.
fn note(made: Handed, set: &mut [u32]) -> Result<(), Refusal>
    requires { Room (handed made) (length set.old) }
    ensures { filled (code result) set.new ≡ after_call (handed made).refused (handed made) set.old }
{
    made.answer?;
    numbers::put_set(made.set, set);
    Ok(())
}

// Pins a unit at a choice.
pub fn pin(job: &[u8], set: &mut [u32], unit: u16, choice: u16) -> Result<(), Refusal>
    ensures { filled (code result) set.new ≡ call_export job.now set.old (pin unit choice) }
{
    let own = numbers::set_in(set);
    note(pins::pin(job, own, unit, choice), set)
}

// Lifts the pin of a unit.
pub fn lift(job: &[u8], set: &mut [u32], unit: u16) -> Result<(), Refusal>
    ensures { filled (code result) set.new ≡ call_export job.now set.old (lift unit) }
{
    let own = numbers::set_in(set);
    note(pins::lift(job, own, unit), set)
}
