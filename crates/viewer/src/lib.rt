// Pins and lifts that see, with a set of pins as numbers: the set, the table and the least total in lists that an editor's tool lends.

#![tactic(auto)]

ghost use Rattle.std.specs.Prelude.{◌≡◌, ◌≤◌, [], ◌∷◌, length};
ghost use Rattle.header.specs.Refusals.{number, code};
ghost use Rattle.base.specs.Lent.{over};
ghost use Rattle.model.specs.Pins.{pin, lift};
ghost use Rattle.pins.specs.Answers.{handed};
ghost use Rattle.exporting.specs.Sets.{seen, see_export};
ghost use Rattle.viewer.specs.Answers.{unseen, Room, Told};

use header::Refusal;
use pins::Handed;
use see::Seen;

// How many values the calls give.
const SEE_VALUES: usize = 1;

// What refuses a call that was lent no room for its value, from what the pin or the lift under it met with: its own refusal, the table, 11, then 12.
fn unseen(made: Handed, table: usize) -> Refusal
    ensures { number result ≡ unseen (handed made) table }
{
    match made.answer {
        Err(refusal) => refusal,
        Ok(()) => {
            if table < table::table_words(made.set.header) {
                Refusal::Table
            } else {
                Refusal::List
            }
        }
    }
}

// The word of the starting levels.
fn put_word(values: &mut [u64], word: u32)
    requires { 1 ≤ length values.old }
    ensures { values.new ≡ over (word ∷ []) values.old }
{
    values[0] = word as u64;
}

// What was seen; where the call was taken, the set that it left and the word are written.
fn tell(sight: Seen, set: &mut [u32], values: &mut [u64]) -> Result<(), Refusal>
    requires { Room sight (length set.old) (length values.old) }
    ensures { Told sight set.old values.old result set.new values.new }
{
    let word = sight.answer?;
    numbers::put_set(sight.set, set);
    put_word(values, word);
    Ok(())
}

// Pins a unit at a choice, brings the table up to date and tells the least total. Values: the word of layer 0 at the starting levels.
pub fn pin_and_see(
    job: &[u8],
    set: &mut [u32],
    unit: u16,
    choice: u16,
    table: &mut [u32],
    values: &mut [u64],
) -> Result<(), Refusal>
    ensures { seen (code result) set.new table.new values.new ≡ see_export job.now set.old (pin unit choice) table.old values.old }
{
    let own = numbers::set_in(set);
    if values.len() < SEE_VALUES {
        return Err(unseen(pins::pin(job, own, unit, choice), table.len()));
    }
    let sight = see::pin_and_see(job, own, unit, choice, table);
    tell(sight, set, values)
}

// Lifts the pin of a unit, brings the table up to date and tells the least total. Values: as `pin_and_see` gives them.
pub fn lift_and_see(
    job: &[u8],
    set: &mut [u32],
    unit: u16,
    table: &mut [u32],
    values: &mut [u64],
) -> Result<(), Refusal>
    ensures { seen (code result) set.new table.new values.new ≡ see_export job.now set.old (lift unit) table.old values.old }
{
    let own = numbers::set_in(set);
    if values.len() < SEE_VALUES {
        return Err(unseen(pins::lift(job, own, unit), table.len()));
    }
    let sight = see::lift_and_see(job, own, unit, table);
    tell(sight, set, values)
}
