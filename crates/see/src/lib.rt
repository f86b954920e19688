// Pin and see, lift and see (document 02, E9): a pin or a lift, then the lent table is brought up to date and the least total told. For unit u only the layers of intervals 0 to u + d - 1 depend on its pin, and only these are filled again.

#![tactic(auto)]

ghost use Rattle.std.specs.Prelude.{◌≡◌};
ghost use Rattle.model.specs.Pins.{pin, lift};
ghost use Rattle.header.specs.Answers.{plain};
ghost use Rattle.pinset.specs.Answers.{set_of};
ghost use Rattle.pins.specs.Answers.{handed};
ghost use Rattle.planning.specs.See.{see_call};
ghost use Rattle.see.specs.Answers.{seen, Renews, Renewed, Made, SeesFor};

use decoder::Measure;
use header::{Header, Refusal};
use interval::Levels;
use pins::Handed;
use pinset::PinSet;

// The answer of a call that sees, the word of layer 0 at the starting levels, which is the least total distortion or the mark where there is no plan; and the set as it is now. A refused call hands it back as it came.
#[derive(Clone, Copy)]
pub struct Seen {
    pub answer: Result<u32, Refusal>,
    pub set: PinSet,
}

// Fills the layers before that of the interval which decodes the unit, with the pins of the set, and reads the word of the starting levels. What stands in that layer may be anything.
fn renew(job: &[u8], header: Header, set: PinSet, unit: u16, table: &mut [u32]) -> u32
    requires { Renews job.now (plain header) (set_of set) unit table.old }
    ensures { Renewed job.now (set_of set) unit table.old result table.new }
{
    let pins = set.pins;
    let line = table::line_in(job, header);
    let start = Levels::start(header);
    let first = 0;
    let last = unit as usize + header.delay as usize;
    table::fill_layers(
        job,
        header,
        line,
        &pins,
        None,
        Measure::Sum,
        first,
        last,
        table,
    );
    line::word_at(table, line, first, start)
}

// What is seen of a pin or a lift that was made on a set: its refusal; 11, and the set is the one before it; or the word of the table, brought up to date.
fn see(job: &[u8], set: PinSet, made: Handed, unit: u16, table: &mut [u32]) -> Seen
    requires { Made job.now (set_of set) unit (handed made) }
    ensures { SeesFor job.now (set_of set) unit (handed made) table.old (seen result table.new) }
{
    let new = made.set;
    match made.answer {
        Err(refusal) => Seen {
            answer: Err(refusal),
            set: new,
        },
        Ok(()) => {
            let header = new.header;
            if table.len() < table::table_words(header) {
                return Seen {
                    answer: Err(Refusal::Table),
                    set,
                };
            }
            Seen {
                answer: Ok(renew(job, header, new, unit, table)),
                set: new,
            }
        }
    }
}

// Pins a unit at a choice, brings the table up to date and tells the least total.
pub fn pin_and_see(job: &[u8], set: PinSet, unit: u16, choice: u16, table: &mut [u32]) -> Seen
    ensures { seen result table.new ≡ see_call job.now (set_of set) (pin unit choice) table.old }
{
    let made = pins::pin(job, set, unit, choice);
    see(job, set, made, unit, table)
}

// Lifts the pin of a unit, brings the table up to date and tells the least total.
pub fn lift_and_see(job: &[u8], set: PinSet, unit: u16, table: &mut [u32]) -> Seen
    ensures { seen result table.new ≡ see_call job.now (set_of set) (lift unit) table.old }
{
    let made = pins::lift(job, set, unit);
    see(job, set, made, unit, table)
}
