// Command records behind a job's bytes (document 01, "The printed plan"): pins and lifts in turn, to the end of the bytes or to the first refusal, and planning after them, which is what the program reads.

#![tactic(auto)]

ghost use Rattle.std.specs.Prelude.{◌≡◌, ◌<◌, ◌≤◌, length, drop};
ghost use Rattle.pinset.specs.Answers.{set_of};
ghost use Rattle.pins.specs.Answers.{handed};
ghost use Rattle.planner.specs.Answers.{planned};
ghost use Rattle.calling.specs.Commands.{command, follow, commands_call};
ghost use Rattle.calling.specs.Sessions.{input_call};
ghost use Rattle.commands.specs.Answers.{command_is, step_is, carries_out};

use best::Order;
use header::{Door, Refusal};
use interval::Totals;
use pins::kind::{LIFT, PIN};
use pins::{Handed, Opened};
use pinset::PinSet;
use planner::Aim;

// A command record.
#[derive(Clone, Copy, Debug, PartialEq, Eq)]
enum Command {
    Pin { unit: u16, choice: u16 },
    Lift { unit: u16 },
}

// What one command comes to: its answer, the set after it and where the next stands.
#[derive(Clone, Copy)]
struct Step {
    answer: Result<(), Refusal>,
    set: PinSet,
    next: usize,
}

// How many fields the two records have.
const PIN_FIELDS: u8 = 2;

const LIFT_FIELDS: u8 = 1;

// The bytes of the two records.
const PIN_SIZE: usize = 8;

const LIFT_SIZE: usize = 6;

// How many bytes the program takes.
const MOST_INPUT: usize = 32768;

// The command record at the front of these bytes: by its kind a lift, else a pin.
fn read_command(rest: &[u8]) -> Result<Command, Refusal>
    ensures { command_is result ≡ command rest.now }
{
    match fields::field16(rest, 2) {
        LIFT => {
            job::plain_verdict(rest, LIFT, LIFT_FIELDS)?;
            Ok(Command::Lift {
                unit: fields::field16(rest, 4),
            })
        }
        _ => {
            job::plain_verdict(rest, PIN, PIN_FIELDS)?;
            Ok(Command::Pin {
                unit: fields::field16(rest, 4),
                choice: fields::field16(rest, 6),
            })
        }
    }
}

// The command at a place, carried out.
fn carry_out(job: &[u8], set: PinSet, at: usize) -> Step
    requires { at < length job.now }
    ensures { step_is result ≡ carries_out job.now (set_of set) at }
{
    match read_command(&job[at..]) {
        Err(refusal) => Step {
            answer: Err(refusal),
            set,
            next: at,
        },
        Ok(Command::Pin { unit, choice }) => {
            let made = pins::pin(job, set, unit, choice);
            Step {
                answer: made.answer,
                set: made.set,
                next: at + PIN_SIZE,
            }
        }
        Ok(Command::Lift { unit }) => {
            let made = pins::lift(job, set, unit);
            Step {
                answer: made.answer,
                set: made.set,
                next: at + LIFT_SIZE,
            }
        }
    }
}

// The commands from a place on, in turn, to the end of the bytes or to the first refusal.
fn follow(job: &[u8], fresh: PinSet, from: usize) -> Handed
    requires { from ≤ length job.now }
    ensures { handed result ≡ follow (length job.now) job.now (set_of fresh) (drop from job.now) }
{
    let mut set = fresh;
    let mut at = from;
    while at < job.len() {
        let done = carry_out(job, set, at);
        let answer = done.answer;
        set = done.set;
        if let Err(refusal) = answer {
            return Handed {
                answer: Err(refusal),
                set,
            };
        }
        at = done.next;
    }
    Handed {
        answer: Ok(()),
        set,
    }
}

// Opens the job at the front of the bytes and takes the command records behind it, kind 6 pins and kind 7 lifts, in turn. The first refusal ends it, and hands back the set as it was before the command.
pub fn take_commands(input: &[u8]) -> Handed
    ensures { handed result ≡ commands_call input.now }
{
    let Opened { answer, set } = pins::open(input, Door::Opening);
    match answer {
        Err(refusal) => Handed {
            answer: Err(refusal),
            set,
        },
        Ok(taken) => follow(input, set, taken),
    }
}

// Plans what the program reads: a job, then command records to the end of the bytes. Input longer than the program takes is refused first.
pub fn plan_input(input: &[u8], table: &mut [u32], entries: &mut [u8]) -> Result<Totals, Refusal>
    ensures { planned result table.new entries.new ≡ input_call input.now table.old entries.old }
{
    if MOST_INPUT < input.len() {
        return Err(Refusal::Input);
    }
    let Handed { answer, set } = take_commands(input);
    answer?;
    planner::plan(input, set, Aim::Total, Order::Early, table, entries)
}
