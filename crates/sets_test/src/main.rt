// Tries sets that do not match their job: refusal 6 of every call that takes a set, and 17 of those that go by the door of opening, neither of which a call for other languages can reach with a set.
// Standard input has Job A of document 01, 64 bytes, Job A with a second bucket, 70 bytes, Job A with drain 0, 64 bytes, then rows of one set each. A line says, for each of the three jobs, what the check, a pin of unit 2 at 0, a lift of unit 1, a replay and planning answer: 0, or the number of the refusal.

#![tactic(auto)]

ghost use Rattle.std.specs.Prelude.{◌≤◌, length};

use best::Order;
use header::{Bucket, Door, Header, Refusal};
use pinset::PinSet;
use planner::Aim;
use std::io;

// Where Job A ends, the second job and the third, and the bytes of a row: the nine fields of the set's header, whether it has a second bucket and that bucket's three, a unit and its pin, which unit 0 leaves out, and the three totals.
const JOB: usize = 64;

const SECOND: usize = 134;

const THIRD: usize = 198;

const ROW: usize = 36;

// A plan of Job A without a violation, where no pin bars it.
const PLAN: [u8; 9] = [0, 255, 255, 2, 0, 0, 1, 1, 0];

fn second_at(input: &[u8], at: usize) -> Option<Bucket>
    requires { at ≤ 4096 }
{
    if fields::field16(input, at + 18) != 1 {
        return None;
    }
    Some(Bucket {
        size: fields::field16(input, at + 20),
        drain: fields::field16(input, at + 22),
        fill: fields::field16(input, at + 24),
    })
}

fn header_at(input: &[u8], at: usize) -> Header
    requires { at ≤ 4096 }
{
    Header {
        units: fields::field16(input, at),
        delay: fields::field16(input, at + 2),
        decoder: fields::field16(input, at + 4),
        level: fields::field16(input, at + 10),
        first: Bucket {
            size: fields::field16(input, at + 6),
            drain: fields::field16(input, at + 8),
            fill: fields::field16(input, at + 12),
        },
        second: second_at(input, at),
        rates: fields::field16(input, at + 14),
        choices: fields::field16(input, at + 16),
    }
}

fn set_at(input: &[u8], at: usize) -> PinSet
    requires { at ≤ 4096 }
{
    let mut pins = [65535u16; 512];
    let unit = fields::field16(input, at + 26);
    let pin = fields::field16(input, at + 28);
    match unit {
        1..=512 => {
            let place = (unit - 1) as usize;
            pins[place] = pin;
        }
        _ => {}
    }
    PinSet {
        header: header_at(input, at),
        pins,
        count: fields::field16(input, at + 30) as u32,
        size: fields::field16(input, at + 32) as u32,
        distortion: fields::field16(input, at + 34) as u32,
    }
}

// 0, or the number of the refusal.
fn print_answer<T: Copy>(rt: HostRuntime, answer: Result<T, Refusal>) -> io::Result<()> {
    match answer {
        Ok(_) => print!(rt; " 0"),
        Err(refusal) => print!(rt; " {refusal}"),
    }
}

fn try_set(rt: HostRuntime, job: &[u8], set: PinSet) -> io::Result<()> {
    print_answer(rt, pinset::check(job, set, Door::Opening))?;
    let pinned = pins::pin(job, set, 2, 0);
    let answer = pinned.answer;
    print_answer(rt, answer)?;
    let lifted = pins::lift(job, set, 1);
    let answer = lifted.answer;
    print_answer(rt, answer)?;
    let mut levels = [0u16; 9];
    let plan = PLAN;
    print_answer(rt, replay::replay(job, set, &plan, &mut levels))?;
    let mut table = [0u32; 160];
    let mut entries = [0u8; 9];
    print_answer(
        rt,
        planner::plan(job, set, Aim::Total, Order::Late, &mut table, &mut entries),
    )
}

fn try_rows(rt: HostRuntime, input: &[u8]) -> io::Result<()>
    requires { length input.now ≤ 4096 }
{
    if input.len() < THIRD {
        return Ok(());
    }
    let rows = (input.len() - THIRD) / ROW;
    let start = 0;
    for row in 0..rows {
        let at = THIRD + ROW * row;
        let number = row as u64 + 1;
        print!(rt; "set {number}")?;
        let set = set_at(input, at);
        try_set(rt, &input[start..JOB], set)?;
        try_set(rt, &input[JOB..SECOND], set)?;
        try_set(rt, &input[SECOND..THIRD], set)?;
        println!(rt; "")?;
    }
    Ok(())
}

fn main(rt: HostRuntime) -> io::Result<()> {
    let mut input = [0u8; 4096];
    let n = intake::fill(&mut rt.reader(), &mut input)?;
    try_rows(rt, &input[..n])
}
