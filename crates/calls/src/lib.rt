// Calls as numbers, three a call: pins and lifts in turn, refused ones included.

#![tactic(auto)]

ghost use Rattle.std.specs.Prelude.{◌≡◌, ◌+◌, ◌*◌, ◌/◌, ◌<◌, ◌≤◌, length};
ghost use Rattle.base.specs.Refusals.{refusal};
ghost use Rattle.pinning.specs.Calls.{call};
ghost use Rattle.pinset.specs.Answers.{set_of};
ghost use Rattle.pins.specs.Answers.{handed};
ghost use Rattle.header.specs.Answers.{verdict, door_of};
ghost use Rattle.calling.specs.Commands.{kind_fits, call_at, calls_tests};
ghost use Rattle.calling.specs.Sessions.{made, answer_number, calls_refusal, calls_call};
ghost use Rattle.calls.specs.Answers.{called, Made};

use header::{Door, Refusal};
use pins::Handed;
use pins::kind::{LIFT, PIN};
use pinset::PinSet;

// Of the pins that calls leave: how many, their sizes, their distortions.
#[derive(Clone, Copy)]
pub struct PinTotals {
    pub count: u32,
    pub size: u32,
    pub distortion: u32,
}

// How many numbers a call has.
pub const NUMBERS: usize = 3;

fn kind_fits(kind: u16) -> bool
    ensures { result ≡ kind_fits kind }
{
    kind == PIN || kind == LIFT
}

// Calls as numbers: another kind is 2; then a last call that is cut is 1.
pub fn calls_verdict(calls: &[u16]) -> Result<(), Refusal>
    ensures { verdict result ≡ refusal (calls_tests calls.now) }
{
    let count = calls.len() / NUMBERS;
    for place in 0..count {
        let at = NUMBERS * place;
        if !kind_fits(calls[at]) {
            return Err(Refusal::NotDue);
        }
    }
    if calls.len() % NUMBERS != 0 {
        return Err(Refusal::Cut);
    }
    Ok(())
}

// The call in a place, made.
fn make_call(job: &[u8], set: PinSet, calls: &[u16], place: usize) -> Handed
    requires { 3 * place + 2 < length calls.now }
    ensures { handed result ≡ call job.now (set_of set) (call_at calls.now place) }
{
    let at = NUMBERS * place;
    let second = at + 1;
    let third = at + 2;
    let unit = calls[second];
    if calls[at] == PIN {
        return pins::pin(job, set, unit, calls[third]);
    }
    pins::lift(job, set, unit)
}

// 0 for a call that was taken, else the number that refused it.
fn answer_number(answer: Result<(), Refusal>) -> u8
    ensures { result ≡ answer_number (verdict answer) }
{
    match answer {
        Ok(()) => 0,
        Err(refusal) => u8::from(refusal),
    }
}

// Makes all calls in turn, each given the set that the last one handed back, and writes their numbers.
pub fn put_numbers(job: &[u8], calls: &[u16], answers: &mut [u8]) -> PinSet
    requires { length calls.now / 3 ≤ length answers.old }
    ensures { Made job.now calls.now answers.old result answers.new }
{
    let count = calls.len() / NUMBERS;
    let opened = pins::open(job, Door::Opening);
    let mut set = opened.set;
    for place in 0..count {
        let made = make_call(job, set, calls, place);
        let answer = made.answer;
        answers[place] = answer_number(answer);
        set = made.set;
    }
    set
}

// The set after calls as numbers, refused ones included, from the set that opening by the door answers.
pub fn set_after(job: &[u8], calls: &[u16], door: Door) -> PinSet
    ensures { set_of result ≡ (made (door_of door) job.now calls.now).set }
{
    let count = calls.len() / NUMBERS;
    let opened = pins::open(job, door);
    let mut set = opened.set;
    for place in 0..count {
        let handed = make_call(job, set, calls, place);
        set = handed.set;
    }
    set
}

// What refuses calls alone, before one is made, where there is room for so many numbers: the job, 1 to 5 and 17, the calls, 2 or 1, then 12.
pub fn calls_refusal(job: &[u8], calls: &[u16], answers: usize) -> Result<(), Refusal>
    ensures { verdict result ≡ calls_refusal job.now calls.now answers }
{
    job::read(job, Door::Opening)?;
    calls_verdict(calls)?;
    if answers < calls.len() / NUMBERS {
        return Err(Refusal::List);
    }
    Ok(())
}

// Makes calls as numbers, three a call (kind 6 or 7 as in the command records, unit, choice), refused ones included. Each call's number goes to `answers`, 0 where it was taken.
pub fn make_calls(job: &[u8], calls: &[u16], answers: &mut [u8]) -> Result<PinTotals, Refusal>
    ensures { called result answers.new ≡ calls_call job.now calls.now answers.old }
{
    calls_refusal(job, calls, answers.len())?;
    let set = put_numbers(job, calls, answers);
    Ok(PinTotals {
        count: set.count,
        size: set.size,
        distortion: set.distortion,
    })
}
