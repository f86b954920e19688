// What comes after calls as numbers: planning, or a replay.

#![tactic(auto)]

ghost use Rattle.std.specs.Prelude.{◌≡◌};
ghost use Rattle.header.specs.Answers.{verdict};
ghost use Rattle.replay.specs.Answers.{ended};
ghost use Rattle.base.specs.Refusals.{refusal};
ghost use Rattle.planner.specs.Answers.{aim_is};
ghost use Rattle.best.specs.Answers.{order_is};
ghost use Rattle.calling.specs.Sessions.{aim_named, order_named, named_tests, asked_tests, plan_refusal, session_call, replay_refusal, replay_session};
ghost use Rattle.session.specs.Answers.{session_is};

use best::Order;
use header::{Door, Refusal};
use interval::Totals;
use planner::Aim;
use replay::Replayed;

// The numbers that name an aim: 0 the least total, 1 even pictures; and those that name an order: 0 early, 1 late.
const EVEN: u32 = 1;

const LATE: u32 = 1;

pub fn aim_named(aim: u32) -> Aim
    ensures { aim_is result ≡ aim_named aim }
{
    if aim == EVEN {
        return Aim::Even;
    }
    Aim::Total
}

pub fn order_named(order: u32) -> Order
    ensures { order_is result ≡ order_named order }
{
    if order == LATE {
        return Order::Late;
    }
    Order::Early
}

// A number that names no aim, then one that names no order is 2.
pub fn named_verdict(aim: u32, order: u32) -> Result<(), Refusal>
    ensures { verdict result ≡ refusal (named_tests aim order) }
{
    if EVEN < aim {
        return Err(Refusal::NotDue);
    }
    if LATE < order {
        return Err(Refusal::NotDue);
    }
    Ok(())
}

// What is asked, by numbers: aim and order, then the calls, 2 or 1.
fn asked_verdict(calls: &[u16], aim: u32, order: u32) -> Result<(), Refusal>
    ensures { verdict result ≡ refusal (asked_tests calls.now aim order) }
{
    named_verdict(aim, order)?;
    calls::calls_verdict(calls)
}

// What refuses calls and planning, before one is made, with lists of these lengths: the job, 1 to 5 and 17, aim, order and calls, 2 or 1, the table, 11, then 12 for the numbers and the entries.
pub fn plan_refusal(
    job: &[u8],
    calls: &[u16],
    aim: u32,
    order: u32,
    answers: usize,
    table: usize,
    entries: usize,
) -> Result<(), Refusal>
    ensures { verdict result ≡ plan_refusal job.now calls.now aim order answers table entries }
{
    let header = job::read(job, Door::Opening)?.header;
    asked_verdict(calls, aim, order)?;
    if table < table::table_words(header) {
        return Err(Refusal::Table);
    }
    if answers < calls.len() / calls::NUMBERS {
        return Err(Refusal::List);
    }
    if entries < entry::SIZE * entry::intervals(header) {
        return Err(Refusal::List);
    }
    Ok(())
}

// Makes calls as numbers and plans with the pins that they leave, by the aim and in the order that numbers name. Where there is a plan, each call's number goes to `answers`; "no plan" writes the table alone.
pub fn plan_after(
    job: &[u8],
    calls: &[u16],
    aim: u32,
    order: u32,
    answers: &mut [u8],
    table: &mut [u32],
    entries: &mut [u8],
) -> Result<Totals, Refusal>
    ensures { session_is result answers.new table.new entries.new ≡ session_call job.now calls.now aim order answers.old table.old entries.old }
{
    plan_refusal(
        job,
        calls,
        aim,
        order,
        answers.len(),
        table.len(),
        entries.len(),
    )?;
    let set = calls::set_after(job, calls, Door::Opening);
    let totals = planner::plan(job, set, aim_named(aim), order_named(order), table, entries)?;
    // the calls are made again for their numbers: until there is a plan, nothing but the table may be written
    calls::put_numbers(job, calls, answers);
    Ok(totals)
}

// What refuses calls and a replay of a job that the archive takes, with room for so many levels: the job, 1 to 5, the calls, 2 or 1, the plan, 14, then 12.
pub fn replay_refusal(
    job: &[u8],
    calls: &[u16],
    entries: &[u8],
    levels: usize,
) -> Result<(), Refusal>
    ensures { verdict result ≡ replay_refusal job.now calls.now entries.now levels }
{
    let header = job::read(job, Door::Archive)?.header;
    calls::calls_verdict(calls)?;
    if !entry::shaped(header, entries) {
        return Err(Refusal::Plan);
    }
    if levels < replay::levels_each(header) * entry::intervals(header) {
        return Err(Refusal::List);
    }
    Ok(())
}

// Replays a plan with the pins that calls as numbers leave, refused ones included; for a job that never drains every call is refused, and the plan is replayed without pins.
pub fn replay_after(
    job: &[u8],
    calls: &[u16],
    entries: &[u8],
    levels: &mut [u16],
) -> Result<Replayed, Refusal>
    ensures { ended result levels.new ≡ replay_session job.now calls.now entries.now levels.old }
{
    replay_refusal(job, calls, entries, levels.len())?;
    let set = calls::set_after(job, calls, Door::Archive);
    replay::replay(job, set, entries, levels)
}
