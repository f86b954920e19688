// A plan after calls as numbers, or with the pins of a set as numbers, and its totals as values in a list that is lent.

#![tactic(auto)]

ghost use Rattle.std.specs.Prelude.{◌≡◌, length};
ghost use Rattle.header.specs.Refusals.{code};
ghost use Rattle.header.specs.Answers.{verdict};
ghost use Rattle.pinset.specs.Answers.{set_of};
ghost use Rattle.calling.specs.Sessions.{set_plan_refusal};
ghost use Rattle.exporting.specs.Exports.{planned, plan_export};
ghost use Rattle.exporting.specs.Sets.{set_planned, set_plan_export};
ghost use Rattle.planned.specs.Answers.{Room, Told};

use header::{Door, Refusal};
use interval::Totals;
use pinset::PinSet;

// A plan gives so many values, and one more for each bucket.
pub const PLAN_VALUES: usize = 3;

// What planning found, with its totals as values.
pub fn tell(found: Result<Totals, Refusal>, values: &mut [u64]) -> Result<(), Refusal>
    requires { Room found (length values.old) }
    ensures { Told found values.old result values.new }
{
    values::put_totals(values, found?);
    Ok(())
}

// Makes calls as numbers and plans with the pins that they leave, by the aim and in the order that numbers name. Where there is a plan, each call's number goes to `answers`; 13 writes the table alone. Values: distortion, source size and channel size of the plan, then the unused drain of each bucket.
pub fn plan(
    job: &[u8],
    calls: &[u16],
    aim: u32,
    order: u32,
    answers: &mut [u8],
    table: &mut [u32],
    entries: &mut [u8],
    values: &mut [u64],
) -> Result<(), Refusal>
    ensures { planned (code result) answers.new table.new entries.new values.new ≡ plan_export job.now calls.now aim order answers.old table.old entries.old values.old }
{
    session::plan_refusal(
        job,
        calls,
        aim,
        order,
        answers.len(),
        table.len(),
        entries.len(),
    )?;
    let buckets = values::buckets_in(job);
    if values.len() < PLAN_VALUES + buckets {
        return Err(Refusal::List);
    }
    let found = session::plan_after(job, calls, aim, order, answers, table, entries);
    tell(found, values)
}

// What refuses planning with a set, before the search, with lists of these lengths: the job, 1 to 5 and 17, the set, 6, aim and order, 2, the table, 11, then 12 for the entries.
fn set_refusal(
    job: &[u8],
    set: PinSet,
    aim: u32,
    order: u32,
    table: usize,
    entries: usize,
) -> Result<(), Refusal>
    ensures { verdict result ≡ set_plan_refusal job.now (set_of set) aim order table entries }
{
    let header = pinset::check(job, set, Door::Opening)?.header;
    session::named_verdict(aim, order)?;
    if table < table::table_words(header) {
        return Err(Refusal::Table);
    }
    if entries < entry::SIZE * entry::intervals(header) {
        return Err(Refusal::List);
    }
    Ok(())
}

// Plans with the pins of a set as numbers, by the aim and in the order that numbers name; 13 writes the table alone. Values: as `plan` gives them.
pub fn plan_set(
    job: &[u8],
    set: &[u32],
    aim: u32,
    order: u32,
    table: &mut [u32],
    entries: &mut [u8],
    values: &mut [u64],
) -> Result<(), Refusal>
    ensures { set_planned (code result) table.new entries.new values.new ≡ set_plan_export job.now set.now aim order table.old entries.old values.old }
{
    let own = numbers::set_in(set);
    set_refusal(job, own, aim, order, table.len(), entries.len())?;
    let buckets = values::buckets_in(job);
    if values.len() < PLAN_VALUES + buckets {
        return Err(Refusal::List);
    }
    let aim = session::aim_named(aim);
    let order = session::order_named(order);
    let found = planner::plan(job, own, aim, order, table, entries);
    tell(found, values)
}
