// A change of contract while a programme is sent (document 02, E12): the first entries of the old plan remain, and the rest is planned afresh under the new contract by the one search, from the levels that they led to.

#![tactic(auto)]

ghost use Rattle.std.specs.Prelude.{◌≡◌, [], ◌*◌, ◌≤◌, ◌++◌, length, take, drop};
ghost use Rattle.std.specs.Option.{option_to_list};
ghost use Rattle.model.specs.Step.{overfull};
ghost use Rattle.model.specs.Replay.{plus_each, plus};
ghost use Rattle.model.specs.Best.{total};
ghost use Rattle.base.specs.Refusals.{refusal};
ghost use Rattle.format.specs.JobBytes.{job_in};
ghost use Rattle.header.specs.Answers.{plain, verdict};
ghost use Rattle.pinning.specs.PinSet.{lines};
ghost use Rattle.pinning.specs.Check.{Ready};
ghost use Rattle.pinset.specs.Answers.{set_of};
ghost use Rattle.interval.specs.Answers.{levels_of, totals_of, line_of};
ghost use Rattle.table.specs.Answers.{job_on};
ghost use Rattle.best.specs.Answers.{order_is};
ghost use Rattle.planning.specs.Calls.{search_in};
ghost use Rattle.planner.specs.Answers.{planned};
ghost use Rattle.contract.specs.Answers.{contract_is};
ghost use Rattle.changing.specs.Calls.{none_over, rest_tests, change_tests, behind, change_in, change_call};
ghost use Rattle.change.specs.Answers.{Adds, Continues, Follows, Passes, changed_for};

use best::Order;
use contract::Contract;
use front::Front;
use header::{Choice, Door, Header, Refusal};
use interval::{Buffers, Levels, Totals};
use line::Line;
use pinset::PinSet;
use planner::Aim;

// What both parts of a plan leave unused of the second bucket's drain, where there is one.
fn both_unused(before: Totals, rest: Totals) -> Option<u32>
    requires { Adds before rest }
    ensures { option_to_list result ≡ plus_each (option_to_list before.unused2) (option_to_list rest.unused2) }
{
    Some(before.unused2? + rest.unused2?)
}

// The totals of both parts of a plan.
fn both_totals(before: Totals, rest: Totals) -> Totals
    requires { Adds before rest }
    ensures { totals_of result ≡ plus (totals_of before) (totals_of rest) }
{
    Totals {
        distortion: before.distortion + rest.distortion,
        source: before.source + rest.source,
        channel: before.channel + rest.channel,
        unused: before.unused + rest.unused,
        unused2: both_unused(before, rest),
    }
}

// Whether no bucket holds more than its size: 20 where one does.
fn carried_fits(buffers: Buffers, at: Levels) -> bool
    ensures { result ≡ none_over (overfull (line_of buffers []).buckets (levels_of at).buckets) }
{
    if buffers.first.size < at.bucket {
        return false;
    }
    match (buffers.second, at.bucket2) {
        (Some(bucket), Some(level)) => level <= bucket.size,
        _ => true,
    }
}

// The first bytes of the old entries, in front of the list's others.
fn put_first(entries: &mut [u8], old: &[u8], count: usize)
    requires { (count ≤ length old.now) × (count ≤ length entries.old) }
    ensures { entries.new ≡ take count old.now ++ drop count entries.old }
{
    // kept as an index loop: by copy_from_slice the archive needs memmove from outside, and it is to need memcpy and memset alone
    for i in 0..count {
        entries[i] = old[i];
    }
}

// Plans the rest, behind the first `first` entries, whose totals are known. These entries are copied when the rest has a plan.
fn plan_rest(
    order: Order,
    job: &[u8],
    header: Header,
    line: Line,
    pins: &[Choice; 512],
    first: usize,
    at: Levels,
    before: Totals,
    old: &[u8],
    table: &mut [u32],
    entries: &mut [u8],
) -> Result<Totals, Refusal>
    requires { Continues job.now (plain header) line pins.now first (levels_of at) before old.now table.old entries.old }
    ensures { planned result table.new entries.new ≡ behind (totals_of before) (take (3 * first) old.now) entries.old (search_in (job_on job.now line) (lines header.units pins.now) total (order_is order) first (levels_of at) table.old (drop (3 * first) entries.old)) }
{
    let start = entry::SIZE * first;
    let rest = planner::search(
        Aim::Total,
        order,
        job,
        header,
        line,
        pins,
        first,
        at,
        table,
        &mut entries[start..],
    )?;
    put_first(entries, old, start);
    Ok(both_totals(before, rest))
}

// Whether the rest can be planned over the line after `first` intervals, with lists of these lengths: 18, 19, 20, 11, then 12.
fn rest_verdict(
    job: &[u8],
    header: Header,
    line: Line,
    set: PinSet,
    old: &[u8],
    first: usize,
    table: usize,
    entries: usize,
) -> Result<(), Refusal>
    requires { Follows job.now (plain header) line (set_of set) old.now }
    ensures { verdict result ≡ refusal (rest_tests (job_in job.now) (job_on job.now line) (lines header.units (set_of set).pins) old.now first table entries) }
{
    let pins = set.pins;
    let total = entry::intervals(header);
    if first < 1 {
        return Err(Refusal::Interval);
    }
    if total <= first {
        return Err(Refusal::Interval);
    }
    let Some(Front { at, .. }) = front::follow(job, header, &pins, old, first) else {
        return Err(Refusal::Violation);
    };
    if !carried_fits(line.buffers, at) {
        return Err(Refusal::Levels);
    }
    if table < table::words_over(header, line.buffers) {
        return Err(Refusal::Table);
    }
    if entries < entry::SIZE * total {
        return Err(Refusal::List);
    }
    Ok(())
}

// What refuses a change for a job that the set matches, with lists of these lengths: the old plan, 14, the new contract, 3, 17 and 4, then the rest.
pub fn change_verdict(
    job: &[u8],
    header: Header,
    set: PinSet,
    old: &[u8],
    first: usize,
    contract: Contract<'_>,
    table: usize,
    entries: usize,
) -> Result<(), Refusal>
    requires { Ready job.now (plain header) (set_of set) }
    ensures { verdict result ≡ refusal (change_tests (job_in job.now) (lines header.units (set_of set).pins) old.now first (contract_is contract.entry) table entries) }
{
    if !entry::shaped(header, old) {
        return Err(Refusal::Plan);
    }
    let two = header.second.is_some();
    if !contract.offered(two) {
        return Err(Refusal::Header);
    }
    if !contract.draining(two) {
        return Err(Refusal::NeverDrains);
    }
    if !contract.rising() {
        return Err(Refusal::Rates);
    }
    let line = contract.line_under(header);
    rest_verdict(job, header, line, set, old, first, table, entries)
}

// Plans the rest of a programme of which nothing refuses the change.
fn change_over(
    order: Order,
    job: &[u8],
    header: Header,
    line: Line,
    set: PinSet,
    old: &[u8],
    first: usize,
    table: &mut [u32],
    entries: &mut [u8],
) -> Result<Totals, Refusal>
    requires { Follows job.now (plain header) line (set_of set) old.now × Passes job.now line (set_of set) old.now first (length table.old) (length entries.old) }
    ensures { planned result table.new entries.new ≡ change_in (job_in job.now) (job_on job.now line) (lines header.units (set_of set).pins) old.now first (order_is order) table.old entries.old }
{
    let pins = set.pins;
    let Some(Front { at, sum }) = front::follow(job, header, &pins, old, first) else {
        return Err(Refusal::Violation);
    };
    plan_rest(
        order, job, header, line, &pins, first, at, sum, old, table, entries,
    )
}

// A change for a job that the set matches.
fn change_checked(
    job: &[u8],
    header: Header,
    set: PinSet,
    old: &[u8],
    first: usize,
    contract: Contract<'_>,
    order: Order,
    table: &mut [u32],
    entries: &mut [u8],
) -> Result<Totals, Refusal>
    requires { Ready job.now (plain header) (set_of set) }
    ensures { planned result table.new entries.new ≡ changed_for job.now (set_of set) old.now first (contract_is contract.entry) (order_is order) table.old entries.old }
{
    change_verdict(
        job,
        header,
        set,
        old,
        first,
        contract,
        table.len(),
        entries.len(),
    )?;
    let line = contract.line_under(header);
    change_over(order, job, header, line, set, old, first, table, entries)
}

// Changes the contract of a programme after `first` intervals: rates, and for each bucket a size and a drain. All entries go to `entries`, the least distortion of every state from layer `first` on to `table`.
pub fn change(
    job: &[u8],
    set: PinSet,
    old: &[u8],
    first: usize,
    contract: Contract<'_>,
    order: Order,
    table: &mut [u32],
    entries: &mut [u8],
) -> Result<Totals, Refusal>
    ensures { planned result table.new entries.new ≡ change_call job.now (set_of set) old.now first (contract_is contract.entry) (order_is order) table.old entries.old }
{
    let header = pinset::check(job, set, Door::Opening)?.header;
    change_checked(
        job, header, set, old, first, contract, order, table, entries,
    )
}
