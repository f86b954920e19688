// Planning: the tests in their order, then the search, which fills the table of least distortions and has the best plan read off it (document 01, "The best plan").
// For even pictures the table is filled by the greatest distortion first: its word at the start is the limit of the search for the least total (document 02, E7).

#![tactic(auto)]

ghost use Rattle.std.specs.Prelude.{◌≡◌, map, length};
ghost use Rattle.model.specs.Best.{even};
ghost use Rattle.model.specs.Table.{InLayer};
ghost use Rattle.format.specs.JobBytes.{job_in};
ghost use Rattle.header.specs.Answers.{plain};
ghost use Rattle.pinning.specs.PinSet.{lines};
ghost use Rattle.pinning.specs.Check.{Ready};
ghost use Rattle.pinset.specs.Answers.{set_of};
ghost use Rattle.interval.specs.Answers.{levels_of};
ghost use Rattle.planning.specs.Calls.{search_in, plan_in, plan_call};
ghost use Rattle.starting.specs.Calls.{levels_fit, plan_with, levels_call};
ghost use Rattle.table.specs.Answers.{job_on};
ghost use Rattle.best.specs.Answers.{order_is};
ghost use Rattle.planner.specs.Answers.{planned, aim_is, levels_of_buckets, Limits, LimitFor, PlansFrom, Searches};

use best::Order;
use decoder::Measure;
use header::{Choice, Door, Header, Refusal};
use interval::{Levels, Totals};
use line::Line;
use pinset::PinSet;
use table::Limit;

// What is to be least: the total distortion; or, for even pictures, the greatest distortion of a unit, and of the plans in which that is least the total.
#[derive(Clone, Copy)]
pub enum Aim {
    Total,
    Even,
}

// The levels of the buckets where a programme starts: one, or two.
#[derive(Clone, Copy)]
pub struct BucketLevels {
    pub bucket: u16,
    pub bucket2: Option<u16>,
}

impl BucketLevels {
    // Those that a job tells.
    pub fn start(header: Header) -> BucketLevels
        ensures { levels_of_buckets result ≡ map (λ k. k.fill) (plain header).buckets }
    {
        BucketLevels {
            bucket: header.first.fill,
            bucket2: header.second.map(|bucket| bucket.fill),
        }
    }
}

// The least greatest distortion of a plan for the intervals after `first`, from the levels there, as a limit: a table by the greatest has it in the word of these levels. Where there is no plan nothing is left out.
fn least_greatest(
    job: &[u8],
    header: Header,
    line: Line,
    pins: &[Choice; 512],
    first: usize,
    start: Levels,
    table: &mut [u32],
) -> Limit
    requires { Limits job.now (plain header) line pins.now first (levels_of start) table.old }
    ensures { LimitFor even (job_on job.now line) (lines header.units pins.now) first (levels_of start) table.old result table.new }
{
    table::fill_table(
        job,
        header,
        line,
        pins,
        None,
        Measure::Greatest,
        first,
        table,
    );
    let word = line::word_at(table, line, first, start);
    if word == line::NONE {
        return None;
    }
    Some(word)
}

// What the distortion of a choice may be in a search by this aim.
fn limit_for(
    aim: Aim,
    job: &[u8],
    header: Header,
    line: Line,
    pins: &[Choice; 512],
    first: usize,
    start: Levels,
    table: &mut [u32],
) -> Limit
    requires { Limits job.now (plain header) line pins.now first (levels_of start) table.old }
    ensures { LimitFor (aim_is aim) (job_on job.now line) (lines header.units pins.now) first (levels_of start) table.old result table.new }
{
    match aim {
        Aim::Total => None,
        Aim::Even => least_greatest(job, header, line, pins, first, start, table),
    }
}

// The search for the intervals after `first`, from the levels there: the table is filled before "no plan" can be said.
pub fn search(
    aim: Aim,
    order: Order,
    job: &[u8],
    header: Header,
    line: Line,
    pins: &[Choice; 512],
    first: usize,
    start: Levels,
    table: &mut [u32],
    entries: &mut [u8],
) -> Result<Totals, Refusal>
    requires { Searches job.now (plain header) line pins.now first (levels_of start) table.old entries.old }
    ensures { planned result table.new entries.new ≡ search_in (job_on job.now line) (lines header.units pins.now) (aim_is aim) (order_is order) first (levels_of start) table.old entries.old }
{
    let limit = limit_for(aim, job, header, line, pins, first, start, table);
    table::fill_table(job, header, line, pins, limit, Measure::Sum, first, table);
    if line::word_at(table, line, first, start) == line::NONE {
        return Err(Refusal::NoPlan);
    }
    Ok(best::read_off(
        order, job, header, line, pins, limit, table, first, start, entries,
    ))
}

// Plans the intervals after `first`, from the levels there: 11, then 12, then the search.
fn plan_rest(
    aim: Aim,
    order: Order,
    job: &[u8],
    header: Header,
    line: Line,
    pins: &[Choice; 512],
    first: usize,
    start: Levels,
    table: &mut [u32],
    entries: &mut [u8],
) -> Result<Totals, Refusal>
    requires { PlansFrom job.now (plain header) line pins.now first (levels_of start) }
    ensures { planned result table.new entries.new ≡ plan_in (job_on job.now line) (lines header.units pins.now) (aim_is aim) (order_is order) first (levels_of start) table.old entries.old }
{
    if table.len() < table::words_over(header, line.buffers) {
        return Err(Refusal::Table);
    }
    if entries.len() < entry::SIZE * (entry::intervals(header) - first) {
        return Err(Refusal::List);
    }
    search(
        aim, order, job, header, line, pins, first, start, table, entries,
    )
}

// Planning for a job that the set matches: all of it, over its own line, from these levels.
fn plan_checked(
    job: &[u8],
    header: Header,
    set: PinSet,
    start: Levels,
    aim: Aim,
    order: Order,
    table: &mut [u32],
    entries: &mut [u8],
) -> Result<Totals, Refusal>
    requires { Ready job.now (plain header) (set_of set) × InLayer (job_in job.now).line (levels_of start) }
    ensures { planned result table.new entries.new ≡ plan_in (job_in job.now) (lines (length (job_in job.now).units) (set_of set).pins) (aim_is aim) (order_is order) 0 (levels_of start) table.old entries.old }
{
    let pins = set.pins;
    let line = table::line_in(job, header);
    let first = 0;
    plan_rest(
        aim, order, job, header, line, &pins, first, start, table, entries,
    )
}

// Plans with the pins of a set: the best plan by the aim, of equal ones the first in the order, goes to `entries`, the least distortion of every state to `table`.
pub fn plan(
    job: &[u8],
    set: PinSet,
    aim: Aim,
    order: Order,
    table: &mut [u32],
    entries: &mut [u8],
) -> Result<Totals, Refusal>
    ensures { planned result table.new entries.new ≡ plan_call job.now (set_of set) (aim_is aim) (order_is order) table.old entries.old }
{
    let header = pinset::check(job, set, Door::Opening)?.header;
    let start = Levels::start(header);
    plan_checked(job, header, set, start, aim, order, table, entries)
}

// Whether there is a level for each bucket that the header tells, and none above its bucket's size.
fn levels_fit(header: Header, levels: BucketLevels) -> bool
    ensures { result ≡ levels_fit (map (λ k. k.size) (plain header).buckets) (levels_of_buckets levels) }
{
    if levels.bucket > header.first.size {
        return false;
    }
    match (header.second, levels.bucket2) {
        (None, None) => true,
        (Some(bucket), Some(level)) => level <= bucket.size,
        _ => false,
    }
}

// Planning from given levels of the buckets, for a job that the set matches: 20, then as above.
fn plan_with(
    job: &[u8],
    header: Header,
    set: PinSet,
    levels: BucketLevels,
    aim: Aim,
    order: Order,
    table: &mut [u32],
    entries: &mut [u8],
) -> Result<Totals, Refusal>
    requires { Ready job.now (plain header) (set_of set) }
    ensures { planned result table.new entries.new ≡ plan_with (job_in job.now) (set_of set) (levels_of_buckets levels) (aim_is aim) (order_is order) table.old entries.old }
{
    if !levels_fit(header, levels) {
        return Err(Refusal::Levels);
    }
    let start = Levels {
        decoder: header.level,
        bucket: levels.bucket,
        bucket2: levels.bucket2,
    };
    plan_checked(job, header, set, start, aim, order, table, entries)
}

// Plans with the pins of a set from given levels of the buckets, as where another programme was sent before (document 02, E14): else as `plan` does.
pub fn plan_from(
    job: &[u8],
    held: PinSet,
    levels: BucketLevels,
    aim: Aim,
    order: Order,
    table: &mut [u32],
    entries: &mut [u8],
) -> Result<Totals, Refusal>
    ensures { planned result table.new entries.new ≡ levels_call job.now (set_of held) (levels_of_buckets levels) (aim_is aim) (order_is order) table.old entries.old }
{
    let header = pinset::check(job, held, Door::Opening)?.header;
    plan_with(job, header, held, levels, aim, order, table, entries)
}
