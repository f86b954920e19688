// What a larger bucket brings (document 02, E13): the least total of a job for each size that its first bucket may have, from its own to the largest.
// A larger bucket never raises the least total. So from the first size on that has the number of the largest, all have it, and none of them is searched.

#![tactic(auto)]

ghost use Rattle.std.specs.Prelude.{◌≡◌, ◌≤◌};
ghost use Rattle.format.specs.JobBytes.{job_in};
ghost use Rattle.header.specs.Answers.{plain};
ghost use Rattle.pinning.specs.PinSet.{lines};
ghost use Rattle.pinning.specs.Check.{Ready};
ghost use Rattle.pinset.specs.Answers.{set_of};
ghost use Rattle.interval.specs.Answers.{levels_of};
ghost use Rattle.line.specs.Answers.{LineFits};
ghost use Rattle.table.specs.Answers.{job_on};
ghost use Rattle.planner.specs.Answers.{Limits};
ghost use Rattle.enlarging.specs.Calls.{least_at, list_all, sizes_call};
ghost use Rattle.enlarge.specs.Answers.{listed, LineWith, Found, Between, Told, Lists, Smaller, AllListed};

use decoder::Measure;
use header::{Choice, Door, Header, Refusal};
use interval::{Buffers, Levels, Policer};
use line::Line;
use pinset::PinSet;

// The line with a first bucket of this size, all else equal.
fn line_with(line: Line, size: u16) -> Line
    requires { LineFits line × (size ≤ 255) }
    ensures { LineWith line size result }
{
    let own = line.buffers;
    Line {
        buffers: Buffers {
            first: Policer { size, ..own.first },
            ..own
        },
        ..line
    }
}

// Fills the table over a line and answers the least total from the starting levels, or the mark where there is no plan.
fn least_total(
    job: &[u8],
    header: Header,
    line: Line,
    pins: &[Choice; 512],
    start: Levels,
    table: &mut [u32],
) -> u32
    requires { Limits job.now (plain header) line pins.now 0 (levels_of start) table.old }
    ensures { Found (job_on job.now line) (lines header.units pins.now) (levels_of start) table.old result table.new }
{
    let first = 0;
    table::fill_table(job, header, line, pins, None, Measure::Sum, first, table);
    line::word_at(table, line, first, start)
}

// The least total over a line, where that of a smaller bucket is `before` and that of the largest `last`: what lies between two equal numbers needs no search.
fn total_between(
    before: u32,
    last: u32,
    job: &[u8],
    header: Header,
    line: Line,
    pins: &[Choice; 512],
    start: Levels,
    table: &mut [u32],
) -> u32
    requires { Limits job.now (plain header) line pins.now 0 (levels_of start) table.old × Between (job_on job.now line) (lines header.units pins.now) (levels_of start) before last }
    ensures { Told (job_on job.now line) (lines header.units pins.now) (levels_of start) table.old result table.new }
{
    if before == last {
        return last;
    }
    least_total(job, header, line, pins, start, table)
}

// Lists the totals of the sizes below the largest, whose total is `last`. No total exceeds the mark, which therefore stands before the first.
fn list_smaller(
    job: &[u8],
    header: Header,
    line: Line,
    pins: &[Choice; 512],
    start: Levels,
    last: u32,
    table: &mut [u32],
    totals: &mut [u32],
)
    requires { Lists job.now (plain header) line pins.now (levels_of start) table.old totals.old × (last ≡ least_at (job_in job.now) (lines header.units pins.now) 255) }
    ensures { Smaller (job_in job.now) (lines header.units pins.now) table.old totals.old table.new totals.new }
{
    let own = line.buffers.first.size;
    let count = Header::MAX_BUCKET - own;
    let mut before = line::NONE;
    for i in 0..count {
        let here = line_with(line, own + i);
        before = total_between(before, last, job, header, here, pins, start, table);
        let place = i as usize;
        totals[place] = before;
    }
}

// Lists the totals of all sizes. The table of the largest is filled first, for its total, and again in the end, over those of smaller ones.
fn list_totals(
    job: &[u8],
    header: Header,
    line: Line,
    pins: &[Choice; 512],
    start: Levels,
    table: &mut [u32],
    totals: &mut [u32],
)
    requires { Lists job.now (plain header) line pins.now (levels_of start) table.old totals.old }
    ensures { AllListed (job_in job.now) (lines header.units pins.now) table.old totals.old table.new totals.new }
{
    let widest = line_with(line, Header::MAX_BUCKET);
    let last = least_total(job, header, widest, pins, start, table);
    list_smaller(job, header, line, pins, start, last, table, totals);
    let place = (Header::MAX_BUCKET - line.buffers.first.size) as usize;
    totals[place] = least_total(job, header, widest, pins, start, table);
}

// The list for a job that the set matches: 11, judged at the largest size, then 12, then the totals.
fn list_checked(
    job: &[u8],
    header: Header,
    set: PinSet,
    table: &mut [u32],
    totals: &mut [u32],
) -> Result<(), Refusal>
    requires { Ready job.now (plain header) (set_of set) }
    ensures { listed result table.new totals.new ≡ list_all (job_in job.now) (set_of set) table.old totals.old }
{
    let pins = set.pins;
    let line = table::line_in(job, header);
    let start = Levels::start(header);
    let widest = line_with(line, Header::MAX_BUCKET).buffers;
    if table.len() < table::words_over(header, widest) {
        return Err(Refusal::Table);
    }
    let sizes = (Header::MAX_BUCKET - line.buffers.first.size) as usize + 1;
    if totals.len() < sizes {
        return Err(Refusal::List);
    }
    list_totals(job, header, line, &pins, start, table, totals);
    Ok(())
}

// Lists the least total for each size of the first bucket from the job's own to the largest, with the pins of a set; the mark stands where there is no plan. The table ends as that of the largest size.
pub fn least_totals(
    job: &[u8],
    set: PinSet,
    table: &mut [u32],
    totals: &mut [u32],
) -> Result<(), Refusal>
    ensures { listed result table.new totals.new ≡ sizes_call job.now (set_of set) table.old totals.old }
{
    let header = pinset::check(job, set, Door::Opening)?.header;
    list_checked(job, header, set, table, totals)
}
