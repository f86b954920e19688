// The best plan, read off the table of least distortions from the start: at each interval the first entry in the order that attains the word (document 01, "The best plan").

#![tactic(auto)]

ghost use Rattle.std.specs.Prelude.{◌≡◌, suc, ◌+◌, ◌<◌, length};
ghost use Rattle.std.proofs.Math.Option.{some};
ghost use Rattle.trellis.specs.Pairs.{pair};
ghost use Rattle.trellis.specs.Table.{first_at};
ghost use Rattle.model.specs.Step.{reaches};
ghost use Rattle.model.specs.Best.{turn, pairs};
ghost use Rattle.model.specs.Table.{layer_of, word_in};
ghost use Rattle.format.specs.Choices.{no_choice, choice_of};
ghost use Rattle.header.specs.Answers.{plain};
ghost use Rattle.pinning.specs.PinSet.{lines};
ghost use Rattle.interval.specs.Answers.{levels_of};
ghost use Rattle.planning.specs.Rule.{pair_offer};
ghost use Rattle.line.specs.Answers.{line_is, step_of};
ghost use Rattle.table.specs.Answers.{job_on, open_of, allowed_is};
ghost use Rattle.best.specs.Answers.{order_is, Offers, Attained, Layered, Reached, chosen, Moves, BestMove, ReadsOff, PlanRead};

use header::{Choice, Header};
use interval::{Buffers, Interval, Levels, Totals};
use line::Line;
use table::{Choices, Limit};

// Which of the entries that attain a word is taken: that of the smaller rate index, or of the larger; of one rate, that of the smaller choice.
#[derive(Clone, Copy)]
pub enum Order {
    Late,
    Early,
}

// A rate index and a choice index.
#[derive(Clone, Copy)]
struct Pick {
    rate: usize,
    choice: Choice,
}

// An entry of the best plan: its bytes, what the interval does and the levels that it leads to.
#[derive(Clone, Copy)]
struct Move {
    rate: u8,
    choice: Choice,
    interval: Interval,
    to: Levels,
}

// Of so many rate indices, the one in a place of the order.
fn rate_in(order: Order, rates: usize, at: usize) -> usize
    requires { at < rates }
    ensures { result ≡ turn (order_is order) rates at }
{
    match order {
        Order::Late => at,
        Order::Early => rates - 1 - at,
    }
}

// The first entry in the order that attains a word.
fn first_entry(
    order: Order,
    next: &[u32],
    line: Line,
    job: &[u8],
    header: Header,
    choices: Choices,
    from: Levels,
    word: u32,
) -> Pick
    requires { Offers next.now line job.now (plain header) choices (levels_of from) × Attained (order_is order) (line_is line) choices.count (allowed_is job.now (plain header) choices) next.now (levels_of from) word }
    ensures { first_at (pair_offer ◌+◌ (line_is line) (allowed_is job.now (plain header) choices) (word_in (line_is line) next.now) (levels_of from)) word (pairs (order_is order) (length (line_is line).rates) choices.count) ≡ some (pair result.rate result.choice) }
{
    let rates = line.count as usize;
    let count = choices.count;
    let mut found = Pick { rate: 0, choice: 0 };
    'search: for at in 0..rates {
        let rate = rate_in(order, rates, at);
        let sent = line.rates[rate];
        for choice in 0..count {
            let candidate = table::candidate_at(job, header, choices, choice);
            if line::offer(next, line, from, sent, candidate) == word {
                found = Pick { rate, choice };
                break 'search;
            }
        }
    }
    found
}

// The first entry that attains the word of these levels after so many intervals.
fn best_entry(
    order: Order,
    table: &[u32],
    line: Line,
    job: &[u8],
    header: Header,
    choices: Choices,
    place: usize,
    at: Levels,
) -> Pick
    requires { Layered (order_is order) table.now line job.now (plain header) choices place (levels_of at) }
    ensures { first_at (pair_offer ◌+◌ (line_is line) (allowed_is job.now (plain header) choices) (word_in (line_is line) (layer_of (line_is line) table.now (suc place))) (levels_of at)) (word_in (line_is line) (layer_of (line_is line) table.now place) (levels_of at)) (pairs (order_is order) (length (line_is line).rates) choices.count) ≡ some (pair result.rate result.choice) }
{
    let size = line::layer_words(line);
    let here = place * size + line::word_place(line, at);
    let next = (place + 1) * size;
    let end = next + size;
    first_entry(
        order,
        &table[next..end],
        line,
        job,
        header,
        choices,
        at,
        table[here],
    )
}

// The levels that an interval leads to.
fn levels_after(buffers: Buffers, at: Levels, x: Interval) -> Levels
    requires { Reached buffers at x }
    ensures { step_of buffers at x ≡ reaches (levels_of result) }
{
    interval::step(buffers, at, x).unwrap()
}

// The choice that an entry in this place names.
fn choice_number(header: Header, place: usize, choice: Choice) -> Choice
    requires { choice < no_choice }
    ensures { choice_of result ≡ chosen (plain header) place choice }
{
    if place < header.delay as usize {
        return header::NO_CHOICE;
    }
    choice
}

// The entry of the best plan in this place, what it does and where it leads.
fn best_move(
    order: Order,
    job: &[u8],
    header: Header,
    line: Line,
    pins: &[Choice; 512],
    limit: Limit,
    table: &[u32],
    place: usize,
    at: Levels,
) -> Move
    requires { Moves job.now (plain header) line pins.now limit table.now place (levels_of at) }
    ensures { BestMove (job_on job.now line) (open_of (lines header.units pins.now) limit) (order_is order) place (levels_of at) result }
{
    let choices = table::choices_in(header, pins, limit, place);
    let pick = best_entry(order, table, line, job, header, choices, place, at);
    let rate = pick.rate;
    let choice = pick.choice;
    let sent = line.rates[rate];
    let taken = table::candidate_at(job, header, choices, choice);
    let index = rate as u8;
    let interval = line::interval_of(sent, taken.size, taken.distortion);
    let buffers = line.buffers;
    Move {
        rate: index,
        choice: choice_number(header, place, choice),
        interval,
        to: levels_after(buffers, at, interval),
    }
}

// Reads the best plan of the intervals after `first` off the table, from the levels there, and answers its totals. Its entries are the first of the list.
pub fn read_off(
    order: Order,
    job: &[u8],
    header: Header,
    line: Line,
    pins: &[Choice; 512],
    limit: Limit,
    table: &[u32],
    first: usize,
    start: Levels,
    entries: &mut [u8],
) -> Totals
    requires { ReadsOff job.now (plain header) line pins.now limit table.now first (levels_of start) entries.old }
    ensures { PlanRead (job_on job.now line) (open_of (lines header.units pins.now) limit) (order_is order) first (levels_of start) entries.old result entries.new }
{
    let total = entry::intervals(header);
    let mut at = start;
    let mut sum = Totals::none(line.buffers);
    for place in first..total {
        let index = place - first;
        let taken = best_move(order, job, header, line, pins, limit, table, place, at);
        entry::put_entry(entries, index, taken.rate, taken.choice);
        sum = interval::with_interval(sum, line.buffers, at, taken.interval);
        at = taken.to;
    }
    sum
}
