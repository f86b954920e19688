// The table of least distortions, filled from a job's bytes and the pins of a set: from the last layer to the first, each from the next (document 01, "The best plan").
// The line of a job and the choices of an interval are read here, the line in one place; the table may be filled over any line.

#![tactic(auto)]

ghost use Rattle.std.specs.Prelude.{◌≡◌, [], ◌++◌, ◌+◌, ◌-◌, ◌<◌, ◌≤◌, length, take, drop, replicate};
ghost use Rattle.model.specs.Table.{layer_words, words};
ghost use Rattle.format.specs.JobBytes.{Opens};
ghost use Rattle.header.specs.Answers.{plain};
ghost use Rattle.pinning.specs.PinSet.{lines};
ghost use Rattle.interval.specs.Answers.{line_of};
ghost use Rattle.trellis.specs.Limit.{keeps_to};
ghost use Rattle.model.specs.Best.{Open};
ghost use Rattle.planning.specs.Rule.{layer_from, refilled};
ghost use Rattle.decoder.specs.Answers.{combine};
ghost use Rattle.planning.specs.Words.{table_from};
ghost use Rattle.planning.specs.Prices.{price_at};
ghost use Rattle.block.specs.Blocks.{LeastOf};
ghost use Rattle.line.specs.Answers.{line_is, LineFits};
ghost use Rattle.table.specs.Answers.{job_on, limit_of, open_of, allowed_is, words_over, table_words, ChoicesFit, LineOf, CandidateOf, ChoicesIn, Starts, Fills};

use decoder::Measure;
use header::{Choice, Header};
use interval::Buffers;
use line::{Candidate, Line};

// What the distortion of a choice may be: anything, or at most so much (even pictures: document 02, E7).
pub type Limit = Option<u32>;

// The choices of one interval: of which unit, how many, the unit's pin, and the limit on their distortion. How each codes the unit stands in the job: a thousand codings are too many to hand on. Up to the delay there is one choice, which decodes no unit: unit 0.
#[derive(Clone, Copy)]
pub struct Choices {
    pub unit: u16,
    pub count: Choice,
    pub pin: Choice,
    pub limit: Limit,
}

// Whether a distortion is within the limit.
fn keeps_to(limit: Limit, distortion: u32) -> bool
    ensures { result ≡ keeps_to (limit_of limit) distortion }
{
    match limit {
        None => true,
        Some(most) => distortion <= most,
    }
}

// The line of a job.
pub fn line_in(job: &[u8], header: Header) -> Line
    requires { Opens job.now (plain header) }
    ensures { LineOf job.now result }
{
    let count = header.rates as usize;
    let mut rates = [0u16; 16];
    for rate in 0..count {
        rates[rate] = header::rate_at(job, header, rate as u16);
    }
    Line {
        buffers: Buffers::of(header),
        count: header.rates,
        rates,
    }
}

// The choices of the interval in a place.
pub fn choices_in(header: Header, pins: &[Choice; 512], limit: Limit, place: usize) -> Choices
    requires { (length pins.now ≡ 512) × (header.units ≤ 512) × (place < header.units + header.delay) }
    ensures { ChoicesIn (plain header) pins.now limit place result }
{
    let delay = header.delay as usize;
    if place < delay {
        return Choices {
            unit: 0,
            count: 1,
            pin: header::NO_CHOICE,
            limit,
        };
    }
    let at = place - delay;
    let unit = (at + 1) as u16;
    let pin = pins[at];
    Choices {
        unit,
        count: header.choices,
        pin,
        limit,
    }
}

// One of the choices, as the job codes it.
pub fn candidate_at(job: &[u8], header: Header, choices: Choices, choice: Choice) -> Candidate
    requires { ChoicesFit job.now (plain header) choices × (choice < choices.count) }
    ensures { CandidateOf job.now (plain header) choices choice result }
{
    if choices.unit == 0 {
        return Candidate {
            free: true,
            size: 0,
            distortion: 0,
        };
    }
    let coding = header::coding_at(job, header, choices.unit, choice);
    let held = parts::pin_holds(choices.pin, choice);
    let limit = choices.limit;
    Candidate {
        free: held & keeps_to(limit, coding.distortion),
        size: coding.size,
        distortion: coding.distortion,
    }
}

// The least distortion of each size among the choices that are open: however many they are, filling a layer goes through no more prices than the decoder has levels.
fn prices_of(job: &[u8], header: Header, choices: Choices) -> [u32; 256]
    requires { ChoicesFit job.now (plain header) choices }
    ensures { LeastOf 256 choices.count (λ r x. price_at r (allowed_is job.now (plain header) choices x)) result }
{
    let total = choices.count;
    let mut prices = decoder::no_prices();
    for choice in 0..total {
        let x = candidate_at(job, header, choices, choice);
        decoder::with_choice(&mut prices, x.free, x.size, x.distortion);
    }
    prices
}

// Fills one interval's layer, which is the part's first, from the next, which follows it. Levels that are never reached from the start are filled too.
fn fill_layer(
    part: &mut [u32],
    line: Line,
    job: &[u8],
    header: Header,
    choices: Choices,
    measure: Measure,
)
    requires { LineFits line × ChoicesFit job.now (plain header) choices × (layer_words (line_is line) + layer_words (line_is line) ≤ length part.old) }
    ensures { part.new ≡ layer_from (combine measure) (line_is line) choices.count (allowed_is job.now (plain header) choices) (take (layer_words (line_is line)) (drop (layer_words (line_is line)) part.old)) ++ drop (layer_words (line_is line)) part.old }
{
    let prices = prices_of(job, header, choices);
    layer::fill_layer(part, line::layer_line(line), &prices, measure);
}

// The last layer: nothing is left to add.
fn fill_last(part: &mut [u32], size: usize)
    requires { size ≤ length part.old }
    ensures { part.new ≡ replicate size 0 ++ drop size part.old }
{
    for place in 0..size {
        part[place] = 0;
    }
}

// Fills the layers from `first` on, up to the one before `last`, each from the one behind it: the last of them from what stands in layer `last`, whatever that is. One interval's layer is a part of the table that starts at the layer's first word.
pub fn fill_layers(
    job: &[u8],
    header: Header,
    line: Line,
    pins: &[Choice; 512],
    limit: Limit,
    measure: Measure,
    first: usize,
    last: usize,
    table: &mut [u32],
)
    requires { Fills job.now (plain header) line pins.now first last table.old }
    ensures { table.new ≡ refilled (combine measure) (job_on job.now line) (open_of (lines header.units pins.now) limit) first (last - first) table.old }
{
    let size = line::layer_words(line);
    let mut place = last;
    let mut start = last * size;
    while first < place {
        place -= 1;
        start -= size;
        let choices = choices_in(header, pins, limit, place);
        fill_layer(&mut table[start..], line, job, header, choices, measure);
    }
}

// Fills the table from layer `first` on, the last layer first: what of the distortions is least, of the choices that hold the pins and keep to the limit.
pub fn fill_table(
    job: &[u8],
    header: Header,
    line: Line,
    pins: &[Choice; 512],
    limit: Limit,
    measure: Measure,
    first: usize,
    table: &mut [u32],
)
    requires { Starts job.now (plain header) line pins.now × (first ≤ header.units + header.delay) × (words (job_on job.now line) ≤ length table.old) }
    ensures { table.new ≡ table_from (combine measure) (job_on job.now line) (open_of (lines header.units pins.now) limit) first table.old }
{
    let size = line::layer_words(line);
    let last = entry::intervals(header);
    let start = last * size;
    fill_last(&mut table[start..], size);
    fill_layers(job, header, line, pins, limit, measure, first, last, table);
}

// How many words the table of a job with this header has over such buffers.
pub fn words_over(header: Header, buffers: Buffers) -> usize
    requires { (header.units + header.delay ≤ 576) × (layer_words (line_of buffers []) ≤ 4194304) }
    ensures { result ≡ words_over (plain header) buffers }
{
    (entry::intervals(header) + 1) * line::words_each(buffers)
}

// How many words the table of a job with this header has; 0 where no job has such a header.
pub fn table_words(header: Header) -> usize
    ensures { result ≡ table_words (plain header) }
{
    match header.verdict() {
        Err(_) => 0,
        Ok(()) => words_over(header, Buffers::of(header)),
    }
}
