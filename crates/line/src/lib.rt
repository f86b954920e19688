// The line of receiver and carrier: how many words a layer of the table has over it, where levels stand in a layer, and what one move offers from them.
// It knows neither a job's bytes nor its pins.

#![tactic(auto)]

ghost use Rattle.std.specs.Prelude.{◌≡◌, [], ◌+◌, ◌≤◌, length};
ghost use Rattle.std.specs.Option.{option_to_list};
ghost use Rattle.model.specs.Table.{span, layer_words, tops, flat, place, layer_of, word_in};
ghost use Rattle.interval.specs.Answers.{levels_of, line_of};
ghost use Rattle.planning.specs.Rule.{coding_offer};
ghost use Rattle.planning.specs.Passes.{charged};
ghost use Rattle.line.specs.Answers.{line_is, candidate_is, second_sizes, LineFits, WordAsked, LayerLine, BucketOf, IntervalOf};

use interval::{Buffers, Interval, Levels, Policer};
use sender::Bucket;

// What receiver and carrier fix: the decoder's size, the buckets and the rates on offer, of which there are `count`.
#[derive(Clone, Copy)]
pub struct Line {
    pub buffers: Buffers,
    pub count: u16,
    pub rates: [u16; 16],
}

// A choice that a move may make: whether the pin leaves it open, and how it codes the unit.
#[derive(Clone, Copy)]
pub struct Candidate {
    pub free: bool,
    pub size: u16,
    pub distortion: u32,
}

// The word for "cannot be completed", and the largest that is read as a distortion.
pub const NONE: u32 = 4294967295;

const LARGEST: u32 = 512000000;

// How many levels the second bucket has; one where there is none.
fn second_levels(buffers: Buffers) -> usize
    ensures { (result ≡ span (second_sizes buffers)) × (result ≤ 65536) }
{
    match buffers.second {
        None => 1,
        Some(bucket) => bucket.size as usize + 1,
    }
}

// How many words a layer over such buffers has: one for each decoder level and levels of the buckets.
pub fn words_each(buffers: Buffers) -> usize
    ensures { result ≡ layer_words (line_of buffers []) }
{
    let row = (buffers.first.size as usize + 1) * second_levels(buffers);
    (buffers.decoder as usize + 1) * row
}

// The same over a line.
pub fn layer_words(line: Line) -> usize
    ensures { result ≡ layer_words (line_is line) }
{
    words_each(line.buffers)
}

// The place of the second bucket's level among its levels.
fn second_place(buffers: Buffers, at: Levels) -> usize
    ensures { (result ≡ place (second_sizes buffers) (option_to_list at.bucket2)) × (result ≤ 65535) }
{
    match (buffers.second, at.bucket2) {
        (Some(_), Some(level)) => level as usize,
        _ => 0,
    }
}

// The place of levels in a layer, the decoder's outermost and the second bucket's innermost.
pub fn word_place(line: Line, at: Levels) -> usize
    ensures { result ≡ place (tops (line_is line)) (flat (levels_of at)) }
{
    let each = second_levels(line.buffers);
    let row = (line.buffers.first.size as usize + 1) * each;
    at.decoder as usize * row + at.bucket as usize * each + second_place(line.buffers, at)
}

// The word of levels in the layer of a table after so many intervals.
pub fn word_at(table: &[u32], line: Line, place: usize, at: Levels) -> u32
    requires { WordAsked table.now line place (levels_of at) }
    ensures { result ≡ word_in (line_is line) (layer_of (line_is line) table.now place) (levels_of at) }
{
    let start = place * layer_words(line);
    let here = start + word_place(line, at);
    table[here]
}

// A distortion and a word of the next layer, or none where the word cannot be completed.
fn charged(word: u32, distortion: u32) -> u32
    requires { distortion ≤ 1000000 }
    ensures { result ≡ charged ◌+◌ distortion word }
{
    if word <= LARGEST {
        distortion + word
    } else {
        NONE
    }
}

// What an interval does that sends so much and decodes a coding of this size and distortion.
pub fn interval_of(sent: u16, size: u16, distortion: u32) -> Interval
    ensures { IntervalOf sent size distortion result }
{
    Interval {
        sent,
        size,
        distortion,
        pin: header::NO_CHOICE,
        choice: header::NO_CHOICE,
    }
}

// What a choice offers from these levels where so much is sent, if it is open.
pub fn offer(next: &[u32], line: Line, from: Levels, sent: u16, candidate: Candidate) -> u32
    requires { (length next.now ≡ layer_words (line_is line)) × (length (levels_of from).buckets ≡ length (line_is line).buckets) × (candidate.distortion ≤ 1000000) }
    ensures { result ≡ coding_offer ◌+◌ (line_is line) (word_in (line_is line) next.now) (levels_of from) sent (candidate_is candidate) }
{
    if !candidate.free {
        return NONE;
    }
    let buffers = line.buffers;
    let size = candidate.size;
    let distortion = candidate.distortion;
    let x = interval_of(sent, size, distortion);
    match interval::step(buffers, from, x) {
        Err(_) => NONE,
        Ok(to) => {
            let at = word_place(line, to);
            charged(next[at], distortion)
        }
    }
}

// The line as layers are filled: with two buckets it is the same; with one, a bucket stands in front that is always empty, since it drains every rate.
pub fn layer_line(line: Line) -> sender::Line
    requires { LineFits line }
    ensures { LayerLine line result }
{
    let rates = line.rates;
    let first = bucket_of(line.buffers.first);
    match line.buffers.second {
        None => sender::Line {
            decoder: line.buffers.decoder,
            outer: Bucket {
                size: 0,
                drain: 4095,
            },
            inner: first,
            count: line.count,
            rates,
        },
        Some(second) => sender::Line {
            decoder: line.buffers.decoder,
            outer: first,
            inner: bucket_of(second),
            count: line.count,
            rates,
        },
    }
}

// A bucket as layers are filled over it.
fn bucket_of(policer: Policer) -> Bucket
    ensures { BucketOf policer result }
{
    Bucket {
        size: policer.size,
        drain: policer.drain,
    }
}
