// The second pass over a layer of the table, in place: what the rates of a line with two buckets offer to the levels before.
// It knows neither sizes nor distortions.

#![tactic(auto)]

ghost use Rattle.std.specs.Prelude.{◌≡◌, ◌+◌, ◌-◌, ◌*◌, ◌<◌, ◌≤◌, min, length, get_or, take, drop};
ghost use Rattle.model.specs.Table.{sizes, span, layer_words, state_at, word_in};
ghost use Rattle.planning.specs.Passes.{least_below, arrived, word_if};
ghost use Rattle.sender.specs.Answers.{line_is, LineFits};
ghost use Rattle.block.specs.Blocks.{Lessened, Lowered, LeastOf, Made};
ghost use Rattle.sender.specs.Rates.{BlocksMade, level_read, rate_read, column_read};
ghost use Rattle.sender.specs.Swaps.{swapped, LevelsSwapped};

use block::NONE;

// A leaky bucket: its size, and what it drains in an interval.
#[derive(Clone, Copy, Debug, PartialEq, Eq)]
pub struct Bucket {
    pub size: u16,
    pub drain: u16,
}

// What receiver and carrier fix. A line with one bucket has it as the inner one; its outer one is of size 0 and drains every rate, so that it is always empty.
#[derive(Clone, Copy, Debug, PartialEq, Eq)]
pub struct Line {
    pub decoder: u16,
    pub outer: Bucket,
    pub inner: Bucket,
    pub count: u16,
    pub rates: [u16; 16],
}

// How many words a decoder level has in a layer: one for each pair of bucket levels.
pub fn row_words(line: Line) -> usize
    ensures { result ≡ span (sizes (line_is line)) }
{
    (line.outer.size as usize + 1) * (line.inner.size as usize + 1)
}

// How many words a layer has.
pub fn layer_words(line: Line) -> usize
    ensures { result ≡ layer_words (line_is line) }
{
    (line.decoder as usize + 1) * row_words(line)
}

// A block is the words of one decoder level and one level of the outer bucket. It is made from blocks of its decoder level at its outer level or below, and from blocks of higher decoder levels: so the decoder levels are gone through upwards, and the outer levels downwards.

// Lessens the words from a place on to other words.
fn lessen(block: &mut [u32; 256], from: usize, words: &[u32])
    requires { (length block.old ≡ 256) × (length words.now ≤ 256 - from) }
    ensures { Lessened from (length words.now) (λ i. get_or words.now i 0) block.old block.new }
{
    // kept as an index loop: nothing is proved of what is written through a zip with iter_mut
    let count = words.len();
    for i in 0..count {
        let at = from + i;
        block[at] = words[i].min(block[at]);
    }
}

// Lessens the first words to one word.
fn lessen_first(block: &mut [u32; 256], count: usize, word: u32)
    requires { (length block.old ≡ 256) × (count ≤ 256) }
    ensures { Lessened 0 count (λ i. word) block.old block.new }
{
    for lessened in block[..count].iter_mut() {
        *lessened = word.min(*lessened);
    }
}

// One rate more, with the words that the inner bucket's levels lead into. Where the bucket drains more than is sent, its lowest levels all lead to 0; the others move by the difference.
fn with_levels(block: &mut [u32; 256], words: &[u32], drain: usize, sent: usize)
    requires { (length block.old ≡ 256) × (0 < length words.now) × (length words.now ≤ 256) }
    ensures { Lowered (length words.now) (λ i. level_read drain words.now i sent) block.old block.new }
{
    let width = words.len();
    let low = drain.saturating_sub(sent);
    let high = sent.saturating_sub(drain);
    let lowest = words[0];
    lessen_first(block, low.min(width), lowest);
    let from = high.min(width);
    let end = from + width.saturating_sub(low + high);
    lessen(block, low, &words[from..end]);
}

// One rate more, for a level of the outer bucket in the first of the rows.
fn with_rate(
    block: &mut [u32; 256],
    rest: &[u32],
    outer: Bucket,
    inner: Bucket,
    rows: usize,
    level: usize,
    rate: u16,
)
    requires { (length block.old ≡ 256) × (inner.size ≤ 255) × (level ≤ 255) × (rows * ((outer.size + 1) * (inner.size + 1)) ≤ length rest.now) }
    ensures { Lowered (inner.size + 1) (λ i. rate_read outer inner rows rest.now level i rate) block.old block.new }
{
    let sent = rate as usize;
    if rows <= sent {
        return;
    }
    let levels = outer.size as usize + 1;
    let to = (level + sent).saturating_sub(outer.drain as usize);
    if levels <= to {
        return;
    }
    let width = inner.size as usize + 1;
    let start = (sent * levels + to) * width;
    let end = start + width;
    with_levels(block, &rest[start..end], inner.drain as usize, sent);
}

// The words of a level of the outer bucket in the first of the rows.
fn sent_block(block: &mut [u32; 256], rest: &[u32], line: Line, rows: usize, level: usize)
    requires { (length block.old ≡ 256) × LineFits line × (level ≤ 255) × (rows * ((line.outer.size + 1) * (line.inner.size + 1)) ≤ length rest.now) }
    ensures { LeastOf (line.inner.size + 1) line.count (λ i y. rate_read line.outer line.inner rows rest.now level i (get_or line.rates y 0)) block.new }
{
    let count = line.count as usize;
    let width = line.inner.size as usize + 1;
    block::clear_words(block, width, NONE);
    for rate in &line.rates[..count] {
        with_rate(block, rest, line.outer, line.inner, rows, level, *rate);
    }
}

// The first of the rows.
fn send_row(part: &mut [u32], block: &mut [u32; 256], line: Line, start: usize, rows: usize)
    requires { (length block.old ≡ 256) × LineFits line × (0 < rows) × (start + rows * ((line.outer.size + 1) * (line.inner.size + 1)) ≤ length part.old) }
    ensures { (length block.new ≡ 256) × BlocksMade start 0 (line.outer.size + 1) (line.inner.size + 1) (λ k j. least_below line.count (λ y. rate_read line.outer line.inner rows (drop start part.old) k j (get_or line.rates y 0))) part.old part.new }
{
    let width = line.inner.size as usize + 1;
    let levels = line.outer.size as usize + 1;
    for level in (0..levels).rev() {
        sent_block(block, &part[start..], line, rows, level);
        let at = start + level * width;
        block::put_words(part, at, block, width);
    }
}

// All rows, from the lowest decoder level on.
fn send_rows(part: &mut [u32], line: Line)
    requires { LineFits line × (layer_words (line_is line) ≤ length part.old) }
    ensures { Made 0 (layer_words (line_is line)) (λ i. least_below (length (line_is line).rates) (λ y. word_if (word_in (line_is line) (take (layer_words (line_is line)) part.old)) (arrived (line_is line) (state_at (line_is line) i) (get_or (line_is line).rates y 0)))) part.old part.new }
{
    let width = row_words(line);
    let height = line.decoder as usize + 1;
    let mut block = [NONE; 256];
    for level in 0..height {
        let start = level * width;
        send_row(part, &mut block, line, start, height - level);
    }
}

// Where both buckets are of size 0, a row is one word and the layer one block: what is sent must all drain, and the decoder's levels move by it.

// One rate more, for all decoder levels.
fn with_sent(block: &mut [u32; 256], words: &[u32], drain: usize, sent: usize)
    requires { (length block.old ≡ 256) × (0 < length words.now) × (length words.now ≤ 256) }
    ensures { Lowered (length words.now) (λ i. column_read drain words.now i sent) block.old block.new }
{
    if drain < sent {
        return;
    }
    with_levels(block, words, 0, sent);
}

// The words of all decoder levels.
fn sent_column(block: &mut [u32; 256], words: &[u32], line: Line)
    requires { (length block.old ≡ 256) × LineFits line × (0 < length words.now) × (length words.now ≤ 256) }
    ensures { LeastOf (length words.now) line.count (λ i y. column_read (min line.outer.drain line.inner.drain) words.now i (get_or line.rates y 0)) block.new }
{
    let count = line.count as usize;
    let drain = line.outer.drain.min(line.inner.drain) as usize;
    block::clear_words(block, words.len(), NONE);
    for rate in &line.rates[..count] {
        let sent = *rate as usize;
        with_sent(block, words, drain, sent);
    }
}

// The whole pass for such a line.
fn send_column(part: &mut [u32], line: Line)
    requires { LineFits line × (span (sizes (line_is line)) ≡ 1) × (layer_words (line_is line) ≤ length part.old) }
    ensures { Made 0 (layer_words (line_is line)) (λ i. least_below (length (line_is line).rates) (λ y. word_if (word_in (line_is line) (take (layer_words (line_is line)) part.old)) (arrived (line_is line) (state_at (line_is line) i) (get_or (line_is line).rates y 0)))) part.old part.new }
{
    let height = line.decoder as usize + 1;
    let mut block = [NONE; 256];
    sent_column(&mut block, &part[..height], line);
    let start = 0;
    block::put_words(part, start, &block, height);
}

// What is done once a block and a rate weighs less, the longer the blocks are. Both buckets follow one rule: so where the outer one has many more levels, the two change places for the pass, and the words of each decoder level with them.

// How many words a decoder level has at most where they change places.
const SWAPPED: usize = 4096;

// The line with its buckets in each other's place.
fn swapped_line(line: Line) -> Line
    ensures { result ≡ swapped line }
{
    let outer = line.inner;
    let inner = line.outer;
    let rates = line.rates;
    Line {
        decoder: line.decoder,
        outer,
        inner,
        count: line.count,
        rates,
    }
}

// Whether that pays: swapping takes as long for few rates as for many, and each rate saves something with each block; in a layer of a few words, clearing the array that they are kept in takes longer than all else. Measured: what the words are does not depend on it.
fn swapping_pays(line: Line) -> bool {
    let outer = line.outer.size as usize + 1;
    let inner = line.inner.size as usize + 1;
    4 * inner <= outer && 64 <= layer_words(line) && 4 <= line.count
}

// Copies words to the first places.
fn keep_words(kept: &mut [u32; 4096], words: &[u32])
    requires { (length kept.old ≡ 4096) × (length words.now ≤ 4096) }
    ensures { Made 0 (length words.now) (λ i. get_or words.now i 0) kept.old kept.new }
{
    kept[..words.len()].copy_from_slice(words);
}

// Writes every `step`-th of the words that are kept, from `first` on.
fn put_column(
    part: &mut [u32],
    start: usize,
    kept: &[u32; 4096],
    first: usize,
    step: usize,
    count: usize,
)
    requires { (length kept.now ≡ 4096) × (first < step) × (count * step ≤ 4096) × (start + count ≤ length part.old) }
    ensures { Made start (start + count) (λ i. get_or kept.now (first + (i - start) * step) 0) part.old part.new }
{
    // kept as an index loop: nothing is proved of what is written through a zip with iter_mut
    for i in 0..count {
        let at = start + i;
        let from = first + i * step;
        part[at] = kept[from];
    }
}

// Swaps the words of one decoder level: `levels` blocks of `width` words become `width` blocks of `levels` words.
fn swap_row(part: &mut [u32], kept: &mut [u32; 4096], start: usize, levels: usize, width: usize)
    requires { (length kept.old ≡ 4096) × (levels * width ≤ 4096) × (start + levels * width ≤ length part.old) }
    ensures { (length kept.new ≡ 4096) × BlocksMade start 0 width levels (λ j k. get_or part.old (start + (k * width + j)) 0) part.old part.new }
{
    let end = start + levels * width;
    keep_words(kept, &part[start..end]);
    for level in (0..width).rev() {
        let at = start + level * levels;
        put_column(part, at, kept, level, width, levels);
    }
}

// Swaps the words of all decoder levels.
fn swap_rows(part: &mut [u32], kept: &mut [u32; 4096], line: Line)
    requires { (length kept.old ≡ 4096) × LineFits line × (span (sizes (line_is line)) ≤ 4096) × (layer_words (line_is line) ≤ length part.old) }
    ensures { (length kept.new ≡ 4096) × LevelsSwapped (line.decoder + 1) (line.outer.size + 1) (line.inner.size + 1) part.old part.new }
{
    let levels = line.outer.size as usize + 1;
    let width = line.inner.size as usize + 1;
    let height = line.decoder as usize + 1;
    let size = levels * width;
    for level in 0..height {
        let start = level * size;
        swap_row(part, kept, start, levels, width);
    }
}

// The whole pass, with the buckets in each other's place.
fn send_swapped(part: &mut [u32], line: Line)
    requires { LineFits line × (span (sizes (line_is line)) ≤ 4096) × (layer_words (line_is line) ≤ length part.old) }
    ensures { Made 0 (layer_words (line_is line)) (λ i. least_below (length (line_is line).rates) (λ y. word_if (word_in (line_is line) (take (layer_words (line_is line)) part.old)) (arrived (line_is line) (state_at (line_is line) i) (get_or (line_is line).rates y 0)))) part.old part.new }
{
    let mut kept = [NONE; 4096];
    let other = swapped_line(line);
    swap_rows(part, &mut kept, line);
    send_rows(part, other);
    swap_rows(part, &mut kept, other);
}

// The whole pass, in the layer's place.
pub fn send_layer(part: &mut [u32], line: Line)
    requires { LineFits line × (layer_words (line_is line) ≤ length part.old) }
    ensures { Made 0 (layer_words (line_is line)) (λ i. least_below (length (line_is line).rates) (λ y. word_if (word_in (line_is line) (take (layer_words (line_is line)) part.old)) (arrived (line_is line) (state_at (line_is line) i) (get_or (line_is line).rates y 0)))) part.old part.new }
{
    let width = row_words(line);
    if width == 1 {
        send_column(part, line);
    } else if width <= SWAPPED && swapping_pays(line) {
        send_swapped(part, line);
    } else {
        send_rows(part, line);
    }
}
