// The first pass over a layer of the table: what decoding a size offers to the levels between arrival and decoding.
// It knows no bucket, only how many words a decoder level has, the least distortion of each size and how distortions combine.

#![tactic(auto)]

ghost use Rattle.std.specs.Prelude.{◌≡◌, ◌+◌, ◌-◌, ◌<◌, ◌≤◌, min, max, length, get_or, take, drop};
ghost use Rattle.model.specs.Table.{bound};
ghost use Rattle.planning.specs.Passes.{least_below, row_offer};
ghost use Rattle.planning.specs.Prices.{price_open, price_at};
ghost use Rattle.decoder.specs.Answers.{combine, coding_if, priced, no_prices};
ghost use Rattle.block.specs.Blocks.{Lessened, Lowered, LeastOf, Made};
ghost use Rattle.decoder.specs.Near.{far, near, closed, Upto, Numbers, NearWords, Neared, SizesWithin, Listed, Decodes};

use block::{BLOCK, LARGEST, NONE};

// What is to be least: the sum of the distortions, or the greatest of them.
#[derive(Clone, Copy, Debug, PartialEq, Eq)]
pub enum Measure {
    Sum,
    Greatest,
}

// What stands for "cannot be completed" in the first pass: more than two distortions come to, and so little that a distortion can be added to it.
const FAR: u32 = 1600000000;

// The prices of an interval with no choice.
pub fn no_prices() -> [u32; 256]
    ensures { result ≡ no_prices }
{
    [NONE; 256]
}

// One choice more, for the least distortions of the sizes.
pub fn with_choice(prices: &mut [u32; 256], free: bool, size: u16, distortion: u32)
    requires { length prices.old ≡ 256 }
    ensures { Lowered 256 (λ r. price_at r (coding_if free size distortion)) prices.old prices.new }
{
    if !free {
        return;
    }
    let at = size as usize;
    if BLOCK <= at {
        return;
    }
    prices[at] = distortion.min(prices[at]);
}

// The next layer is copied to the place of this one, with FAR for "cannot be completed", so that the inner loop adds and compares and looks at nothing else. A word is made from words before it: so the blocks are gone through downwards, each in the place of what it was made from.

// A word of the next layer as a number of this pass.
fn near_word(word: u32) -> u32
    ensures { result ≡ near word }
{
    if word <= LARGEST { word } else { FAR }
}

// The word that such a number stands for.
fn closed_word(number: u32) -> u32
    ensures { result ≡ closed number }
{
    if number < FAR { number } else { NONE }
}

// The next layer as numbers, in the place of this one.
fn near_words(part: &mut [u32], size: usize)
    requires { size + size ≤ length part.old }
    ensures { Made 0 size (λ i. near (get_or part.old (size + i) 0)) part.old part.new }
{
    // kept as an index loop: nothing is proved of what is written through a zip with iter_mut, and copying first goes over the words twice
    for i in 0..size {
        let from = size + i;
        part[i] = near_word(part[from]);
    }
}

// The first numbers of a block give way to their words.
fn close_words(block: &mut [u32; 256], count: usize)
    requires { (length block.old ≡ 256) × (count ≤ 256) }
    ensures { Made 0 count (λ i. closed (get_or block.old i 0)) block.old block.new }
{
    for number in block[..count].iter_mut() {
        *number = closed_word(*number);
    }
}

// A distortion and what follows it.
fn combined(distortion: u32, number: u32, measure: Measure) -> u32
    requires { (distortion ≤ bound) × (number ≤ far) }
    ensures { (result ≡ combine measure distortion number) × (result ≤ 2147483647) }
{
    match measure {
        Measure::Sum => distortion + number,
        Measure::Greatest => distortion.max(number),
    }
}

// Lessens the numbers from a place on to what a distortion and other numbers come to.
fn lessen_combined(
    block: &mut [u32; 256],
    from: usize,
    words: &[u32],
    distortion: u32,
    measure: Measure,
)
    requires { (length block.old ≡ 256) × (length words.now ≤ 256 - from) × (distortion ≤ bound) × Upto (length words.now) far words.now }
    ensures { Lessened from (length words.now) (λ i. combine measure distortion (get_or words.now i 0)) block.old block.new }
{
    // kept as an index loop: nothing is proved of what is written through a zip with iter_mut
    let count = words.len();
    for i in 0..count {
        let at = from + i;
        block[at] = combined(distortion, words[i], measure).min(block[at]);
    }
}

// One size more, for the words that stand in the layer from `start` on.
fn with_size(
    block: &mut [u32; 256],
    count: usize,
    words: &[u32],
    width: usize,
    start: usize,
    size: usize,
    distortion: u32,
    measure: Measure,
)
    requires { Numbers count block.old × NearWords words.now × (start + count ≤ length words.now) × (width ≤ 65536) × (size < 256) × (distortion ≤ bound) }
    ensures { Neared count (λ i. row_offer (combine measure) width words.now (start + i) (price_open size distortion)) block.old block.new }
{
    let back = size * width;
    let skip = back.saturating_sub(start);
    let from = start.saturating_sub(back);
    let end = from + count.saturating_sub(skip);
    lessen_combined(block, skip, &words[from..end], distortion, measure);
}

// The words that stand in the layer from `start` on.
fn decoded_block(
    block: &mut [u32; 256],
    words: &[u32],
    width: usize,
    sizes: &[u8],
    prices: &[u32; 256],
    measure: Measure,
    start: usize,
    count: usize,
)
    requires { (length block.old ≡ 256) × Decodes prices.now sizes.now width words.now × (count ≤ 256) × (start + count ≤ length words.now) }
    ensures { LeastOf count (length sizes.now) (λ i j. row_offer (combine measure) width words.now (start + i) (priced prices.now (get_or sizes.now j 0))) block.new }
{
    block::clear_words(block, count, FAR);
    for offer in sizes {
        let size = *offer as usize;
        let distortion = prices[size];
        with_size(block, count, words, width, start, size, distortion, measure);
    }
    close_words(block, count);
}

// All blocks, from the last to the first: the layer's place has the next layer's words as numbers.
fn decode_blocks(
    part: &mut [u32],
    size: usize,
    width: usize,
    sizes: &[u8],
    prices: &[u32; 256],
    measure: Measure,
)
    requires { (size ≤ length part.old) × Decodes prices.now sizes.now width (take size part.old) }
    ensures { Made 0 size (λ i. least_below (length sizes.now) (λ j. row_offer (combine measure) width (take size part.old) i (priced prices.now (get_or sizes.now j 0)))) part.old part.new }
{
    let mut block = [FAR; 256];
    let mut left = size;
    // the first block alone may be shorter, so no range counts them
    while 0 < left {
        let count = BLOCK.min(left);
        let start = left - count;
        decoded_block(
            &mut block,
            &part[..left],
            width,
            sizes,
            prices,
            measure,
            start,
            count,
        );
        block::put_words(part, start, &block, count);
        left = start;
    }
}

// How many sizes the decoder holds at some of the places before `end`, which are as many as it has levels there: any other takes more rows than stand before the last place.
fn sizes_within(end: usize, width: usize) -> usize
    requires { 0 < width }
    ensures { SizesWithin end width result }
{
    let rows = end.saturating_sub(1) / width;
    BLOCK.min(rows + 1)
}

// One size more in a list of those that have a price: how many these are then.
fn list_size(sizes: &mut [u8; 256], count: usize, prices: &[u32; 256], size: usize) -> usize
    requires { (length prices.now ≡ 256) × (size < 256) × Listed prices.now size count sizes.old }
    ensures { Listed prices.now (size + 1) result sizes.new }
{
    if LARGEST < prices[size] {
        return count;
    }
    sizes[count] = size as u8;
    count + 1
}

// The list of the sizes below a limit.
fn list_sizes(sizes: &mut [u8; 256], prices: &[u32; 256], limit: usize) -> usize
    requires { (length sizes.old ≡ 256) × (length prices.now ≡ 256) × (limit ≤ 256) }
    ensures { Listed prices.now limit result sizes.new }
{
    let mut count = 0;
    for size in 0..limit {
        count = list_size(sizes, count, prices, size);
    }
    count
}

// The whole pass: from the next layer to the place of this one.
pub fn decode_layer(
    part: &mut [u32],
    size: usize,
    width: usize,
    prices: &[u32; 256],
    measure: Measure,
)
    requires { (length prices.now ≡ 256) × (0 < width) × (width ≤ 65536) × (size + size ≤ length part.old) }
    ensures { Made 0 size (λ i. least_below 256 (λ x. row_offer (combine measure) width (take size (drop size part.old)) i (priced prices.now x))) part.old part.new }
{
    let mut sizes = [0u8; 256];
    let limit = sizes_within(size, width);
    let count = list_sizes(&mut sizes, prices, limit);
    near_words(part, size);
    decode_blocks(part, size, width, &sizes[..count], prices, measure);
}
