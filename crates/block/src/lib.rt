// A block of words of a layer, which both passes of a layer make before they write it: what the words are, and how a block is cleared and written.

#![tactic(auto)]

ghost use Rattle.std.specs.Prelude.{◌≡◌, ◌+◌, ◌-◌, ◌≤◌, length, get_or};
ghost use Rattle.block.specs.Blocks.{Made};

// The word for "cannot be completed", and the largest that is read as a distortion.
pub const NONE: u32 = 4294967295;

pub const LARGEST: u32 = 512000000;

// How many words of a layer are made at a time.
pub const BLOCK: usize = 256;

// Sets the first words of a block to one word.
pub fn clear_words(block: &mut [u32; 256], count: usize, word: u32)
    requires { (length block.old ≡ 256) × (count ≤ 256) }
    ensures { Made 0 count (λ i. word) block.old block.new }
{
    block[..count].fill(word);
}

// Writes the first words of a block.
pub fn put_words(part: &mut [u32], start: usize, block: &[u32; 256], count: usize)
    requires { (length block.now ≡ 256) × (count ≤ 256) × (start + count ≤ length part.old) }
    ensures { Made start (start + count) (λ i. get_or block.now (i - start) 0) part.old part.new }
{
    let end = start + count;
    part[start..end].copy_from_slice(&block[..count]);
}
