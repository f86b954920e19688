// The entries of a playlist as structs, and as the numbers by which everything else goes (document 02, E14): a slice of structs is read here alone.

#![tactic(auto)]

ghost use Rattle.std.specs.Prelude.{◌≡◌, ◌++◌, ◌*◌, length, take, drop};
ghost use Rattle.programme.specs.Programmes.{numbers_of, fitting};

// Where a job's first byte stands, counted from 0, and how many bytes it has.
#[derive(Clone, Copy)]
pub struct Programme {
    pub first: u32,
    pub length: u32,
}

// Writes first and length of each programme, pair after pair, as many pairs as there is room for, and answers how many.
pub fn put_numbers(list: &[Programme], numbers: &mut [u32]) -> usize
    ensures { (result ≡ fitting (length list.now) (length numbers.old))
        × (numbers.new ≡ numbers_of (take result list.now) ++ drop (2 * result) numbers.old) }
{
    let mut at = 0;
    let mut to = 0;
    while at < list.len() && to + 1 < numbers.len() {
        let p = list[at];
        numbers[to] = p.first;
        numbers[to + 1] = p.length;
        at += 1;
        to += 2;
    }
    at
}
