// The values that the exported calls give, as numbers in a list that is lent.

#![tactic(auto)]

ghost use Rattle.std.specs.Prelude.{◌≡◌, ◌+◌, ◌≤◌, [], ◌∷◌, length, replicate};
ghost use Rattle.base.specs.Lent.{over};
ghost use Rattle.header.specs.Refusals.{code};
ghost use Rattle.header.specs.Answers.{plain};
ghost use Rattle.parts.specs.Answers.{violation};
ghost use Rattle.values.specs.Lists.{buckets_in, opened_values, totals_values, violation_number};

use calls::PinTotals;
use header::{Door, Header, Refusal};
use interval::Totals;
use parts::Violation;

// What an exported call answers: 0, or the refusal's number.
pub fn code(made: Result<(), Refusal>) -> u32
    ensures { result ≡ code made }
{
    match made {
        Ok(()) => 0,
        Err(refusal) => u32::from(refusal),
    }
}

// Of a job that opens: how many bytes it took, N, T, and how many words its table has.
pub fn put_opened(values: &mut [u64], taken: usize, header: Header)
    requires { 4 ≤ length values.old }
    ensures { values.new ≡ over (opened_values taken (plain header)) values.old }
{
    values[0] = taken as u64;
    values[1] = header.units as u64;
    values[2] = entry::intervals(header) as u64;
    values[3] = table::table_words(header) as u64;
}

// How many buckets the line of a job that the archive takes has; one where the bytes hold no job.
pub fn buckets_in(job: &[u8]) -> usize
    ensures { result ≡ buckets_in job.now }
{
    match job::read(job, Door::Archive) {
        Err(_) => 1,
        Ok(reading) => match reading.header.second {
            None => 1,
            Some(_) => 2,
        },
    }
}

// Distortion, source size, channel size and the unused drain of each bucket.
pub fn put_totals(values: &mut [u64], totals: Totals)
    requires { length (totals_values totals) ≤ length values.old }
    ensures { values.new ≡ over (totals_values totals) values.old }
{
    values[0] = totals.distortion as u64;
    values[1] = totals.source as u64;
    values[2] = totals.channel as u64;
    values[3] = totals.unused as u64;
    if let Some(unused) = totals.unused2 {
        values[4] = unused as u64;
    }
}

// Of pins: how many, the sum of their sizes and the sum of their distortions.
pub fn put_pins(values: &mut [u64], totals: PinTotals)
    requires { 3 ≤ length values.old }
    ensures { values.new ≡ over (totals.count ∷ totals.size ∷ totals.distortion ∷ []) values.old }
{
    values[0] = totals.count as u64;
    values[1] = totals.size as u64;
    values[2] = totals.distortion as u64;
}

// The numbers are names that callers have stored. 1 to 4 are in document 01's order of tests, and stayed when document 02, E2, changed that order and E5 put a second bucket between.
pub fn violation_number(x: Violation) -> u64
    ensures { result ≡ violation_number (violation x) }
{
    match x {
        Violation::DecoderUnderflow => 1,
        Violation::DecoderOverflow => 2,
        Violation::BucketOverflow => 3,
        Violation::PinNotHeld => 4,
        Violation::SecondOverflow => 5,
    }
}

// The violation's number, or 0, its interval, or 0, and the totals, 0 where there is a violation.
pub fn put_replayed(values: &mut [u64], violation: u64, interval: u16, totals: Totals)
    requires { 2 + length (totals_values totals) ≤ length values.old }
    ensures { values.new ≡ over (violation ∷ interval ∷ totals_values totals) values.old }
{
    values[0] = violation;
    values[1] = interval as u64;
    values[2] = totals.distortion as u64;
    values[3] = totals.source as u64;
    values[4] = totals.channel as u64;
    values[5] = totals.unused as u64;
    if let Some(unused) = totals.unused2 {
        values[6] = unused as u64;
    }
}

// Totals of zeros over so many buckets.
pub fn no_totals(buckets: usize) -> Totals
    requires { (1 ≤ buckets) × (buckets ≤ 2) }
    ensures { totals_values result ≡ replicate (3 + buckets) 0 }
{
    Totals {
        distortion: 0,
        source: 0,
        channel: 0,
        unused: 0,
        unused2: if buckets == 2 { Some(0) } else { None },
    }
}
