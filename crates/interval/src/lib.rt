// One interval of a plan: what it does to the levels, what it violates, and what it adds to the totals (document 01, "Levels, interval by interval"). Replay and planner share it.

#![tactic(auto)]

ghost use Rattle.std.specs.Prelude.{◌≡◌, [], ◌+◌, ◌<◌};
ghost use Rattle.model.specs.Step.{outcome_of};
ghost use Rattle.format.specs.Choices.{choice_of};
ghost use Rattle.format.specs.JobBytes.{bucket_of};
ghost use Rattle.header.specs.Answers.{plain, policed_of};
ghost use Rattle.interval.specs.Answers.{levels_of, start_of, outcome_is, line_of, bucket_is, totals_of, no_totals, added, OfHeader, SecondStep, second_over, SecondRoom, MoreUnused, Room};

use header::{Bucket, Choice, Header};
use parts::{Drained, Violation};

// Distortion, source size (the sum of R), channel size (the sum of C) and the drain that each bucket left unused: of two, where the line has a second bucket (document 02, E5).
#[derive(Clone, Copy, Debug, PartialEq, Eq)]
pub struct Totals {
    pub distortion: u32,
    pub source: u32,
    pub channel: u32,
    pub unused: u32,
    pub unused2: Option<u32>,
}

// The levels at an interval's end: the decoder's, and one for each bucket.
#[derive(Clone, Copy, Debug, PartialEq, Eq)]
pub struct Levels {
    pub decoder: u16,
    pub bucket: u16,
    pub bucket2: Option<u16>,
}

// A bucket's size, and what it drains in an interval.
#[derive(Clone, Copy, Debug, PartialEq, Eq)]
pub struct Policer {
    pub size: u16,
    pub drain: u16,
}

// What a step reads of a line: the decoder's size and the buckets, one or two.
#[derive(Clone, Copy, Debug, PartialEq, Eq)]
pub struct Buffers {
    pub decoder: u16,
    pub first: Policer,
    pub second: Option<Policer>,
}

// What a plan does in one interval: C, R and the distortion of the unit that is decoded, its pin and the choice made, the mark where there is none.
#[derive(Clone, Copy, Debug, PartialEq, Eq)]
pub struct Interval {
    pub sent: u16,
    pub size: u16,
    pub distortion: u32,
    pub pin: Choice,
    pub choice: Choice,
}

impl Totals {
    // Of no interval.
    pub fn none(buffers: Buffers) -> Totals
        ensures { totals_of result ≡ no_totals (line_of buffers []).buckets }
    {
        Totals {
            distortion: 0,
            source: 0,
            channel: 0,
            unused: 0,
            unused2: buffers.second.map(|_| 0),
        }
    }
}

impl Levels {
    // B(0) and L(0) of a job.
    pub fn start(header: Header) -> Levels
        ensures { levels_of result ≡ start_of (plain header) }
    {
        Levels {
            decoder: header.level,
            bucket: header.first.fill,
            bucket2: header.second.map(|bucket| bucket.fill),
        }
    }
}

impl Policer {
    // That of a bucket.
    pub fn of(bucket: Bucket) -> Policer
        ensures { bucket_is result ≡ bucket_of (policed_of bucket) }
    {
        Policer {
            size: bucket.size,
            drain: bucket.drain,
        }
    }
}

impl Buffers {
    // Those of a job's own line.
    pub fn of(header: Header) -> Buffers
        ensures { OfHeader result (plain header) }
    {
        Buffers {
            decoder: header.decoder,
            first: Policer::of(header.first),
            second: header.second.map(|bucket| Policer::of(bucket)),
        }
    }
}

// The second bucket's part, where there is one.
fn second_step(buffers: Buffers, before: Levels, sent: u16) -> Option<Drained>
    ensures { SecondStep buffers before sent result }
{
    let bucket = buffers.second?;
    let level = before.bucket2?;
    Some(parts::bucket_step(bucket.drain, level, sent))
}

// Whether the second bucket holds more than its size.
fn second_over(buffers: Buffers, second: Option<Drained>) -> bool
    ensures { result ≡ second_over buffers.second second }
{
    match (buffers.second, second) {
        (Some(bucket), Some(drained)) => (bucket.size as u32) < drained.level,
        _ => false,
    }
}

// One interval from the levels before it: the decoder, the buckets in turn, the pin, in this order.
pub fn step(buffers: Buffers, before: Levels, x: Interval) -> Result<Levels, Violation>
    ensures { outcome_is result ≡ outcome_of (line_of buffers []) (choice_of x.pin) (choice_of x.choice) before.decoder (levels_of before).buckets x.sent x.size }
{
    let decoder = parts::decoder_step(buffers.decoder, before.decoder, x.sent, x.size)?;
    let first = parts::bucket_step(buffers.first.drain, before.bucket, x.sent);
    let second = second_step(buffers, before, x.sent);
    if (buffers.first.size as u32) < first.level {
        return Err(Violation::BucketOverflow);
    }
    if second_over(buffers, second) {
        return Err(Violation::SecondOverflow);
    }
    if !parts::pin_holds(x.pin, x.choice) {
        return Err(Violation::PinNotHeld);
    }
    Ok(Levels {
        decoder,
        bucket: first.level as u16,
        bucket2: second.map(|drained| drained.level as u16),
    })
}

// What goes unused of the second bucket's drain with one interval more, where there is one.
fn more_unused(sum: Option<u32>, second: Option<Drained>) -> Option<u32>
    requires { SecondRoom sum second }
    ensures { MoreUnused sum second result }
{
    Some(sum? + second?.unused)
}

// The totals with one interval more, from the levels before it.
pub fn with_interval(sum: Totals, buffers: Buffers, before: Levels, x: Interval) -> Totals
    requires { Room sum x }
    ensures { totals_of result ≡ added (totals_of sum) (line_of buffers []).buckets (levels_of before).buckets x }
{
    let bucket = parts::bucket_step(buffers.first.drain, before.bucket, x.sent);
    let second = second_step(buffers, before, x.sent);
    Totals {
        distortion: sum.distortion + x.distortion,
        source: sum.source + x.size as u32,
        channel: sum.channel + x.sent as u32,
        unused: sum.unused + bucket.unused,
        unused2: more_unused(sum.unused2, second),
    }
}
