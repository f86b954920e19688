// A job's header (document 01, "The job's bytes"): its fields and buckets with their limits, and looking up rates and codings behind it.

#![tactic(auto)]

mod refusal;

ghost use Rattle.std.specs.Prelude.{◌≡◌, [], ◌∷◌, ◌+◌, ◌*◌, ◌-◌, ◌≤◌, length, drop};
ghost use Rattle.format.specs.Fields.{fields};
ghost use Rattle.format.specs.Limits.{limit, kept, both_kept, each_kept, broken};
ghost use Rattle.format.specs.JobBytes.{policed_by, header_of, bucket_widths, header_form, same_header, largest_sizes, bucket_limits, header_limits, drain_limits, rate_limit, size_limit, distortion_limit};
ghost use Rattle.format.specs.Places.{header_size, unit_size, rate_at, coding_at};
ghost use Rattle.header.specs.Answers.{extra, policed_of, plain, further, door_of, verdict, coding_of};

pub use refusal::Refusal;

// A leaky bucket as a header tells it: its size, what it drains in an interval, its level at the start. Sizes and levels are counted in grains, document 01's fixed count of bits.
#[derive(Clone, Copy, Debug, PartialEq, Eq)]
pub struct Bucket {
    pub size: u16,
    pub drain: u16,
    pub fill: u16,
}

// What kind 1 says of a job, or kind 8, which has two buckets (document 02, E5).
#[derive(Clone, Copy, Debug, PartialEq, Eq)]
pub struct Header {
    pub units: u16,
    pub delay: u16,
    pub decoder: u16,
    // the decoder's level at the start
    pub level: u16,
    pub first: Bucket,
    pub second: Option<Bucket>,
    pub rates: u16,
    pub choices: u16,
}

// A unit as one choice codes it.
#[derive(Clone, Copy, Debug, PartialEq, Eq)]
pub struct Coding {
    pub size: u16,
    pub distortion: u32,
}

// A choice index as plans and sets of pins hold it, and the mark: no unit in a plan, no pin in a set.
pub type Choice = u16;

pub const NO_CHOICE: Choice = 65535;

// Which jobs a reader takes (document 02, E8): opening none that has a bucket which never drains, the archive these too.
#[derive(Clone, Copy, Debug, PartialEq, Eq)]
pub enum Door {
    Opening,
    Archive,
}

impl Header {
    // Document 01's limits, each with its field's type.
    pub const MAX_UNITS: u16 = 512;

    pub const MAX_DELAY: u16 = 64;

    pub const MAX_DECODER: u16 = 255;

    pub const MAX_BUCKET: u16 = 255;

    pub const MAX_SECOND: u16 = 63;

    pub const MAX_DRAIN: u16 = 4095;

    pub const MAX_RATES: u16 = 16;

    pub const MAX_CHOICES: u16 = 1000;

    pub const MAX_RATE: u16 = 4095;

    pub const MAX_SIZE: u16 = 4095;

    pub const MAX_DISTORTION: u32 = 1000000;

    // The kinds of record, and the lengths of the two headers.
    pub const KIND: u16 = 1;

    pub const LENGTH: u16 = 20;

    pub const TWO_KIND: u16 = 8;

    pub const TWO_LENGTH: u16 = 26;

    pub const RATES_KIND: u16 = 2;

    pub const UNIT_KIND: u16 = 3;

    // How many bytes the head of any record takes, and the header's record with its head, with one bucket and with two.
    pub const HEAD: usize = 4;

    pub const SIZE: usize = 22;

    pub const TWO_SIZE: usize = 28;

    // The header that a record's body holds.
    pub fn of(body: &[u8], two: bool) -> Header
        requires { 18 + 6 * extra two ≤ length body.now }
        ensures { plain result ≡ header_of (fields (header_form (extra two)).widths body.now) }
    {
        Header {
            units: fields::u16_at(body, 0),
            delay: fields::u16_at(body, 2),
            decoder: fields::u16_at(body, 4),
            level: fields::u16_at(body, 10),
            first: Bucket {
                size: fields::u16_at(body, 6),
                drain: fields::u16_at(body, 8),
                fill: fields::u16_at(body, 12),
            },
            second: Bucket::second_in(body, two),
            rates: fields::u16_at(body, 14),
            choices: fields::u16_at(body, 16),
        }
    }

    // How many bytes its record takes.
    pub fn record_size(self) -> usize
        ensures { result ≡ header_size (plain self) }
    {
        match self.second {
            None => Header::SIZE,
            Some(_) => Header::TWO_SIZE,
        }
    }

    // Whether the buckets that it has keep to their limits.
    fn buckets_fit(self) -> bool
        ensures { result ≡ each_kept (bucket_limits largest_sizes (plain self).buckets) }
    {
        let first = self.first.fits(Header::MAX_BUCKET);
        match self.second {
            None => first,
            Some(second) => first & second.fits(Header::MAX_SECOND),
        }
    }

    // 3 where a field is out of range.
    pub fn verdict(self) -> Result<(), Refusal>
        ensures { verdict result ≡ broken (header_limits (plain self)) }
    {
        let units = self.units;
        let delay = self.delay;
        let decoder = self.decoder;
        let rates = self.rates;
        let choices = self.choices;
        match units {
            1..=Header::MAX_UNITS => {}
            _ => return Err(Refusal::Header),
        }
        match delay {
            0..=Header::MAX_DELAY => {}
            _ => return Err(Refusal::Header),
        }
        match decoder {
            0..=Header::MAX_DECODER => {}
            _ => return Err(Refusal::Header),
        }
        if decoder < self.level {
            return Err(Refusal::Header);
        }
        match rates {
            1..=Header::MAX_RATES => {}
            _ => return Err(Refusal::Header),
        }
        match choices {
            1..=Header::MAX_CHOICES => {}
            _ => return Err(Refusal::Header),
        }
        if !self.buckets_fit() {
            return Err(Refusal::Header);
        }
        Ok(())
    }

    // 17 where a bucket never drains, and the door asks for one that does.
    pub fn drains_verdict(self, door: Door) -> Result<(), Refusal>
        ensures { verdict result ≡ broken (drain_limits (door_of door) (plain self).buckets) }
    {
        match door {
            Door::Archive => Ok(()),
            Door::Opening => {
                self.first.drains_verdict()?;
                match self.second {
                    None => Ok(()),
                    Some(second) => second.drains_verdict(),
                }
            }
        }
    }

    // Whether the two headers agree in every field and bucket.
    pub fn same(self, other: Header) -> bool
        ensures { result ≡ same_header (plain self) (plain other) }
    {
        self == other
    }
}

impl Bucket {
    // The second bucket in a header's body, where there is one.
    fn second_in(body: &[u8], two: bool) -> Option<Bucket>
        requires { 18 + 6 * extra two ≤ length body.now }
        ensures { further result ≡ policed_by (fields (bucket_widths (extra two)) (drop 18 body.now)) }
    {
        if !two {
            return None;
        }
        Some(Bucket {
            size: fields::u16_at(body, 18),
            drain: fields::u16_at(body, 20),
            fill: fields::u16_at(body, 22),
        })
    }

    // Whether its size is at most the largest, its drain at most 4,095 and its level at the start at most its size.
    pub fn fits(self, largest: u16) -> bool
        ensures { result ≡ each_kept (bucket_limits (largest ∷ []) (policed_of self ∷ [])) }
    {
        let size = self.size;
        match self.drain {
            0..=Header::MAX_DRAIN => (size <= largest) & (self.fill <= size),
            _ => false,
        }
    }

    // Whether it drains something, and at most 4,095.
    pub fn drains(self) -> bool
        ensures { result ≡ kept (limit 17 1 4095 self.drain) }
    {
        matches!(self.drain, 1..=Header::MAX_DRAIN)
    }

    // 17 where it does not.
    fn drains_verdict(self) -> Result<(), Refusal>
        ensures { verdict result ≡ broken (limit 17 1 4095 self.drain ∷ []) }
    {
        if self.drains() {
            Ok(())
        } else {
            Err(Refusal::NeverDrains)
        }
    }
}

// Whether a rate is at most 4,095 and at least `low`.
pub fn rate_fits(low: u16, rate: u16) -> bool
    ensures { result ≡ kept (rate_limit low rate) }
{
    match rate {
        0..=Header::MAX_RATE => low <= rate,
        _ => false,
    }
}

// Whether a size is at most 4,095 and a distortion at most 1,000,000.
pub fn coding_fits(size: u16, distortion: u32) -> bool
    ensures { result ≡ both_kept (size_limit size) (distortion_limit distortion) }
{
    match size {
        0..=Header::MAX_SIZE => match distortion {
            0..=Header::MAX_DISTORTION => true,
            _ => false,
        },
        _ => false,
    }
}

// The rate with this index: of a job that opens with this header, the rate of the job (format's `LooksUp`).
pub fn rate_at(job: &[u8], header: Header, rate: u16) -> u16
    ensures { result ≡ rate_at job.now (plain header) rate }
{
    let front = header.record_size();
    let at = front + Header::HEAD + 2 * (rate as usize);
    fields::field16(job, at)
}

// A unit, counted from 1, as one choice codes it: of a job that opens with this header, the coding of the job (format's `LooksUp`).
pub fn coding_at(job: &[u8], header: Header, unit: u16, choice: u16) -> Coding
    ensures { coding_of result ≡ coding_at job.now (plain header) unit choice }
{
    let front = header.record_size();
    let first = front + Header::HEAD + 2 * (header.rates as usize);
    let start = first + bytes_before(unit, header.choices);
    let at = start + Header::HEAD + 6 * (choice as usize);
    let next = at + 2;
    Coding {
        size: fields::field16(job, at),
        distortion: fields::field32(job, next),
    }
}

// How many bytes the records of the units before this one take: a place that leaves room for what stands behind it. Before unit 0, which no job has, none.
fn bytes_before(unit: u16, choices: u16) -> usize
    ensures { (result ≡ (unit - 1) * unit_size choices) × (result ≤ 65535 * unit_size choices) }
{
    if unit == 0 {
        return 0;
    }
    let size = Header::HEAD + 6 * (choices as usize);
    let before = (unit - 1) as usize;
    before * size
}
