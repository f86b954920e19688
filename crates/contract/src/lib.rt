// A contract that a carrier alters to (document 02, E12): what refuses it, and the line of a job under it.

#![tactic(auto)]

ghost use Rattle.std.specs.Prelude.{◌≡◌, ◌+◌, ◌<◌, map, length, get_or, drop};
ghost use Rattle.std.specs.Option.{option_map, option_to_list};
ghost use Rattle.interval.specs.Answers.{bucket_is};
ghost use Rattle.format.specs.Limits.{each_kept};
ghost use Rattle.format.specs.JobBytes.{opening, bucket_of, drain_limits, rate_limits};
ghost use Rattle.header.specs.Answers.{extra, policed_of, plain};
ghost use Rattle.changing.specs.NewContract.{policed_under, contract_limits};
ghost use Rattle.contract.specs.Answers.{contract_is, empty_bucket, Offered, LineUnder};

use header::{Bucket, Header};
use interval::{Buffers, Policer};
use line::Line;

// How many buckets there are: one, or two.
fn buckets_of(two: bool) -> usize
    ensures { result ≡ 1 + extra two }
{
    if two {
        return 2;
    }
    1
}

// How many rates a contract may have.
const MOST_RATES: usize = Header::MAX_RATES as usize;

// A contract: rates, and for each bucket a size and a drain.
#[derive(Clone, Copy)]
pub struct Contract<'a> {
    pub rates: &'a [u16],
    pub sizes: &'a [u16],
    pub drains: &'a [u16],
}

impl Contract<'_> {
    // The bucket in a place of the lists, with nothing in it.
    fn bucket_at(self, at: usize) -> Bucket
        requires { (at < length self.sizes.now) × (at < length self.drains.now) }
        ensures { policed_of result ≡ empty_bucket (get_or self.entry.sizes.now at 0) (get_or self.entry.drains.now at 0) }
    {
        Bucket {
            size: self.sizes[at],
            drain: self.drains[at],
            fill: 0,
        }
    }

    // Whether there are as many sizes and drains as buckets, each in its range, and 1 to 16 rates: 3 where not.
    pub fn offered(self, two: bool) -> bool
        ensures { result ≡ each_kept (contract_limits (1 + extra two) (contract_is self.entry)) }
    {
        let buckets = buckets_of(two);
        if self.sizes.len() != buckets {
            return false;
        }
        if self.drains.len() != buckets {
            return false;
        }
        match self.rates.len() {
            1..=MOST_RATES => {}
            _ => return false,
        }
        if !self.bucket_at(0).fits(Header::MAX_BUCKET) {
            return false;
        }
        if !two {
            return true;
        }
        self.bucket_at(1).fits(Header::MAX_SECOND)
    }

    // Whether every bucket drains something: 17 where not.
    pub fn draining(self, two: bool) -> bool
        requires { (length self.sizes.now ≡ 1 + extra two) × (length self.drains.now ≡ 1 + extra two) }
        ensures { result ≡ each_kept (drain_limits opening (policed_under (contract_is self.entry))) }
    {
        if !self.bucket_at(0).drains() {
            return false;
        }
        if !two {
            return true;
        }
        self.bucket_at(1).drains()
    }

    // Whether the rates rise and are at most 4,095: 4 where not.
    pub fn rising(self) -> bool
        ensures { result ≡ each_kept (rate_limits 0 self.entry.rates.now) }
    {
        draft::rates_verdict(self.rates).is_ok()
    }

    // The second bucket, where there is one.
    fn second(self, two: bool) -> Option<Policer>
        requires { (length self.sizes.now ≡ 1 + extra two) × (length self.drains.now ≡ 1 + extra two) }
        ensures { option_to_list (option_map bucket_is result) ≡ map bucket_of (drop 1 (policed_under (contract_is self.entry))) }
    {
        if two {
            return Some(Policer::of(self.bucket_at(1)));
        }
        None
    }

    // The line of a job with this header under the contract: its decoder, the new buckets and rates.
    pub fn line_under(self, header: Header) -> Line
        requires { Offered (plain header) (contract_is self) }
        ensures { LineUnder (plain header) (contract_is self.entry) result }
    {
        let count = self.rates.len();
        let mut list = [0u16; 16];
        list[..count].copy_from_slice(self.rates);
        Line {
            buffers: Buffers {
                decoder: header.decoder,
                first: Policer::of(self.bucket_at(0)),
                second: self.second(header.second.is_some()),
            },
            count: count as u16,
            rates: list,
        }
    }
}
