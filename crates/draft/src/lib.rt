// A job that is to be written: its header and lists, what refuses them, and how many bytes they take (document 02, E1).

#![tactic(auto)]

ghost use Rattle.std.specs.Prelude.{◌≡◌, ◌≤◌, length, drop, if◌then◌else◌};
ghost use Rattle.std.proofs.Math.Option.{some};
ghost use Rattle.format.specs.Limits.{broken};
ghost use Rattle.format.specs.JobBytes.{rate_limits, coding_limits};
ghost use Rattle.format.specs.Places.{job_size};
ghost use Rattle.header.specs.Answers.{plain, verdict};
ghost use Rattle.writing.specs.Lists.{codings_from};
ghost use Rattle.writing.specs.Calls.{length_limits, write_limits, write_refusal};

use header::{Door, Header, Refusal};

// 16 where a list has not as many numbers as the header calls for.
fn lengths_verdict(
    header: Header,
    rates: &[u16],
    sizes: &[u16],
    distortions: &[u32],
) -> Result<(), Refusal>
    ensures { verdict result ≡ broken (length_limits (plain header) rates.now sizes.now distortions.now) }
{
    let count = header.units as usize * (header.choices as usize);
    if rates.len() != header.rates as usize {
        return Err(Refusal::Lengths);
    }
    if sizes.len() != count {
        return Err(Refusal::Lengths);
    }
    if distortions.len() != count {
        return Err(Refusal::Lengths);
    }
    Ok(())
}

// 4 where a rate is over its limit or does not rise.
pub fn rates_verdict(rates: &[u16]) -> Result<(), Refusal>
    ensures { verdict result ≡ broken (rate_limits 0 rates.now) }
{
    let mut low = 0;
    for rate in rates {
        if !header::rate_fits(low, *rate) {
            return Err(Refusal::Rates);
        }
        low = *rate + 1;
    }
    Ok(())
}

// How many codings are tested before a refusal can end it.
const BLOCK: usize = 64;

// Whether the codings in these places are within their limits: all are looked at, so that the machine does several at a time.
fn block_fits(sizes: &[u16], distortions: &[u32], from: usize, to: usize) -> bool
    requires { (length sizes.now ≡ length distortions.now) × (from ≤ to) × (to ≤ length sizes.now) }
    ensures { broken (coding_limits (drop from (codings_from sizes.now distortions.now))) ≡ (if result then broken (coding_limits (drop to (codings_from sizes.now distortions.now))) else some 5) }
{
    let mut fit = true;
    for x in from..to {
        fit = fit & header::coding_fits(sizes[x], distortions[x]);
    }
    fit
}

// 5 where a size or a distortion is over its limit.
fn codings_verdict(sizes: &[u16], distortions: &[u32]) -> Result<(), Refusal>
    requires { length sizes.now ≡ length distortions.now }
    ensures { verdict result ≡ broken (coding_limits (codings_from sizes.now distortions.now)) }
{
    let mut at = 0;
    while at < sizes.len() {
        let to = at + BLOCK.min(sizes.len() - at);
        if !block_fits(sizes, distortions, at, to) {
            return Err(Refusal::Codings);
        }
        at = to;
    }
    Ok(())
}

// All limits in document 02's order: 3, 17, 16, 4, 5.
fn lists_verdict(
    header: Header,
    rates: &[u16],
    sizes: &[u16],
    distortions: &[u32],
) -> Result<(), Refusal>
    ensures { verdict result ≡ broken (write_limits (plain header) rates.now sizes.now distortions.now) }
{
    header.verdict()?;
    header.drains_verdict(Door::Opening)?;
    lengths_verdict(header, rates, sizes, distortions)?;
    rates_verdict(rates)?;
    codings_verdict(sizes, distortions)
}

// How many bytes a job with this header takes.
pub fn job_size(header: Header) -> usize
    ensures { result ≡ job_size (plain header) }
{
    let front = header.record_size();
    let unit = Header::HEAD + 6 * (header.choices as usize);
    let units = header.units as usize * unit;
    front + Header::HEAD + 2 * (header.rates as usize) + units
}

// What refuses a job to be written to so many bytes: 3, 17, 16, 4 and 5, then 12.
pub fn write_refusal(
    header: Header,
    rates: &[u16],
    sizes: &[u16],
    distortions: &[u32],
    out: usize,
) -> Result<(), Refusal>
    ensures { verdict result ≡ write_refusal (plain header) rates.now sizes.now distortions.now out }
{
    lists_verdict(header, rates, sizes, distortions)?;
    if out < job_size(header) {
        return Err(Refusal::List);
    }
    Ok(())
}
