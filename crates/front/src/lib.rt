// The entries of an old plan that remain when the contract changes (document 02, E12): the levels that they lead to under the old contract, and their totals.

#![tactic(auto)]

ghost use Rattle.format.specs.JobBytes.{job_in};
ghost use Rattle.header.specs.Answers.{plain};
ghost use Rattle.pinning.specs.PinSet.{lines};
ghost use Rattle.front.specs.Answers.{Remains, FrontOf};

use header::{Choice, Header};
use interval::{Buffers, Levels, Totals};

// Where they lead, and their totals.
#[derive(Clone, Copy, Debug, PartialEq, Eq)]
pub struct Front {
    pub at: Levels,
    pub sum: Totals,
}

// The first `count` entries of a plan in shape, interval after interval; nothing where one of them has a violation.
pub fn follow(
    job: &[u8],
    header: Header,
    pins: &[Choice; 512],
    entries: &[u8],
    count: usize,
) -> Option<Front>
    requires { Remains job.now (plain header) pins.now entries.now count }
    ensures { FrontOf (job_in job.now) (lines header.units pins.now) count entries.now result }
{
    let buffers = Buffers::of(header);
    let mut at = Levels::start(header);
    let mut sum = Totals::none(buffers);
    for place in 0..count {
        let x = course::interval_at(job, header, pins, entries, place);
        let Ok(next) = interval::step(buffers, at, x) else {
            return None;
        };
        sum = interval::with_interval(sum, buffers, at, x);
        at = next;
    }
    Some(Front { at, sum })
}
