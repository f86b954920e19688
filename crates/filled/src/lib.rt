// The calls that fill a list and answer no more than that they did: the report, and turning an old plan.

#![tactic(auto)]

ghost use Rattle.std.specs.Prelude.{◌≡◌};
ghost use Rattle.header.specs.Refusals.{code};
ghost use Rattle.exporting.specs.Exports.{filled, report_export, turn_export};

use header::Refusal;

// The effective buffer sizes of a plan: N + 1 sums.
pub fn report(job: &[u8], entries: &[u8], sums: &mut [u32]) -> Result<(), Refusal>
    ensures { filled (code result) sums.new ≡ report_export job.now entries.now sums.old }
{
    report::effective_buffers(job, entries, sums)
}

// Turns a stored plan of two bytes an interval into the entries of today: 3 × T bytes.
pub fn turn(job: &[u8], old: &[u8], entries: &mut [u8]) -> Result<(), Refusal>
    ensures { filled (code result) entries.new ≡ turn_export job.now old.now entries.old }
{
    former::turn(job, old, entries)
}
