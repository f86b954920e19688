// What a larger bucket brings, with the pins of a set as numbers (document 02, E13).

#![tactic(auto)]

ghost use Rattle.std.specs.Prelude.{◌≡◌};
ghost use Rattle.header.specs.Refusals.{code};
ghost use Rattle.exporting.specs.Larger.{listed, sizes_export};

use header::Refusal;

// Lists the least total for each size of the first bucket from the job's own to the largest; the table ends as that of the largest.
pub fn least_totals(
    job: &[u8],
    set: &[u32],
    table: &mut [u32],
    totals: &mut [u32],
) -> Result<(), Refusal>
    ensures { listed (code result) table.new totals.new ≡ sizes_export job.now set.now table.old totals.old }
{
    let own = numbers::set_in(set);
    enlarge::least_totals(job, own, table, totals)
}
