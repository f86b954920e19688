// A change of contract with the pins of a set as numbers (document 02, E12), and the totals of the whole plan as values in a list that is lent.

#![tactic(auto)]

ghost use Rattle.std.specs.Prelude.{◌≡◌};
ghost use Rattle.header.specs.Refusals.{code};
ghost use Rattle.header.specs.Answers.{verdict};
ghost use Rattle.pinset.specs.Answers.{set_of};
ghost use Rattle.contract.specs.Answers.{contract_is};
ghost use Rattle.exporting.specs.Sets.{set_planned};
ghost use Rattle.exporting.specs.Changes.{set_change_refusal, change_export};

use contract::Contract;
use header::{Door, Refusal};
use pinset::PinSet;
use planned::PLAN_VALUES;

// No aim is named: 0 is the least total.
const TOTAL: u32 = 0;

// What refuses a change with a set, before the search, with lists of these lengths: the job, 1 to 5 and 17, the set, 6, the order, 2, then as `change` refuses.
fn set_refusal(
    job: &[u8],
    set: PinSet,
    order: u32,
    old: &[u8],
    first: usize,
    contract: Contract<'_>,
    table: usize,
    entries: usize,
) -> Result<(), Refusal>
    ensures { verdict result ≡ set_change_refusal job.now (set_of set) order old.now first (contract_is contract.entry) table entries }
{
    let header = pinset::check(job, set, Door::Opening)?.header;
    session::named_verdict(TOTAL, order)?;
    change::change_verdict(job, header, set, old, first, contract, table, entries)
}

// Plans the rest of a programme afresh, behind the first `first` entries of the old plan, under a contract of rates, sizes and drains and with the pins of a set as numbers, in the order that a number names; 13 writes the table alone. Values: distortion, source size and channel size of the whole plan, then the unused drain of each bucket.
pub fn change(
    job: &[u8],
    set: &[u32],
    old: &[u8],
    first: u32,
    contract: Contract<'_>,
    order: u32,
    table: &mut [u32],
    entries: &mut [u8],
    values: &mut [u64],
) -> Result<(), Refusal>
    ensures { set_planned (code result) table.new entries.new values.new ≡ change_export job.now set.now old.now first (contract_is contract.entry) order table.old entries.old values.old }
{
    let own = numbers::set_in(set);
    let kept = first as usize;
    set_refusal(
        job,
        own,
        order,
        old,
        kept,
        contract,
        table.len(),
        entries.len(),
    )?;
    let buckets = values::buckets_in(job);
    if values.len() < PLAN_VALUES + buckets {
        return Err(Refusal::List);
    }
    let order = session::order_named(order);
    let found = change::change(job, own, old, kept, contract, order, table, entries);
    planned::tell(found, values)
}
