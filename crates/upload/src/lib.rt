// The planner for programs in other languages: numbers and lists alone. Each function answers 0, or the number of document 01's refusal; its values go to a list that is lent.
// The job's refusals come first. A list for values that is too short is refused with 12, behind the other lists. A playlist has its own order, and tells the place of a programme in its answer.

#![tactic(auto)]

ghost use Rattle.std.specs.Prelude.{◌≡◌};
ghost use Rattle.format.specs.JobBytes.{opening, archive};
ghost use Rattle.model.specs.Pins.{pin, lift};
ghost use Rattle.contract.specs.Answers.{contract};
ghost use Rattle.exporting.specs.Changes.{change_export};
ghost use Rattle.exporting.specs.Contents.{contents, read_export};
ghost use Rattle.exporting.specs.Larger.{listed, sizes_export};
ghost use Rattle.exporting.specs.Playlists.{playlisted, playlist_export};
ghost use Rattle.exporting.specs.Sets.{set_export, call_export, seen, see_export, set_planned, set_plan_export, set_replay_export};
ghost use Rattle.exporting.specs.Exports.{opened, open_export, called, calls_export, planned, plan_export, replayed, replay_export, filled, report_export, turn_export, written, write_export, trial_export};

use contract::Contract;
use header::Door;

// Opens a job. Values: how many bytes it took, N, T, and how many words its table has.
pub fn upload_open(job: &[u8], values: &mut [u64]) -> u32
    ensures { opened result values.new ≡ open_export opening job.now values.old }
{
    values::code(called::open(job, Door::Opening, values))
}

// Opens a stored job for what the archive serves, as `upload_open` does but for 17: a bucket may have drain 0.
pub fn upload_archive(job: &[u8], values: &mut [u64]) -> u32
    ensures { opened result values.new ≡ open_export archive job.now values.old }
{
    values::code(called::open(job, Door::Archive, values))
}

// Makes calls as numbers, three a call (6 pins, 7 lifts; the unit; the choice), refused ones included, and no more. Each call's number goes to `answers`, 0 where it was taken. Values: how many pins the calls leave, the sum of their sizes and the sum of their distortions.
pub fn upload_calls(job: &[u8], calls: &[u16], answers: &mut [u8], values: &mut [u64]) -> u32
    ensures { called result answers.new values.new ≡ calls_export job.now calls.now answers.old values.old }
{
    values::code(called::make_calls(job, calls, answers, values))
}

// Makes calls as numbers and plans with the pins that they leave, by the aim and in the order that numbers name: 0 the least total, 1 even pictures; 0 early, 1 late; another number is 2. Where there is a plan, each call's number goes to `answers`; 13 writes the table alone. Values: distortion, source size and channel size of the plan, then the unused drain of each bucket.
pub fn upload_plan(
    job: &[u8],
    calls: &[u16],
    aim: u32,
    order: u32,
    answers: &mut [u8],
    table: &mut [u32],
    entries: &mut [u8],
    values: &mut [u64],
) -> u32
    ensures { planned result answers.new table.new entries.new values.new ≡ plan_export job.now calls.now aim order answers.old table.old entries.old values.old }
{
    values::code(planned::plan(job, calls, aim, order, answers, table, entries, values))
}

// Replays a plan with the pins that calls as numbers leave. Values: 0, or the number of the first violation (1 decoder short, 2 decoder over, 3 bucket over, 4 pin not held, 5 second bucket over); its interval, counted from 1, or 0; then distortion, source size, channel size and the unused drain of each bucket, 0 where there is a violation.
pub fn upload_replay(
    job: &[u8],
    calls: &[u16],
    entries: &[u8],
    levels: &mut [u16],
    values: &mut [u64],
) -> u32
    ensures { replayed result levels.new values.new ≡ replay_export job.now calls.now entries.now levels.old values.old }
{
    values::code(played::replay(job, calls, entries, levels, values))
}

// Opens a job and writes its set without a pin: 528 numbers, which the calls below read and bring up to date.
pub fn upload_set(job: &[u8], set: &mut [u32]) -> u32
    ensures { filled result set.new ≡ set_export opening job.now set.old }
{
    values::code(editor::open(job, Door::Opening, set))
}

// Opens a stored job for what the archive serves and writes its set without a pin, for replay.
pub fn upload_archive_set(job: &[u8], set: &mut [u32]) -> u32
    ensures { filled result set.new ≡ set_export archive job.now set.old }
{
    values::code(editor::open(job, Door::Archive, set))
}

// Pins a unit, counted from 1, at a choice, counted from 0.
pub fn upload_pin(job: &[u8], set: &mut [u32], unit: u16, choice: u16) -> u32
    ensures { filled result set.new ≡ call_export job.now set.old (pin unit choice) }
{
    values::code(editor::pin(job, set, unit, choice))
}

// Lifts the pin of a unit.
pub fn upload_lift(job: &[u8], set: &mut [u32], unit: u16) -> u32
    ensures { filled result set.new ≡ call_export job.now set.old (lift unit) }
{
    values::code(editor::lift(job, set, unit))
}

// Pins a unit at a choice and brings the lent table up to date. Values: the word of layer 0 at the starting levels, which is the least total where the table was the set's own, and the mark where there is no plan.
pub fn upload_pin_and_see(
    job: &[u8],
    set: &mut [u32],
    unit: u16,
    choice: u16,
    table: &mut [u32],
    values: &mut [u64],
) -> u32
    ensures { seen result set.new table.new values.new ≡ see_export job.now set.old (pin unit choice) table.old values.old }
{
    values::code(viewer::pin_and_see(job, set, unit, choice, table, values))
}

// Lifts the pin of a unit and brings the lent table up to date. Values: as `upload_pin_and_see` gives them.
pub fn upload_lift_and_see(
    job: &[u8],
    set: &mut [u32],
    unit: u16,
    table: &mut [u32],
    values: &mut [u64],
) -> u32
    ensures { seen result set.new table.new values.new ≡ see_export job.now set.old (lift unit) table.old values.old }
{
    values::code(viewer::lift_and_see(job, set, unit, table, values))
}

// Plans with the pins of a set, by the aim and in the order that numbers name: 0 the least total, 1 even pictures; 0 early, 1 late. 13 writes the table alone. Values: as `upload_plan` gives them.
pub fn upload_plan_set(
    job: &[u8],
    set: &[u32],
    aim: u32,
    order: u32,
    table: &mut [u32],
    entries: &mut [u8],
    values: &mut [u64],
) -> u32
    ensures { set_planned result table.new entries.new values.new ≡ set_plan_export job.now set.now aim order table.old entries.old values.old }
{
    values::code(planned::plan_set(job, set, aim, order, table, entries, values))
}

// Replays a plan with the pins of a set. Values: as `upload_replay` gives them.
pub fn upload_replay_set(
    job: &[u8],
    set: &[u32],
    entries: &[u8],
    levels: &mut [u16],
    values: &mut [u64],
) -> u32
    ensures { replayed result levels.new values.new ≡ set_replay_export job.now set.now entries.now levels.old values.old }
{
    values::code(played::replay_set(job, set, entries, levels, values))
}

// The effective buffer sizes of a plan: N + 1 sums.
pub fn upload_report(job: &[u8], entries: &[u8], sums: &mut [u32]) -> u32
    ensures { filled result sums.new ≡ report_export job.now entries.now sums.old }
{
    values::code(filled::report(job, entries, sums))
}

// Turns a stored plan of two bytes an interval into the entries of today: 3 × T bytes.
pub fn upload_turn(job: &[u8], old: &[u8], entries: &mut [u8]) -> u32
    ensures { filled result entries.new ≡ turn_export job.now old.now entries.old }
{
    values::code(filled::turn(job, old, entries))
}

// Plans the rest of a programme afresh under a new contract, behind the first `first` entries of the old plan and from the levels that they led to, with the pins of a set, in the order that a number names: 0 early, 1 late. The contract: rates, and of each bucket a size and a drain. 13 writes the table alone. Values: as `upload_plan` gives them, of the whole plan, each interval by its own contract.
pub fn upload_change(
    job: &[u8],
    set: &[u32],
    old: &[u8],
    first: u32,
    rates: &[u16],
    sizes: &[u16],
    drains: &[u16],
    order: u32,
    table: &mut [u32],
    entries: &mut [u8],
    values: &mut [u64],
) -> u32
    ensures { set_planned result table.new entries.new values.new ≡ change_export job.now set.now old.now first (contract rates.now sizes.now drains.now) order table.old entries.old values.old }
{
    let contract = Contract {
        rates,
        sizes,
        drains,
    };
    values::code(changed::change(
        job, set, old, first, contract, order, table, entries, values,
    ))
}

// Lists the least total for each size of the first bucket from the job's own to 255, with the pins of a set: 256 - K numbers, the mark where there is no plan. The table ends as that of size 255.
pub fn upload_sizes(job: &[u8], set: &[u32], table: &mut [u32], totals: &mut [u32]) -> u32
    ensures { listed result table.new totals.new ≡ sizes_export job.now set.now table.old totals.old }
{
    values::code(enlarged::least_totals(job, set, table, totals))
}

// Plans the programmes of a playlist, each a job's first byte and its length in `bytes`, from the bucket levels at which the last one ended. Plans stand behind each other, totals five a programme. The answer is 0, the number of a refusal of the list, or 256 times the place, counted from 1, of the first programme that is refused, and its number.
pub fn upload_playlist(
    bytes: &[u8],
    programmes: &[u32],
    table: &mut [u32],
    entries: &mut [u8],
    totals: &mut [u64],
) -> u32
    ensures { playlisted result table.new entries.new totals.new ≡ playlist_export bytes.now programmes.now table.old entries.old totals.old }
{
    listed::plan_list(bytes, programmes, table, entries, totals)
}

// Writes a job from the nine fields of its header, or twelve, its rates, and sizes and distortions by unit and choice, unit after unit. Values: how many bytes the job took. Another number of fields is no header.
pub fn upload_write(
    fields: &[u16],
    rates: &[u16],
    sizes: &[u16],
    distortions: &[u32],
    job: &mut [u8],
    values: &mut [u64],
) -> u32
    ensures { written result job.new values.new ≡ write_export fields.now rates.now sizes.now distortions.now job.old values.old }
{
    values::code(written::write(fields, rates, sizes, distortions, job, values))
}

// Reads a job back, as `upload_write` takes it: the nine fields of its header, or twelve, its rates, and its sizes and distortions by unit and choice, unit after unit. Values: how many bytes the job took, and how many fields its header has. What stands behind the numbers written stays.
pub fn upload_read(
    job: &[u8],
    fields: &mut [u16],
    rates: &mut [u16],
    sizes: &mut [u16],
    distortions: &mut [u32],
    values: &mut [u64],
) -> u32
    ensures { contents result fields.new rates.new sizes.new distortions.new values.new ≡ read_export fields.old rates.old sizes.old distortions.old values.old opening job.now }
{
    values::code(reader::read_back(
        job,
        Door::Opening,
        fields,
        rates,
        sizes,
        distortions,
        values,
    ))
}

// Reads a stored job back, as `upload_read` does but for 17: a bucket may have drain 0.
pub fn upload_read_archive(
    job: &[u8],
    fields: &mut [u16],
    rates: &mut [u16],
    sizes: &mut [u16],
    distortions: &mut [u32],
    values: &mut [u64],
) -> u32
    ensures { contents result fields.new rates.new sizes.new distortions.new values.new ≡ read_export fields.old rates.old sizes.old distortions.old values.old archive job.now }
{
    values::code(reader::read_back(
        job,
        Door::Archive,
        fields,
        rates,
        sizes,
        distortions,
        values,
    ))
}

// Writes the trial job of the nine fields of a header, or twelve, and a starting state. Values: how many bytes the job took. Another number of fields is no header.
pub fn upload_trial(fields: &[u16], state: u32, job: &mut [u8], values: &mut [u64]) -> u32
    ensures { written result job.new values.new ≡ trial_export fields.now state job.old values.old }
{
    values::code(written::write_trial(fields, state, job, values))
}
