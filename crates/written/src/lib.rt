// A job that is written from lists of numbers, or drawn from a state: its header from nine fields, or twelve.

#![tactic(auto)]

ghost use Rattle.std.specs.Prelude.{◌≡◌, ◌+◌, ◌*◌, length, drop};
ghost use Rattle.header.specs.Refusals.{code};
ghost use Rattle.format.specs.JobBytes.{policed_by, header_of};
ghost use Rattle.header.specs.Answers.{extra, further, plain};
ghost use Rattle.exporting.specs.Exports.{header_fields, written, write_export, trial_export};

use header::{Bucket, Header, Refusal};

// How many fields a header has, with one bucket and with two.
const FIELDS: usize = 9;

const TWO_FIELDS: usize = 12;

// How many values each call gives.
const WRITE_VALUES: usize = 1;

// Whether so many fields are a header.
fn fields_fit(count: usize) -> bool
    ensures { result ≡ header_fields count }
{
    count == TWO_FIELDS || count == FIELDS
}

// The second bucket among a header's fields, where there is one.
fn second_of(fields: &[u16], two: bool) -> Option<Bucket>
    requires { length fields.now ≡ 9 + 3 * extra two }
    ensures { further result ≡ policed_by (drop 9 fields.now) }
{
    if !two {
        return None;
    }
    Some(Bucket {
        size: fields[9],
        drain: fields[10],
        fill: fields[11],
    })
}

// The header of nine fields in their order, or of twelve.
fn header_of(fields: &[u16], two: bool) -> Header
    requires { length fields.now ≡ 9 + 3 * extra two }
    ensures { plain result ≡ header_of fields.now }
{
    Header {
        units: fields[0],
        delay: fields[1],
        decoder: fields[2],
        level: fields[5],
        first: Bucket {
            size: fields[3],
            drain: fields[4],
            fill: fields[6],
        },
        second: second_of(fields, two),
        rates: fields[7],
        choices: fields[8],
    }
}

// Writes a job from the nine fields of its header, or twelve, its rates, and sizes and distortions by unit and choice, unit after unit. Values: how many bytes the job took. Another number of fields is no header.
pub fn write(
    fields: &[u16],
    rates: &[u16],
    sizes: &[u16],
    distortions: &[u32],
    job: &mut [u8],
    values: &mut [u64],
) -> Result<(), Refusal>
    ensures { written (code result) job.new values.new ≡ write_export fields.now rates.now sizes.now distortions.now job.old values.old }
{
    if !fields_fit(fields.len()) {
        return Err(Refusal::Header);
    }
    let two = fields.len() == TWO_FIELDS;
    let header = header_of(fields, two);
    draft::write_refusal(header, rates, sizes, distortions, job.len())?;
    if values.len() < WRITE_VALUES {
        return Err(Refusal::List);
    }
    let taken = writer::write_job(header, rates, sizes, distortions, job)?;
    values[0] = taken as u64;
    Ok(())
}

// Writes the trial job of the nine fields of a header, or twelve, and a starting state. Values: how many bytes the job took. Another number of fields is no header.
pub fn write_trial(
    fields: &[u16],
    state: u32,
    job: &mut [u8],
    values: &mut [u64],
) -> Result<(), Refusal>
    ensures { written (code result) job.new values.new ≡ trial_export fields.now state job.old values.old }
{
    if !fields_fit(fields.len()) {
        return Err(Refusal::Header);
    }
    let two = fields.len() == TWO_FIELDS;
    let header = header_of(fields, two);
    trial::trial_refusal(header, job.len())?;
    if values.len() < WRITE_VALUES {
        return Err(Refusal::List);
    }
    let taken = trial::write_trial(header, state, job)?;
    values[0] = taken as u64;
    Ok(())
}
