// A job read back: the fields of its header, its rates, and its sizes and distortions by unit and choice, unit after unit, as the writer takes them (document 02, E1). Everything is looked at before a number is written.

#![tactic(auto)]

ghost use Rattle.std.specs.Prelude.{◌≡◌, [], ◌∷◌, ◌*◌, ◌≤◌, ◌<◌, length};
ghost use Rattle.header.specs.Refusals.{code};
ghost use Rattle.base.specs.Lent.{over};
ghost use Rattle.format.specs.JobBytes.{header_values, job_in, Opens};
ghost use Rattle.writing.specs.Lists.{sizes_in, distortions_in};
ghost use Rattle.header.specs.Answers.{plain, door_of};
ghost use Rattle.exporting.specs.Contents.{contents, read_held, read_export};
ghost use Rattle.reader.specs.Answers.{Follows, roomy};

use header::{Door, Header, Refusal};
use job::Reading;

// A unit, counted from 1, and one of its choices.
#[derive(Clone, Copy)]
struct Place {
    unit: u16,
    choice: u16,
}

// How many fields a header has, with one bucket and with two.
const FIELDS: usize = 9;

const TWO_FIELDS: usize = 12;

// How many values a reading gives.
const VALUES: usize = 2;

// How many fields this header has.
fn field_count(header: Header) -> usize
    ensures { result ≡ length (header_values (plain header)) }
{
    match header.second {
        None => FIELDS,
        Some(_) => TWO_FIELDS,
    }
}

// How many codings all units have together.
fn coding_count(header: Header) -> usize
    ensures { result ≡ header.units * header.choices }
{
    let units = header.units as usize;
    let choices = header.choices as usize;
    units * choices
}

// Whether lists of these lengths have room for a job with this header.
fn room(
    header: Header,
    fields: usize,
    rates: usize,
    sizes: usize,
    distortions: usize,
    values: usize,
) -> bool
    ensures { result ≡ roomy (plain header) fields rates sizes distortions values }
{
    let codings = coding_count(header);
    (field_count(header) <= fields)
        & (header.rates as usize <= rates)
        & (codings <= sizes)
        & (codings <= distortions)
        & (VALUES <= values)
}

// Writes the header's fields in their order: nine, and three more where there is a second bucket.
fn put_fields(header: Header, fields: &mut [u16])
    requires { length (header_values (plain header)) ≤ length fields.old }
    ensures { fields.new ≡ over (header_values (plain header)) fields.old }
{
    fields[0] = header.units;
    fields[1] = header.delay;
    fields[2] = header.decoder;
    fields[3] = header.first.size;
    fields[4] = header.first.drain;
    fields[5] = header.level;
    fields[6] = header.first.fill;
    fields[7] = header.rates;
    fields[8] = header.choices;
    if let Some(second) = header.second {
        fields[9] = second.size;
        fields[10] = second.drain;
        fields[11] = second.fill;
    }
}

// Writes the rates.
fn put_rates(job: &[u8], header: Header, rates: &mut [u16])
    requires { Opens job.now (plain header) × (header.rates ≤ length rates.old) }
    ensures { rates.new ≡ over (job_in job.now).line.rates rates.old }
{
    let count = header.rates;
    for rate in 0..count {
        let place = rate as usize;
        rates[place] = header::rate_at(job, header, rate);
    }
}

// The coding behind this one: the unit's next choice, or the first of the next unit.
fn after(place: Place, choices: u16) -> Place
    requires { (1 ≤ place.unit) × (place.unit ≤ 512) × (place.choice < choices) }
    ensures { Follows choices place result }
{
    let next = place.choice + 1;
    if next < choices {
        return Place {
            unit: place.unit,
            choice: next,
        };
    }
    let unit = place.unit + 1;
    Place { unit, choice: 0 }
}

// Writes the sizes and the distortions.
fn put_codings(job: &[u8], header: Header, sizes: &mut [u16], distortions: &mut [u32])
    requires { Opens job.now (plain header) × (header.units * header.choices ≤ length sizes.old) × (header.units * header.choices ≤ length distortions.old) }
    ensures { (sizes.new ≡ over (sizes_in (job_in job.now)) sizes.old) × (distortions.new ≡ over (distortions_in (job_in job.now)) distortions.old) }
{
    let count = coding_count(header);
    let choices = header.choices;
    let mut place = Place { unit: 1, choice: 0 };
    for i in 0..count {
        let coding = header::coding_at(job, header, place.unit, place.choice);
        sizes[i] = coding.size;
        distortions[i] = coding.distortion;
        place = after(place, choices);
    }
}

// Writes the two values: how many bytes the job took, and how many fields were written.
fn put_values(header: Header, taken: usize, values: &mut [u64])
    requires { 2 ≤ length values.old }
    ensures { values.new ≡ over (taken ∷ length (header_values (plain header)) ∷ []) values.old }
{
    values[0] = taken as u64;
    values[1] = field_count(header) as u64;
}

// Reading back a job that was read: 12, then the work.
fn read_on(
    job: &[u8],
    header: Header,
    taken: usize,
    fields: &mut [u16],
    rates: &mut [u16],
    sizes: &mut [u16],
    distortions: &mut [u32],
    values: &mut [u64],
) -> Result<(), Refusal>
    requires { Opens job.now (plain header) }
    ensures { contents (code result) fields.new rates.new sizes.new distortions.new values.new ≡ read_held fields.old rates.old sizes.old distortions.old values.old (job_in job.now) taken }
{
    if !room(
        header,
        fields.len(),
        rates.len(),
        sizes.len(),
        distortions.len(),
        values.len(),
    ) {
        return Err(Refusal::List);
    }
    put_fields(header, fields);
    put_rates(job, header, rates);
    put_codings(job, header, sizes, distortions);
    put_values(header, taken, values);
    Ok(())
}

// Reads a job back by a door. Values: how many bytes it took, and how many fields its header has.
pub fn read_back(
    job: &[u8],
    door: Door,
    fields: &mut [u16],
    rates: &mut [u16],
    sizes: &mut [u16],
    distortions: &mut [u32],
    values: &mut [u64],
) -> Result<(), Refusal>
    ensures { contents (code result) fields.new rates.new sizes.new distortions.new values.new ≡ read_export fields.old rates.old sizes.old distortions.old values.old (door_of door) job.now }
{
    let Reading { header, taken } = job::read(job, door)?;
    read_on(
        job,
        header,
        taken,
        fields,
        rates,
        sizes,
        distortions,
        values,
    )
}
