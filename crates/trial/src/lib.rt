// Trial jobs (document 02, E11): the same large job on every machine, drawn from a starting state and written by the functions for each record that the writer has too.

#![tactic(auto)]

ghost use Rattle.std.specs.Prelude.{◌≡◌, ◌+◌, ◌*◌, ◌/◌, ◌%◌, ◌≤◌, length};
ghost use Rattle.base.specs.Lists.{build};
ghost use Rattle.format.specs.Limits.{AllKept};
ghost use Rattle.format.specs.Parser.{all_bytes};
ghost use Rattle.format.specs.Records.{record_bytes};
ghost use Rattle.format.specs.JobBytes.{header_limits, rates_form, unit_bytes};
ghost use Rattle.format.specs.Places.{rates_size, unit_size};
ghost use Rattle.fields.specs.Written.{put_at};
ghost use Rattle.header.specs.Answers.{plain, verdict};
ghost use Rattle.writing.specs.Lists.{parted, codings_from};
ghost use Rattle.writer.specs.Answers.{wrote};
ghost use Rattle.trials.specs.Draws.{next, after, rate_drawn, size_drawn, distortion_drawn};
ghost use Rattle.trials.specs.Calls.{trial_refusal, trial_call};

use header::{Door, Header, Refusal};

// The next state is this many times the state, and so much more.
const TIMES: u32 = 1664525;

const MORE: u32 = 1013904223;

// How many rates a job may have, and how many choices a unit.
const MOST_RATES: usize = Header::MAX_RATES as usize;

const MOST_CHOICES: usize = Header::MAX_CHOICES as usize;

// The state after a draw.
fn next_state(state: u32) -> u32
    ensures { result ≡ next state }
{
    state.wrapping_mul(TIMES).wrapping_add(MORE)
}

// The draw that led to a state: its upper half, since the lower bits of such a state repeat soon.
fn upper_half(state: u32) -> u16
    ensures { result ≡ state / 65536 }
{
    (state / 65536) as u16
}

// Draws rates that rise by 1 to 4. Answers the state after them.
fn draw_rates(rates: &mut [u16], state: u32) -> u32
    requires { length rates.old ≤ 16 }
    ensures { (rates.new ≡ build (length rates.old) (rate_drawn state)) × (result ≡ after (length rates.old) state) }
{
    let mut drawn = state;
    let mut low = 0;
    for rate in rates.iter_mut() {
        drawn = next_state(drawn);
        let risen = low + upper_half(drawn) % 4;
        *rate = risen;
        low = risen + 1;
    }
    drawn
}

// Draws sizes and distortions in turn. Answers the state after them.
fn draw_codings(sizes: &mut [u16], distortions: &mut [u32], state: u32) -> u32
    requires { length sizes.old ≡ length distortions.old }
    ensures { (sizes.new ≡ build (length sizes.old) (size_drawn state)) × (distortions.new ≡ build (length sizes.old) (distortion_drawn state)) × (result ≡ after (2 * length sizes.old) state) }
{
    let mut drawn = state;
    for x in 0..sizes.len() {
        let first = next_state(drawn);
        let second = next_state(first);
        sizes[x] = upper_half(first) % 64;
        distortions[x] = upper_half(second) as u32;
        drawn = second;
    }
    drawn
}

// The record of as many rates as there is room for, which are drawn. Answers the state after them.
fn put_drawn_rates(out: &mut [u8], at: usize, rates: &mut [u16], state: u32) -> u32
    requires { (length rates.old ≤ 16) × (at + rates_size (length rates.old) ≤ length out.old) }
    ensures { (out.new ≡ put_at out.old at (record_bytes (rates_form (length rates.old)) (build (length rates.old) (rate_drawn state)))) × (result ≡ after (length rates.old) state) }
{
    let drawn = draw_rates(rates, state);
    records::put_rates(out, at, rates);
    drawn
}

// The record of a unit with as many choices as there is room for, whose codings are drawn. Answers the state after them.
fn put_drawn_unit(
    out: &mut [u8],
    at: usize,
    sizes: &mut [u16],
    distortions: &mut [u32],
    state: u32,
) -> u32
    requires { (length sizes.old ≡ length distortions.old) × (length sizes.old ≤ 1000) × (at + unit_size (length sizes.old) ≤ length out.old) }
    ensures { (out.new ≡ put_at out.old at (unit_bytes (length sizes.old) (codings_from (build (length sizes.old) (size_drawn state)) (build (length sizes.old) (distortion_drawn state))))) × (result ≡ after (2 * length sizes.old) state) }
{
    let drawn = draw_codings(sizes, distortions, state);
    records::put_unit(out, at, sizes, distortions);
    drawn
}

// The same with room of its own for so many choices.
fn put_next_unit(out: &mut [u8], at: usize, choices: usize, state: u32) -> u32
    requires { (choices ≤ 1000) × (at + unit_size choices ≤ length out.old) }
    ensures { (out.new ≡ put_at out.old at (unit_bytes choices (codings_from (build choices (size_drawn state)) (build choices (distortion_drawn state))))) × (result ≡ after (2 * choices) state) }
{
    let mut sizes = [0; MOST_CHOICES];
    let mut distortions = [0; MOST_CHOICES];
    put_drawn_unit(
        out,
        at,
        &mut sizes[0..choices],
        &mut distortions[0..choices],
        state,
    )
}

// The records of all units.
fn put_drawn_units(out: &mut [u8], at: usize, header: Header, state: u32)
    requires { AllKept (header_limits (plain header)) × (at + header.units * unit_size header.choices ≤ length out.old) }
    ensures { out.new ≡ put_at out.old at (all_bytes (unit_bytes header.choices) (parted header.units header.choices (codings_from (build (header.units * header.choices) (size_drawn state)) (build (header.units * header.choices) (distortion_drawn state))))) }
{
    let choices = header.choices as usize;
    let size = Header::HEAD + 6 * choices;
    let mut drawn = state;
    let mut place = at;
    for _ in 0..header.units {
        drawn = put_next_unit(out, place, choices, drawn);
        place += size;
    }
}

// What refuses a trial job that is to be written to so many bytes: 3, then 17 for the header, then 12.
pub fn trial_refusal(header: Header, out: usize) -> Result<(), Refusal>
    ensures { verdict result ≡ trial_refusal (plain header) out }
{
    header.verdict()?;
    header.drains_verdict(Door::Opening)?;
    if out < draft::job_size(header) {
        return Err(Refusal::List);
    }
    Ok(())
}

// Writes the trial job of a header and a starting state. Bytes behind the job stay as they are.
pub fn write_trial(header: Header, state: u32, out: &mut [u8]) -> Result<usize, Refusal>
    ensures { wrote result out.new ≡ trial_call (plain header) state out.old }
{
    trial_refusal(header, out.len())?;
    let size = draft::job_size(header);
    let front = header.record_size();
    let count = header.rates as usize;
    let units = front + Header::HEAD + 2 * count;
    let mut rates = [0; MOST_RATES];
    records::put_header(out, header);
    let drawn = put_drawn_rates(out, front, &mut rates[0..count], state);
    put_drawn_units(out, units, header, drawn);
    Ok(size)
}
