// Writing a job's bytes from its header and lists (document 02, E1). Everything is looked at before a byte is written.

#![tactic(auto)]

ghost use Rattle.std.specs.Prelude.{◌≡◌};
ghost use Rattle.header.specs.Answers.{plain};
ghost use Rattle.writing.specs.Calls.{write_call};
ghost use Rattle.writer.specs.Answers.{wrote};

use header::{Header, Refusal};

// Writes the job of a header, its rates, and sizes and distortions by unit and choice, unit after unit. Bytes behind the job stay as they are.
pub fn write_job(
    header: Header,
    rates: &[u16],
    sizes: &[u16],
    distortions: &[u32],
    out: &mut [u8],
) -> Result<usize, Refusal>
    ensures { wrote result out.new ≡ write_call (plain header) rates.now sizes.now distortions.now out.old }
{
    draft::write_refusal(header, rates, sizes, distortions, out.len())?;
    let size = draft::job_size(header);
    let front = header.record_size();
    let units = front + Header::HEAD + 2 * rates.len();
    records::put_header(out, header);
    records::put_rates(out, front, rates);
    records::put_units(out, units, header, sizes, distortions);
    Ok(size)
}
