// The effective buffer sizes of a plan (document 01, "Levels, interval by interval").

#![tactic(auto)]

ghost use Rattle.std.specs.Prelude.{◌≡◌};
ghost use Rattle.model.specs.Levels.{effective_buffer, effective_buffers};
ghost use Rattle.format.specs.JobBytes.{job_in, Opens};
ghost use Rattle.header.specs.Answers.{plain};
ghost use Rattle.replaying.specs.Entries.{plan_of};
ghost use Rattle.base.specs.Lent.{over};
ghost use Rattle.replaying.specs.Calls.{report_call};
ghost use Rattle.course.specs.Answers.{Shaped};
ghost use Rattle.report.specs.Answers.{reported, Sums};

use header::{Door, Header, Refusal};

// What the first intervals send, so many as the delay has: (6) for i = 0.
fn first_sum(job: &[u8], header: Header, entries: &[u8]) -> u32
    requires { Shaped job.now (plain header) entries.now }
    ensures { result ≡ effective_buffer (job_in job.now) (plan_of (job_in job.now) entries.now) 0 }
{
    let delay = header.delay as usize;
    let mut sum = 0;
    for place in 0..delay {
        sum += course::sent_at(job, header, entries, place);
    }
    sum
}

// Writes the sums of (6) for i from 0 to N. Each follows from the one before it, so that a long delay costs no more than a short one: the rate that arrives is added, and the rate that leaves is taken off.
fn put_sums(job: &[u8], header: Header, entries: &[u8], sums: &mut [u32])
    requires { Sums job.now (plain header) entries.now sums.old }
    ensures { sums.new ≡ over (effective_buffers (job_in job.now) (plan_of (job_in job.now) entries.now)) sums.old }
{
    let units = header.units as usize;
    let delay = header.delay as usize;
    let mut sum = first_sum(job, header, entries);
    for i in 0..units {
        sums[i] = sum;
        let next = i + delay;
        let arrives = course::sent_at(job, header, entries, next);
        let leaves = course::sent_at(job, header, entries, i);
        // added first, so that the sum does not fall below 0 between the two
        sum = sum + arrives - leaves;
    }
    sums[units] = sum;
}

// A report for a job that was read: 14, then 12.
fn report_read(job: &[u8], header: Header, entries: &[u8], sums: &mut [u32]) -> Result<(), Refusal>
    requires { Opens job.now (plain header) }
    ensures { reported result sums.new ≡ report_call job.now entries.now sums.old }
{
    if !entry::shaped(header, entries) {
        return Err(Refusal::Plan);
    }
    if sums.len() <= header.units as usize {
        return Err(Refusal::List);
    }
    put_sums(job, header, entries, sums);
    Ok(())
}

// The effective buffer sizes of a plan, document 004 (6): to `sums` go, for i from 0 to N, what the d intervals after interval i send.
pub fn effective_buffers(job: &[u8], entries: &[u8], sums: &mut [u32]) -> Result<(), Refusal>
    ensures { reported result sums.new ≡ report_call job.now entries.now sums.old }
{
    let header = job::read(job, Door::Archive)?.header;
    report_read(job, header, entries, sums)
}
