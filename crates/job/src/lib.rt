// A job's bytes (document 01, "The job's bytes"): opening them.

#![tactic(auto)]

ghost use Rattle.std.specs.Prelude.{◌≡◌, [], ◌∷◌, ◌*◌, ◌≤◌, eqb, length, drop, replicate};
ghost use Rattle.format.specs.Fields.{fields};
ghost use Rattle.format.specs.Limits.{limit, broken, AllKept};
ghost use Rattle.format.specs.Parser.{further, many, refusal_of, with_value};
ghost use Rattle.format.specs.Records.{head_limits, record_due, plain_form};
ghost use Rattle.format.specs.JobBytes.{header_form, header_limits, rate_limits, coding_limits, codings, entry_widths, header_in, unit_parser, parse};
ghost use Rattle.format.specs.Places.{field_at};
ghost use Rattle.header.specs.Answers.{extra, plain, door_of, verdict};
ghost use Rattle.job.specs.Answers.{header_refusal, form_of, Small, reading, shape, answering};

use header::{Door, Header, Refusal};

// The record that is due: a header with one bucket or with two, so many rates, a unit with so many codings, or so many fields of two bytes with any values.
#[derive(Clone, Copy)]
enum Due {
    Header,
    TwoBuckets,
    Rates(u16),
    Unit(u16),
    Plain { kind: u16, fields: u8 },
}

// What a job that is taken begins with: its header, and how many bytes the job took.
#[derive(Clone, Copy, Debug, PartialEq, Eq)]
pub struct Reading {
    pub header: Header,
    pub taken: usize,
}

// 2 where a record's length or kind is not the one due.
fn head_verdict(due: Due, len: u16, kind: u16) -> Result<(), Refusal>
    requires { Small due }
    ensures { verdict result ≡ broken (head_limits (form_of due) (len ∷ kind ∷ [])) }
{
    match due {
        Due::Header => match kind {
            Header::KIND => same_length(len, Header::LENGTH),
            _ => Err(Refusal::NotDue),
        },
        Due::TwoBuckets => match kind {
            Header::TWO_KIND => same_length(len, Header::TWO_LENGTH),
            _ => Err(Refusal::NotDue),
        },
        Due::Rates(n) => match kind {
            Header::RATES_KIND => same_length(len, 2 + 2 * n),
            _ => Err(Refusal::NotDue),
        },
        Due::Unit(n) => match kind {
            Header::UNIT_KIND => same_length(len, 2 + 6 * n),
            _ => Err(Refusal::NotDue),
        },
        Due::Plain { kind: own, fields } => {
            if kind != own {
                return Err(Refusal::NotDue);
            }
            same_length(len, 2 + 2 * (fields as u16))
        }
    }
}

fn same_length(len: u16, due: u16) -> Result<(), Refusal>
    ensures { verdict result ≡ broken (limit 2 due due len ∷ []) }
{
    if len == due {
        Ok(())
    } else {
        Err(Refusal::NotDue)
    }
}

// What the record at the front is refused for before its fields are looked at: 1, 2 and 1 of document 01's table.
fn shape_verdict(rest: &[u8], due: Due) -> Result<(), Refusal>
    requires { Small due }
    ensures { verdict result ≡ shape (form_of due) rest.now }
{
    if rest.len() < Header::HEAD {
        return Err(Refusal::Cut);
    }
    let len = fields::u16_at(rest, 0);
    let kind = fields::u16_at(rest, 2);
    head_verdict(due, len, kind)?;
    let body = rest.len() - Header::HEAD;
    // the length counts the kind, which stands in the head
    if body + 2 < len as usize {
        return Err(Refusal::Cut);
    }
    Ok(())
}

// 4 where a rate is over 4,095 or does not rise.
fn rates_verdict(body: &[u8], rates: u16) -> Result<(), Refusal>
    requires { 2 * rates ≤ length body.now }
    ensures { verdict result ≡ broken (rate_limits 0 (fields (replicate rates 2) body.now)) }
{
    let count = rates as usize;
    let mut low = 0;
    for i in 0..count {
        let at = 2 * i;
        let rate = fields::u16_at(body, at);
        if !header::rate_fits(low, rate) {
            return Err(Refusal::Rates);
        }
        low = rate + 1;
    }
    Ok(())
}

// 5 where a size or a distortion is over its limit.
fn codings_verdict(body: &[u8], choices: u16) -> Result<(), Refusal>
    requires { 6 * choices ≤ length body.now }
    ensures { verdict result ≡ broken (coding_limits (codings (fields (entry_widths choices) body.now))) }
{
    let count = choices as usize;
    for x in 0..count {
        let at = 6 * x;
        let next = at + 2;
        if !header::coding_fits(fields::u16_at(body, at), fields::u32_at(body, next)) {
            return Err(Refusal::Codings);
        }
    }
    Ok(())
}

// The record that is due, whole: its head, its body's presence, its fields.
fn record_verdict(rest: &[u8], due: Due) -> Result<(), Refusal>
    requires { Small due }
    ensures { verdict result ≡ refusal_of (record_due (form_of due) rest.now) }
{
    shape_verdict(rest, due)?;
    let head = Header::HEAD;
    let body = &rest[head..];
    match due {
        Due::Header => Header::of(body, false).verdict(),
        Due::TwoBuckets => Header::of(body, true).verdict(),
        Due::Rates(n) => rates_verdict(body, n),
        Due::Unit(n) => codings_verdict(body, n),
        Due::Plain { .. } => Ok(()),
    }
}

// A record of so many fields of two bytes, with any values.
pub fn plain_verdict(rest: &[u8], kind: u16, fields: u8) -> Result<(), Refusal>
    ensures { verdict result ≡ refusal_of (record_due (plain_form kind fields) rest.now) }
{
    record_verdict(rest, Due::Plain { kind, fields })
}

// The units' records, the first of which starts at `start`.
fn read_units(job: &[u8], header: Header, start: usize) -> Result<Reading, Refusal>
    requires { (start ≤ length job.now) × AllKept (header_limits (plain header)) }
    ensures { reading result ≡ answering (plain header) (further start (many header.units (unit_parser header.choices) (drop start job.now))) }
{
    let units = header.units;
    let choices = header.choices;
    let size = Header::HEAD + 6 * (choices as usize);
    let mut at = start;
    for _ in 0..units {
        record_verdict(&job[at..], Due::Unit(choices))?;
        at += size;
    }
    Ok(Reading { header, taken: at })
}

// Of the two headers that may be due, the kind tells which.
fn tells_two(job: &[u8]) -> bool
    ensures { result ≡ eqb (field_at 2 job.now 2) 8 }
{
    fields::field16(job, 2) == Header::TWO_KIND
}

// The header's record, with one bucket or with two.
fn header_record(job: &[u8], two: bool) -> Result<(), Refusal>
    ensures { verdict result ≡ refusal_of (record_due (header_form (extra two)) job.now) }
{
    if two {
        record_verdict(job, Due::TwoBuckets)
    } else {
        record_verdict(job, Due::Header)
    }
}

// And its drains, by the door: before the next record is looked at.
fn header_verdict(job: &[u8], two: bool, door: Door) -> Result<(), Refusal>
    ensures { verdict result ≡ header_refusal (door_of door) two job.now }
{
    header_record(job, two)?;
    let body = Header::HEAD;
    Header::of(&job[body..], two).drains_verdict(door)
}

// Reading a job by either door: the header and how many bytes the job took, or the first refusal. Bytes behind the job are not looked at.
pub fn read(job: &[u8], door: Door) -> Result<Reading, Refusal>
    ensures { reading result ≡ with_value header_in (parse (door_of door) job.now) }
{
    let two = tells_two(job);
    header_verdict(job, two, door)?;
    let body = Header::HEAD;
    let header = Header::of(&job[body..], two);
    let rates = header.rates;
    let at = header.record_size();
    record_verdict(&job[at..], Due::Rates(rates))?;
    let start = at + Header::HEAD + 2 * (rates as usize);
    read_units(job, header, start)
}
