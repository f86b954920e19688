// The records of a job as they are written: the header's, the rates' and the units' (document 02, E1).

#![tactic(auto)]

ghost use Rattle.std.specs.Prelude.{◌≡◌, [], ◌∷◌, ◌+◌, ◌*◌, ◌≤◌, length, replicate};
ghost use Rattle.format.specs.Fields.{spelled};
ghost use Rattle.format.specs.Limits.{AllKept};
ghost use Rattle.format.specs.Parser.{all_bytes};
ghost use Rattle.format.specs.Records.{record_bytes};
ghost use Rattle.format.specs.JobBytes.{header_limits, nine_values, unit_values, entry_widths, rates_form, header_bytes, unit_bytes};
ghost use Rattle.format.specs.Places.{header_size, rates_size, unit_size};
ghost use Rattle.header.specs.Answers.{policed_of, plain};
ghost use Rattle.writing.specs.Lists.{parted, codings_from};
ghost use Rattle.fields.specs.Written.{put_at};

use header::Header;

// Numbers one after another, two bytes each.
fn put_numbers(out: &mut [u8], at: usize, numbers: &[u16])
    requires { at + 2 * length numbers.now ≤ length out.old }
    ensures { out.new ≡ put_at out.old at (spelled (replicate (length numbers.now) 2) numbers.now) }
{
    let mut place = at;
    for number in numbers {
        fields::put16(out, place, *number);
        place += 2;
    }
}

// A unit's codings, each a size and a distortion.
fn put_codings(out: &mut [u8], at: usize, sizes: &[u16], distortions: &[u32])
    requires { (length sizes.now ≡ length distortions.now) × (at + 6 * length sizes.now ≤ length out.old) }
    ensures { out.new ≡ put_at out.old at (spelled (entry_widths (length sizes.now)) (unit_values (codings_from sizes.now distortions.now))) }
{
    let mut place = at;
    for x in 0..sizes.len() {
        let next = place + 2;
        fields::put16(out, place, sizes[x]);
        fields::put32(out, next, distortions[x]);
        place += 6;
    }
}

// A unit's record.
pub fn put_unit(out: &mut [u8], at: usize, sizes: &[u16], distortions: &[u32])
    requires { (length sizes.now ≡ length distortions.now) × (length sizes.now ≤ 1000) × (at + unit_size (length sizes.now) ≤ length out.old) }
    ensures { out.new ≡ put_at out.old at (unit_bytes (length sizes.now) (codings_from sizes.now distortions.now)) }
{
    let head = [2 + 6 * (sizes.len() as u16), Header::UNIT_KIND];
    let body = at + Header::HEAD;
    put_numbers(out, at, &head);
    put_codings(out, body, sizes, distortions);
}

// The records of all units, so many codings each.
pub fn put_units(out: &mut [u8], at: usize, header: Header, sizes: &[u16], distortions: &[u32])
    requires { AllKept (header_limits (plain header)) × (length sizes.now ≡ header.units * header.choices) × (length distortions.now ≡ header.units * header.choices) × (at + header.units * unit_size header.choices ≤ length out.old) }
    ensures { out.new ≡ put_at out.old at (all_bytes (unit_bytes header.choices) (parted header.units header.choices (codings_from sizes.now distortions.now))) }
{
    let choices = header.choices as usize;
    let size = Header::HEAD + 6 * choices;
    let mut from = 0;
    let mut place = at;
    for _ in 0..header.units {
        let to = from + choices;
        put_unit(out, place, &sizes[from..to], &distortions[from..to]);
        from = to;
        place += size;
    }
}

// The head of a header's record, and the nine fields that either kind has.
fn put_nine(out: &mut [u8], len: u16, kind: u16, header: Header)
    requires { 22 ≤ length out.old }
    ensures { out.new ≡ put_at out.old 0 (spelled (replicate 11 2) (len ∷ kind ∷ nine_values (plain header) (policed_of header.first) [])) }
{
    let nine = [
        len,
        kind,
        header.units,
        header.delay,
        header.decoder,
        header.first.size,
        header.first.drain,
        header.level,
        header.first.fill,
        header.rates,
        header.choices,
    ];
    put_numbers(out, 0, &nine);
}

// The header's record: of kind 1, or with two buckets of kind 8, where the second's fields stand behind the nine (document 02, E5).
pub fn put_header(out: &mut [u8], header: Header)
    requires { header_size (plain header) ≤ length out.old }
    ensures { out.new ≡ put_at out.old 0 (header_bytes (plain header)) }
{
    match header.second {
        None => put_nine(out, Header::LENGTH, Header::KIND, header),
        Some(bucket) => {
            let second = [bucket.size, bucket.drain, bucket.fill];
            put_nine(out, Header::TWO_LENGTH, Header::TWO_KIND, header);
            put_numbers(out, Header::SIZE, &second);
        }
    }
}

// The rates' record.
pub fn put_rates(out: &mut [u8], at: usize, rates: &[u16])
    requires { (length rates.now ≤ 1000) × (at + rates_size (length rates.now) ≤ length out.old) }
    ensures { out.new ≡ put_at out.old at (record_bytes (rates_form (length rates.now)) rates.now) }
{
    let head = [2 + 2 * (rates.len() as u16), Header::RATES_KIND];
    let body = at + Header::HEAD;
    put_numbers(out, at, &head);
    put_numbers(out, body, rates);
}
