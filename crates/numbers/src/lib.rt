// A set of pins as plain numbers in a list that the caller lends, as an editor's tool keeps it between calls: the kind of the header, its twelve fields, 512 pins, three totals.

#![tactic(auto)]

ghost use Rattle.std.specs.Prelude.{◌≡◌, true, ◌≤◌, length, get_or, take, drop};
ghost use Rattle.base.specs.Lent.{over, over_at};
ghost use Rattle.format.specs.JobBytes.{no_bucket, further_buckets, header_kind, header_of};
ghost use Rattle.header.specs.Answers.{policed_of, plain};
ghost use Rattle.pinning.specs.Numbers.{total_numbers, set_numbers, two_byte, one_kind, set_shaped, field_count, set_in};
ghost use Rattle.pinset.specs.Answers.{set_of};
ghost use Rattle.numbers.specs.Parts.{header_numbers, bucket_at_lem, SecondIn, FieldIn};

use header::{Bucket, Choice, Header};
use pinset::PinSet;

// How many numbers a set has, and the places of its first pin and of its totals.
pub const SIZE: usize = 528;

const PINS: usize = 13;

const COUNT: usize = 525;

const SIZES: usize = 526;

const DISTORTIONS: usize = 527;

// What is past every number of two bytes.
const PAST: u32 = 65536;

// Whether every field and every pin is a number of two bytes, so that none is cut short when it is read.
fn two_byte(list: &[u32]) -> bool
    requires { 528 ≤ length list.now }
    ensures { result ≡ two_byte list.now 1 524 }
{
    for number in &list[1..COUNT] {
        if PAST <= *number {
            return false;
        }
    }
    true
}

// Whether the numbers are those of a header with one bucket: nothing stands for a second one, so that a set has only one list of numbers.
fn one_kind(list: &[u32]) -> bool
    requires { 528 ≤ length list.now }
    ensures { result ≡ one_kind list.now }
{
    (list[0] == Header::KIND as u32) & (list[10] == 0) & (list[11] == 0) & (list[12] == 0)
}

// Whether the numbers may be a set's.
fn shaped(list: &[u32]) -> bool
    ensures { result ≡ set_shaped list.now }
{
    if list.len() < SIZE {
        return false;
    }
    if !two_byte(list) {
        return false;
    }
    if list[0] == Header::TWO_KIND as u32 {
        return true;
    }
    one_kind(list)
}

// The field or the pin in a place.
fn field(list: &[u32], place: usize) -> u16
    requires { FieldIn list.now place }
    ensures { result ≡ get_or list.now place 0 }
{
    list[place] as u16
}

// The bucket whose size, drain and starting level stand in these places.
fn bucket_in(list: &[u32], size: usize, drain: usize, fill: usize) -> Bucket
    requires { FieldIn list.now size × FieldIn list.now drain × FieldIn list.now fill }
    ensures { policed_of result ≡ bucket_at_lem list.now size drain fill }
{
    Bucket {
        size: field(list, size),
        drain: field(list, drain),
        fill: field(list, fill),
    }
}

// The second bucket, where the kind tells of one.
fn second_in(list: &[u32]) -> Option<Bucket>
    requires { set_shaped list.now ≡ true }
    ensures { SecondIn list.now result }
{
    if list[0] == Header::TWO_KIND as u32 {
        Some(bucket_in(list, 10, 11, 12))
    } else {
        None
    }
}

// The header.
fn header_in(list: &[u32]) -> Header
    requires { set_shaped list.now ≡ true }
    ensures { plain result ≡ header_of (take (field_count list.now) (drop 1 list.now)) }
{
    Header {
        units: field(list, 1),
        delay: field(list, 2),
        decoder: field(list, 3),
        level: field(list, 6),
        first: bucket_in(list, 4, 5, 7),
        second: second_in(list),
        rates: field(list, 8),
        choices: field(list, 9),
    }
}

// The pins.
fn pins_in(list: &[u32]) -> [Choice; 512]
    requires { set_shaped list.now ≡ true }
    ensures { result ≡ take 512 (drop 13 list.now) }
{
    let mut pins = [0u16; 512];
    for (place, pin) in pins.iter_mut().enumerate() {
        let from = PINS + place;
        *pin = field(list, from);
    }
    pins
}

// The set that stands in a list; numbers that are no set's are read as the set of no job, which no call takes.
pub fn set_in(list: &[u32]) -> PinSet
    ensures { set_of result ≡ set_in list.now }
{
    if !shaped(list) {
        return PinSet::fresh(pins::no_header());
    }
    PinSet {
        header: header_in(list),
        pins: pins_in(list),
        count: list[COUNT],
        size: list[SIZES],
        distortion: list[DISTORTIONS],
    }
}

// The kind of the record that a job has its header in.
fn kind_of(header: Header) -> u16
    ensures { result ≡ header_kind (further_buckets (plain header)) }
{
    match header.second {
        None => Header::KIND,
        Some(_) => Header::TWO_KIND,
    }
}

// The second bucket, or zeros where there is none.
fn second_of(header: Header) -> Bucket
    ensures { policed_of result ≡ get_or (plain header).buckets 1 no_bucket }
{
    match header.second {
        None => Bucket {
            size: 0,
            drain: 0,
            fill: 0,
        },
        Some(second) => second,
    }
}

// Writes a header's kind and its twelve fields to the front of a list.
fn put_header(header: Header, list: &mut [u32])
    requires { 13 ≤ length list.old }
    ensures { list.new ≡ over (header_numbers (plain header)) list.old }
{
    let first = header.first;
    let second = second_of(header);
    list[0] = kind_of(header) as u32;
    list[1] = header.units as u32;
    list[2] = header.delay as u32;
    list[3] = header.decoder as u32;
    list[4] = first.size as u32;
    list[5] = first.drain as u32;
    list[6] = header.level as u32;
    list[7] = first.fill as u32;
    list[8] = header.rates as u32;
    list[9] = header.choices as u32;
    list[10] = second.size as u32;
    list[11] = second.drain as u32;
    list[12] = second.fill as u32;
}

// Writes the pins to their place.
fn put_pins(pins: &[Choice; 512], list: &mut [u32])
    requires { (length pins.now ≡ 512) × (525 ≤ length list.old) }
    ensures { list.new ≡ over_at 13 pins.now list.old }
{
    for (place, pin) in pins.iter().enumerate() {
        let to = PINS + place;
        list[to] = u32::from(*pin);
    }
}

// Writes the totals to theirs.
fn put_totals(set: PinSet, list: &mut [u32])
    requires { 528 ≤ length list.old }
    ensures { list.new ≡ over_at 525 (total_numbers (set_of set).totals) list.old }
{
    list[COUNT] = set.count;
    list[SIZES] = set.size;
    list[DISTORTIONS] = set.distortion;
}

// Writes a set to the front of a list.
pub fn put_set(set: PinSet, list: &mut [u32])
    requires { 528 ≤ length list.old }
    ensures { list.new ≡ over (set_numbers (set_of set)) list.old }
{
    let pins = set.pins;
    put_header(set.header, list);
    put_pins(&pins, list);
    put_totals(set, list);
}
