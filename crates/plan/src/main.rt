// Prints the best plan of the job on standard input, with the pins that the command records behind it set and lift (document 01, "The printed plan").

#![tactic(auto)]

mod print;

ghost use Rattle.std.specs.Prelude.{◌≡◌, ◌+◌, ◌*◌, ◌≤◌, length};
ghost use Rattle.replaying.specs.Entries.{entry_size};

use header::{Choice, Door, Header};
use interval::Totals;
use std::io;

// The most intervals that a job has.
const MOST_INTERVALS: usize = 576;

// The most levels that an interval has: the decoder's and two buckets'.
const MOST_LEVELS: usize = 3;

fn print_level(rt: HostRuntime, level: u16) -> io::Result<()> {
    print::number(rt, level as u64)
}

// The levels that an interval leads to, so many from a place on: the decoder's, then each bucket's.
fn print_levels(rt: HostRuntime, levels: &[u16], at: usize, each: usize) -> io::Result<()>
    requires { at + each ≤ length levels.now }
{
    let end = at + each;
    for place in at..end {
        print_level(rt, levels[place])?;
    }
    Ok(())
}

// The line of an interval begins with its number, what it sends, and its choice or `-`.
fn print_entry(rt: HostRuntime, number: u64, sent: u16, choice: Choice) -> io::Result<()> {
    print::count(rt, number)?;
    print::number(rt, sent as u64)?;
    print::choice(rt, choice)
}

fn print_intervals(rt: HostRuntime, job: &[u8], header: Header, entries: &[u8]) -> io::Result<()>
    requires { (header.units + header.delay ≤ 576) × (length entries.now ≡ entry_size * 576) }
{
    let total = entry::intervals(header);
    let start = 0;
    let end = entry::SIZE * total;
    // levels do not depend on pins, and the set that opening answers has none
    let opened = pins::open(job, Door::Opening);
    let set = opened.set;
    let each = replay::levels_each(header);
    let mut levels = [0u16; MOST_LEVELS * MOST_INTERVALS];
    // the plan was found: only its levels are asked
    let _ = replay::replay(job, set, &entries[start..end], &mut levels);
    for place in 0..total {
        let entry = entry::entry_at(entries, place);
        let number = place as u64 + 1;
        let sent = header::rate_at(job, header, entry.rate as u16);
        print_entry(rt, number, sent, entry.choice)?;
        print_levels(rt, &levels, each * place, each)?;
        print::end(rt)?;
    }
    Ok(())
}

fn print_plan(rt: HostRuntime, job: &[u8], entries: &[u8], totals: Totals) -> io::Result<()>
    requires { length entries.now ≡ entry_size * 576 }
{
    match job::read(job, Door::Opening) {
        Err(refusal) => print::refused(rt, refusal),
        Ok(reading) => {
            print::head(rt, reading.header)?;
            print_intervals(rt, job, reading.header, entries)?;
            print::total(rt, totals)
        }
    }
}

fn main(rt: HostRuntime) -> io::Result<()> {
    // one byte more than the program takes, so that longer input is seen
    let mut input = [0u8; 32769];
    let n = intake::fill(&mut rt.reader(), &mut input)?;
    let mut table = [0u32; 16384];
    let mut entries = [0u8; entry::SIZE * MOST_INTERVALS];
    match commands::plan_input(&input[..n], &mut table, &mut entries) {
        Err(refusal) => print::refused(rt, refusal),
        Ok(totals) => print_plan(rt, &input[..n], &entries, totals),
    }
}
