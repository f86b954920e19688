// The lines of the printed plan, in document 01's format.
use header::{Choice, Header, Refusal};
use interval::Totals;
use std::io;

pub fn count(rt: HostRuntime, n: u64) -> io::Result<()> {
    print!(rt; "{n}")
}

// A number behind a space.
pub fn number(rt: HostRuntime, n: u64) -> io::Result<()> {
    print!(rt; " {n}")
}

pub fn end(rt: HostRuntime) -> io::Result<()> {
    println!(rt; "")
}

// The choice behind a space, or `-` where no unit is decoded.
pub fn choice(rt: HostRuntime, x: Choice) -> io::Result<()> {
    if x == header::NO_CHOICE {
        print!(rt; " -")
    } else {
        number(rt, x as u64)
    }
}

// N, T and how many words the table takes.
pub fn head(rt: HostRuntime, header: Header) -> io::Result<()> {
    print!(rt; "plan")?;
    number(rt, header.units as u64)?;
    number(rt, entry::intervals(header) as u64)?;
    number(rt, table::table_words(header) as u64)?;
    end(rt)
}

// Distortion, source size, channel size and the unused drain of each bucket.
pub fn total(rt: HostRuntime, totals: Totals) -> io::Result<()> {
    print!(rt; "total")?;
    number(rt, totals.distortion as u64)?;
    number(rt, totals.source as u64)?;
    number(rt, totals.channel as u64)?;
    number(rt, totals.unused as u64)?;
    if let Some(unused) = totals.unused2 {
        number(rt, unused as u64)?;
    }
    end(rt)
}

pub fn refused(rt: HostRuntime, refusal: Refusal) -> io::Result<()> {
    println!(rt; "refused {refusal}")
}
