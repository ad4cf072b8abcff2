// Answers in text.

use evidence::joins::Joined;
use limits::refusal::Refusal;
use std::io;

fn refused(rt: &impl Print, refusal: Refusal) -> io::Result<()> {
    let number = u32::from(refusal);
    print!(rt; "refused {number}")
}

pub(crate) fn end_line(rt: &impl Print) -> io::Result<()> {
    println!(rt)
}

pub(crate) fn cells(rt: &impl Print, cells: &[u32]) -> io::Result<()> {
    print!(rt; ":")?;
    for cell in cells {
        print!(rt; " {cell}")?;
    }
    Ok(())
}

// The bits of a rate. No rate is a NaN, which alone has no pattern of its own.
fn bits(rt: &impl Print, r: f64) -> io::Result<()> {
    if !r.is_nan() {
        let pattern = r.to_bits();
        print!(rt; "{pattern:016x}")?;
    }
    Ok(())
}

pub(crate) fn rate(rt: &impl Print, answer: Result<f64, Refusal>) -> io::Result<()> {
    match answer {
        Ok(r) => {
            print!(rt; "rate ")?;
            bits(rt, r)
        }
        Err(refusal) => refused(rt, refusal),
    }
}

pub(crate) fn spans(rt: &impl Print, answer: Result<usize, Refusal>) -> io::Result<()> {
    match answer {
        Ok(count) => print!(rt; "spans {count}"),
        Err(refusal) => refused(rt, refusal),
    }
}

pub(crate) fn joins(rt: &impl Print, answer: Result<Joined, Refusal>) -> io::Result<()> {
    match answer {
        Ok(joined) => {
            let start = u8::from(joined.start);
            let end = u8::from(joined.end);
            print!(rt; "joins {start} {end}")
        }
        Err(refusal) => refused(rt, refusal),
    }
}

pub(crate) fn tail(rt: &impl Print, answer: Result<bool, Refusal>) -> io::Result<()> {
    match answer {
        Ok(creaky) => {
            let creaky = u8::from(creaky);
            print!(rt; "creaky {creaky}")
        }
        Err(refusal) => refused(rt, refusal),
    }
}

pub(crate) fn stage(rt: &impl Print, boundaries: &[u32]) -> io::Result<()> {
    let count = boundaries.len();
    print!(rt; "stage {count}")?;
    cells(rt, boundaries)?;
    end_line(rt)
}
