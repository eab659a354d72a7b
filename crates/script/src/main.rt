// Answers a selection script: one line on standard output for each command on standard input.
#![tactic(auto)]

mod args;
mod digest;
mod fill;
mod make;
mod no;
mod obey;
mod page_ranges;
mod session;
mod slots;
mod tell;
mod write;

use crate::no::No;
use crate::session::Session;
use anyhow::anyhow;
use std::io::{BufRead, BufReader, BufWriter};

// Why the run ends early, with the number of the line.
fn told(line: u64, no: No) -> anyhow::Error {
    match no {
        No::Io(error) => error.into(),
        no => anyhow!("{no} for line {line}"),
    }
}

// Line by line, so that a script may be of any length. What was answered is written even where the run ends early.
fn main(rt: HostRuntime) -> anyhow::Result<()> {
    let heap = rt.alloc();
    let mut input = BufReader::new(heap, rt.stdin())?;
    let mut session = Session::new(heap, BufWriter::new(heap, rt.stdout())?)?;
    let mut line: Vec<u8> = Vec::new(heap);
    for number in 1..u64::MAX {
        line.clear();
        if input.read_until(b'\n', &mut line)? == 0 {
            break;
        }
        let words = line.strip_suffix(b"\n").unwrap_or(line.as_slice());
        if let Err(no) = session.answer(words) {
            let _ = session.flush();
            return Err(told(number, no));
        }
    }
    session.flush()?;
    Ok(())
}
