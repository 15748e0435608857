// Reads a job as text from standard input and writes its card to standard output. A wrong text or a refusal is told on standard error, and ends with status 1.
#![tactic(auto)]

use bounds::limits::MOST_ITEMS;
use bounds::{Reason, Rows};
use card::layout::{HEADER_BYTES, RECORD_BYTES};
use card::write_card;
use jobtext::job::MOST_BYTES;
use jobtext::{Job, read_job};
use std::io;
use std::io::{BufWriter, Read, Write};
use std::process::ExitCode;

// The bytes of the longest card.
const MOST_CARD_BYTES: usize = HEADER_BYTES + RECORD_BYTES * MOST_ITEMS as usize;

// One byte more than the longest text has: a longer input is cut there, and then refused.
const MOST_INPUT: u64 = MOST_BYTES as u64 + 1;

fn main(rt: HostRuntime) -> io::Result<ExitCode> {
    let mut text = Vec::new(rt.alloc());
    rt.stdin().take(MOST_INPUT).read_to_end(&mut text)?;
    match read_job(rt.alloc(), &text) {
        Ok(job) => make_card(&rt, &job),
        Err(error) => {
            eprintln!(rt; "{error}")?;
            Ok(ExitCode::FAILURE)
        }
    }
}

// Writes the card of a job to standard output, or tells its refusal.
fn make_card(rt: &HostRuntime, job: &Job) -> io::Result<ExitCode> {
    let mut bytes = [0u8; MOST_CARD_BYTES];
    match write_card(&Rows::new(job.steps, &job.rows), &mut bytes) {
        Ok(size) => {
            print(rt, &bytes[0..size])?;
            Ok(ExitCode::SUCCESS)
        }
        Err(refusal) => {
            let told = refusal.told();
            eprintln!(rt; "{told}")?;
            Ok(ExitCode::FAILURE)
        }
    }
}

// Writes bytes to standard output.
// Three lines that `cardlist` has too: no crate stands below both programs that reads or writes.
fn print(rt: &HostRuntime, bytes: &[u8]) -> io::Result<()> {
    let mut out = BufWriter::new(rt.alloc(), rt.stdout())?;
    out.write_all(bytes)?;
    out.flush()
}
