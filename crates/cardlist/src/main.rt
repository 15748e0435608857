// Reads a card from standard input and prints its listing, or the line of its refusal. A refusal ends with status 1.
#![tactic(auto)]

use bounds::limits::MOST_ITEMS;
use card::layout::{HEADER_BYTES, RECORD_BYTES};
use listing::{NotListed, list_card};
use std::io;
use std::io::{BufWriter, Read, Write};
use std::process::ExitCode;

// One byte more than the longest card has: a longer input is cut there, and then refused.
const MOST_BYTES: usize = HEADER_BYTES + RECORD_BYTES * MOST_ITEMS as usize + 1;

fn main(rt: HostRuntime) -> io::Result<ExitCode> {
    let mut bytes = Vec::new(rt.alloc());
    rt.stdin().take(MOST_BYTES as u64).read_to_end(&mut bytes)?;
    match list_card(rt.alloc(), &bytes) {
        Ok(text) => {
            print(&rt, &text)?;
            Ok(ExitCode::SUCCESS)
        }
        Err(NotListed::Refused(line)) => {
            print(&rt, &line)?;
            Ok(ExitCode::FAILURE)
        }
        Err(NotListed::Memory(error)) => Err(error.into()),
    }
}

// Prints a whole text.
// Three lines that `cardmake` has too: no crate stands below both programs that reads or writes.
fn print(rt: &HostRuntime, text: &str) -> io::Result<()> {
    let mut out = BufWriter::new(rt.alloc(), rt.stdout())?;
    out.write_all(text.as_bytes())?;
    out.flush()
}
