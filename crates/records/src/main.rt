// Tries every call on device records that are read as bytes (docs/record-cases.md), and prints the number with which each record is
// refused. The functions of this program are proved to be safe and to end; the comparison checks what it prints.
#![tactic(auto)]

mod read;
mod tried;

ghost use Rattle.std.specs.Prelude.{◌≡◌, length};
ghost use Rattle.numbers.specs.Layout.{record_size};

use harness::LONGEST;
use std::io;
use tried::{Fault, Verdict};

// `REC2`
const MAGIC: u32 = 0x5245_4332;

// Reads the stream, and tries its records.
fn main(rt: HostRuntime) -> io::Result<()> {
    let mut stream = [0u8; LONGEST + 1];
    let n = harness::read_input(&rt, &mut stream)?;
    run(&rt, &stream[..n])
}

// Tries the records of a whole stream.
fn run(rt: &impl Print, s: &[u8]) -> io::Result<()> {
    if begins_well(s) {
        let mut numbers = [0u32; numbers::RECORD];
        try_all(rt, s, &mut numbers)
    } else {
        output::empty().text(b"bad script").print(rt)
    }
}

// Returns whether a stream is not too long and begins with the magic number.
fn begins_well(s: &[u8]) -> bool {
    4 <= s.len() && s.len() <= LONGEST && bigendian::read_u32(s, 0) == MAGIC
}

// Prints a line for each record, whose numbers are put into `numbers`; a bad record ends the list. The loop goes from byte to byte,
// since a record says where the next one begins.
fn try_all(rt: &impl Print, s: &[u8], numbers: &mut [u32]) -> io::Result<()>
    requires { length numbers.old ≡ record_size }
{
    let mut at: usize = 4;
    let mut i: u64 = 0;
    while at < s.len() {
        let Some(case) = read::record(s, at, numbers) else {
            return output::empty().text(b"bad record").print(rt);
        };
        print_verdict(rt, i, tried::on_memories(numbers, case))?;
        at = case.next;
        i += 1;
    }
    Ok(())
}

// Prints the line of record i.
fn print_verdict(rt: &impl Print, i: u64, verdict: Verdict) -> io::Result<()> {
    let line = output::empty().text(b"record ").decimal(i).space();
    match verdict {
        Ok(None) => line.decimal(0).print(rt),
        Ok(Some(refusal)) => line.decimal(u64::from(refusal.number())).print(rt),
        Err(Fault::Changed) => line.text(b"changed").print(rt),
        Err(Fault::Divided) => line.text(b"divided").print(rt),
    }
}
