// What the test programs share: their input, and a memory filled before it is used.
#![tactic(auto)]

ghost use Rattle.std.specs.Prelude.{IfOk};
ghost use Rattle.harness.specs.Counts.{IsPrefixLen};

use std::io;
use std::io::Read;

// The longest input; a longer one is bad.
pub const LONGEST: usize = 1_048_576;

// Reads standard input, at most one byte more than the longest. Returns how many bytes were read.
pub fn read_input(rt: &impl Input, s: &mut [u8; LONGEST + 1]) -> io::Result<usize>
    ensures { IfOk result (λ n. IsPrefixLen n s.new) }
{
    read_full(rt, s)
}

// Reads standard input until buf is full or the input ends, and returns how many bytes it put at the start of buf. On an
// empty buf it makes no call.
pub fn read_full(rt: &impl Input, buf: &mut [u8]) -> io::Result<usize>
    ensures { IfOk result (λ n. IsPrefixLen n buf.new) }
{
    // a loop over `read`: `read_exact` takes an early end for an error, and `read_to_end` takes a heap
    let mut reader = rt.reader();
    let mut done = 0;
    while done < buf.len() {
        let n = reader.read(&mut buf[done..])?;
        if n == 0 {
            break;
        }
        done += n;
    }
    Ok(done)
}

// Fills a memory with bytes that begin at `first` and rise by `step`, and begin again every 251 bytes; with step 0 all are `first`.
pub fn fill(mem: &mut [u8], first: u8, step: u8) {
    for (k, byte) in mem.iter_mut().enumerate() {
        *byte = first.wrapping_add(step.wrapping_mul((k % 251) as u8));
    }
}
