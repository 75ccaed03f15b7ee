// Reads a picture's sides and pixels from standard input, and writes it as a P6 picture, or `no picture`.
#![tactic(auto)]

use std::io;

// Reads the input, and one byte more if it is too long.
fn main(rt: HostRuntime) -> io::Result<()> {
    let mut input = [0u8; pixmap::LONGEST_INPUT + 1];
    let n = harness::read_full(&rt, &mut input)?;
    let mut out = [0u8; pixmap::LONGEST_PICTURE];
    let end = pixmap::write_picture(&input[..n], &mut out);
    rt.write_all(&out[..end])
}
