// A surface as a P6 picture on standard output, for programs. `p6` and `samples` make every byte of it.
#![tactic(auto)]

ghost use Rattle.std.specs.Prelude.{◌+◌, ◌*◌, ◌≤◌, length};

use std::io;

// The widest surface that is written.
pub const WIDEST: u32 = 4096;

// Writes the surface of these sides that begins the pixels.
pub fn write(rt: &impl Print, pixels: &[u8], width: u32, height: u32) -> io::Result<()>
    requires width_bound { width ≤ 4096 }
    requires height_in_bounds { 2 * (width * height) ≤ length pixels.now }
{
    write_header(rt, width, height)?;
    let w = width as usize;
    if w == 0 {
        return Ok(()); // `chunks_exact` takes no length of 0
    }
    for row in pixels[..2 * w * height as usize].chunks_exact(2 * w) {
        write_row(rt, row)?;
    }
    Ok(())
}

// Writes the header, which has 29 bytes at most.
#[tactic(auto, using(p6::proofs::Decimal::header_few))]
fn write_header(rt: &impl Print, width: u32, height: u32) -> io::Result<()> {
    let mut bytes = [0u8; 32];
    let n = p6::put_header(&mut bytes, width, height);
    rt.write_all(&bytes[..n])
}

// Writes the samples of a row of pixels.
fn write_row(rt: &impl Print, row: &[u8]) -> io::Result<()>
    requires { length row.now ≤ 8192 }
{
    let mut bytes = [0u8; 12_288];
    let w = row.len() / 2;
    samples::put_rgb_run(row, w, &mut bytes, 0);
    rt.write_all(&bytes[..3 * w])
}
