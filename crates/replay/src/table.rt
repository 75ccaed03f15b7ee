// The loads and saves of a script.
ghost use Rattle.std.specs.Prelude.{◌+◌, ◌≤◌, length};

use crate::answer;
use save::Saving;
use std::io;

// The byte of a load, and that of a save.
const LOAD: u8 = 0x15;

const SAVE: u8 = 0x16;

// Loads the n bytes of the script from `start` on, and prints the load's line, if it is shown.
pub fn perform_load(
    rt: &impl Print,
    s: &[u8],
    start: usize,
    n: usize,
    shown: bool,
    device: &mut [u32],
    panel: &mut [u8],
    store: &mut [u8],
) -> io::Result<()>
    requires { start + n ≤ length s.now }
{
    let end = start + n;
    let a = load::load(device, &s[start..end], panel, store);
    answer::show(rt, LOAD, a, true, shown)
}

// Saves into an output of n bytes, and prints the save's line, if it is shown.
pub fn perform_save(
    rt: &impl Print,
    device: &[u32],
    n: usize,
    fill: u8,
    shown: bool,
) -> io::Result<()>
    requires { n ≤ 16384 }
{
    let mut out = [0u8; script::MAX_BYTES];
    save_into(rt, device, &mut out[0..n], fill, shown)
}

// Fills the output, saves into it, and prints the save's line, if it is shown.
fn save_into(
    rt: &impl Print,
    device: &[u32],
    out: &mut [u8],
    fill: u8,
    shown: bool,
) -> io::Result<()> {
    harness::fill(out, fill, 0);
    let saving = Saving::from(save::save(device, out));
    if shown {
        return print_save(rt, saving, crc32::crc32(out));
    }
    Ok(())
}

// Prints the line of a save: the table's length, 0 if it is refused, and the checksum of the whole output.
fn print_save(rt: &impl Print, saving: Saving, checksum: u32) -> io::Result<()> {
    output::empty()
        .hex2(SAVE)
        .space()
        .decimal(u64::from(saving.refusal))
        .space()
        .decimal(u64::from(saving.length))
        .space()
        .hex8(checksum)
        .print(rt)
}
