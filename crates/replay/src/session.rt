// A script's device from open to its end, on lent memories.
ghost use Rattle.std.specs.Prelude.{◌≡◌, ◌≤◌, length};
ghost use Rattle.numbers.specs.Layout.{record_size};
ghost use Rattle.replay.specs.Calls.{CallBytes};

use crate::{answer, state, table};
use script::{Entry, Header};
use std::io;

// The byte of a text.
const TEXT: u8 = 0x0F;

// The bytes of a text in front of its units.
const BEFORE_UNITS: usize = 17;

// Runs a script on the first bytes of the memories, as many as the header asks for.
pub fn on_parts(
    rt: &impl Print,
    s: &[u8],
    h: Header,
    picture: bool,
    device: &mut [u32],
    panel: &mut [u8],
    store: &mut [u8],
) -> io::Result<()>
    requires device_len { length device.old ≡ record_size }
    requires panel_len_in_bounds { (h.panel_len ≤ length panel.old) × (h.store_len ≤ length store.old) }
{
    let panel_len = h.panel_len as usize;
    let store_len = h.store_len as usize;
    run(
        rt,
        s,
        h,
        picture,
        device,
        &mut panel[0..panel_len],
        &mut store[0..store_len],
    )
}

// Runs a script on whole memories.
fn run(
    rt: &impl Print,
    s: &[u8],
    h: Header,
    picture: bool,
    device: &mut [u32],
    panel: &mut [u8],
    store: &mut [u8],
) -> io::Result<()>
    requires { length device.old ≡ record_size }
{
    harness::fill(panel, h.fill, 0);
    harness::fill(store, h.fill, 0);
    let refusal = refusals::number_in(open::open(device, panel, store, h.width, h.height));
    if picture {
        write_picture(rt, s, h, refusal, device, panel, store)
    } else {
        print_lines(rt, s, h, refusal, device, panel, store)
    }
}

// Prints the number with which open is refused, 0 if it is not.
fn print_open(rt: &impl Print, refusal: u32) -> io::Result<()> {
    output::empty()
        .text(b"open ")
        .decimal(refusal as u64)
        .print(rt)
}

// Prints the line of open, the lines of the calls unless open was refused, and the state lines.
fn print_lines(
    rt: &impl Print,
    s: &[u8],
    h: Header,
    refusal: u32,
    device: &mut [u32],
    panel: &mut [u8],
    store: &mut [u8],
) -> io::Result<()>
    requires { length device.old ≡ record_size }
{
    print_open(rt, refusal)?;
    if refusal != 0 {
        return state::print(rt, device, panel, store, h.requests);
    }
    perform_all(rt, s, h, true, device, panel, store)?;
    state::print(rt, device, panel, store, h.requests)
}

// Writes the panel after the calls as a picture, or prints the line of open if it was refused.
fn write_picture(
    rt: &impl Print,
    s: &[u8],
    h: Header,
    refusal: u32,
    device: &mut [u32],
    panel: &mut [u8],
    store: &mut [u8],
) -> io::Result<()>
    requires { length device.old ≡ record_size }
{
    if refusal != 0 {
        return print_open(rt, refusal);
    }
    perform_all(rt, s, h, false, device, panel, store)?;
    write_panel(rt, panel, device[numbers::WIDTH], device[numbers::HEIGHT])
}

// Writes a panel of these sides as a picture, if it has the bytes for them.
fn write_panel(rt: &impl Print, panel: &[u8], width: u32, height: u32) -> io::Result<()> {
    if picture::WIDEST < width {
        return Ok(());
    }
    if panel.len() / 2 < (width as usize) * (height as usize) {
        return Ok(());
    }
    picture::write(rt, panel, width, height)
}

// Performs call after call, up to the end of the script or a bad call. If they are shown, prints each call, and the state
// lines where a look asks for them.
fn perform_all(
    rt: &impl Print,
    s: &[u8],
    h: Header,
    shown: bool,
    device: &mut [u32],
    panel: &mut [u8],
    store: &mut [u8],
) -> io::Result<()>
    requires { length device.old ≡ record_size }
{
    let mut units = [0u16; script::MAX_UNITS];
    let mut at = script::HEADER;
    while at < s.len() {
        match script::read_call(s, h.requests, at) {
            Some(Entry::Look) => {
                state::show(rt, device, panel, store, h.requests, shown)?;
                at += 1;
            }
            Some(Entry::Call(call, next)) => {
                let n = take_units(s, at, next, &mut units);
                let a = perform::perform(device, call, &units[0..n], panel, store);
                answer::show(rt, s[at], a, h.requests, shown)?;
                at = next;
            }
            Some(Entry::Load(start, n)) => {
                table::perform_load(rt, s, start, n, shown, device, panel, store)?;
                at = start + n;
            }
            Some(Entry::Save(n, next)) => {
                table::perform_save(rt, device, n, h.fill, shown)?;
                at = next;
            }
            None => return show_bad_call(rt, shown),
        }
    }
    Ok(())
}

// Puts the units of a text, whose bytes end before `next`, at the front of `units`. Returns their number, 0 for another call.
fn take_units(s: &[u8], at: usize, next: usize, units: &mut [u16]) -> usize
    requires call_bytes { CallBytes s.now at next }
    requires in_bounds { 70000 ≤ length units.old }
    ensures { result ≤ 70000 }
{
    if s[at] != TEXT {
        return 0;
    }
    let first = at + BEFORE_UNITS;
    let n = (next - first) / 2;
    script::read_units(s, first, n, units);
    n
}

// Prints that the next call is bad, if calls are shown.
fn show_bad_call(rt: &impl Print, shown: bool) -> io::Result<()> {
    if shown {
        return output::empty().text(b"bad call").print(rt);
    }
    Ok(())
}
