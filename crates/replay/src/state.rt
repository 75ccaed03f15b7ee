// The state lines.
ghost use Rattle.std.specs.Prelude.{◌≡◌, ◌≤◌, length};
ghost use Rattle.numbers.specs.Layout.{record_size};

use crate::object;
use gdi::{GDI_SCREEN_DC, MAX_OBJECTS, Slot};
use numbers::{
    COUNT, FRAMES_HIGH, FRAMES_LOW, HEIGHT, NEXT_HANDLE, SCREEN, SLOT, SLOTS, STOCK_DIRTY, WIDTH,
};
use output::Line;
use std::io;

// Prints a record, and the CRCs of its memories, if they are shown.
pub fn show(
    rt: &impl Print,
    device: &[u32],
    panel: &[u8],
    store: &[u8],
    requests: bool,
    shown: bool,
) -> io::Result<()>
    requires { length device.now ≡ record_size }
{
    if shown {
        return print(rt, device, panel, store, requests);
    }
    Ok(())
}

// Prints a record, with the fields of change requests if they are asked for, and the CRCs of its memories.
pub fn print(
    rt: &impl Print,
    device: &[u32],
    panel: &[u8],
    store: &[u8],
    requests: bool,
) -> io::Result<()>
    requires { length device.now ≡ record_size }
{
    print_counters(rt, device)?;
    print_screen(rt, device, requests)?;
    print_objects(rt, device, requests)?;
    print_crcs(rt, crc32::crc32(panel), crc32::crc32(store))
}

// Prints a record's numbers.
fn print_counters(rt: &impl Print, device: &[u32]) -> io::Result<()>
    requires { length device.now ≡ record_size }
{
    let frames = frames_of(device[FRAMES_LOW], device[FRAMES_HIGH]);
    let sides = sides(device[WIDTH], device[HEIGHT]);
    let counters = add_counters(sides, frames, device[NEXT_HANDLE]);
    add_objects(counters, device[STOCK_DIRTY] == 1, device[COUNT]).print(rt)
}

// A frame counter, by its halves.
fn frames_of(low: u32, high: u32) -> u64 {
    0x1_0000_0000 * (high as u64) + (low as u64)
}

// A line with the panel's sides.
fn sides(width: u32, height: u32) -> Line
    ensures { length result ≤ 47 }
{
    output::empty()
        .text(b"panel ")
        .decimal(width as u64)
        .space()
        .decimal(height as u64)
}

// Adds the frames and the next handle.
fn add_counters(l: Line, frames: u64, next_handle: u32) -> Line
    requires { length l ≤ 47 }
    ensures { length result ≤ 89 }
{
    l.text(b" frames ")
        .decimal(frames)
        .text(b" next ")
        .hex8(next_handle)
}

// Adds the stock bitmap's dirty mark and the number of created objects.
fn add_objects(l: Line, stock_dirty: bool, count: u32) -> Line
    requires { length l ≤ 89 }
    ensures { length result ≤ 124 }
{
    l.text(b" stock ")
        .flag(stock_dirty)
        .text(b" count ")
        .decimal(count as u64)
}

// Prints the screen DC.
fn print_screen(rt: &impl Print, device: &[u32], requests: bool) -> io::Result<()>
    requires { length device.now ≡ record_size }
{
    let l = output::empty().text(b"dc ").hex8(GDI_SCREEN_DC).space();
    object::add_dc(l, numbers::dc_of(&device[SCREEN..SLOTS]), requests).print(rt)
}

// Prints the created objects in order.
fn print_objects(rt: &impl Print, device: &[u32], requests: bool) -> io::Result<()>
    requires { length device.now ≡ record_size }
{
    let count = device[COUNT] as usize;
    for i in 0usize..MAX_OBJECTS {
        if i < count {
            let p = SLOTS + SLOT * i;
            let e = p + SLOT;
            print_object(rt, numbers::slot_of(&device[p..e]), requests)?;
        }
    }
    Ok(())
}

// Prints an object under its handle.
fn print_object(rt: &impl Print, slot: Slot, requests: bool) -> io::Result<()> {
    let l = output::empty().text(b"object ").hex8(slot.handle).space();
    let o = slot.object;
    object::add(l, o, requests).print(rt)
}

// Prints the CRCs of the memories.
fn print_crcs(rt: &impl Print, panel: u32, store: u32) -> io::Result<()> {
    output::empty()
        .text(b"crc ")
        .hex8(panel)
        .space()
        .hex8(store)
        .print(rt)
}
