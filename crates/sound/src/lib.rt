// Checks the objects of a flat record, and finds where their pixels begin.
#![tactic(auto)]

ghost use Rattle.std.specs.Prelude.{◌≡◌, true, false, not, ◌&&◌, ◌+◌, ◌*◌, ◌≤◌, eqb, length};
ghost use Rattle.words.specs.Parts.{part};
ghost use Rattle.gdi.specs.Record.{bytes_of};
ghost use Rattle.gdi.specs.Stock.{is_stock};
ghost use Rattle.numbers.specs.Layout.{dc_size, object_size, slot_size, record_size, count_place, kind_place, object_place};
ghost use Rattle.numbers.specs.Block.{at, dc_fields, object_of};
ghost use Rattle.numbers.specs.View.{view, is_record};
ghost use Rattle.sound.specs.Sound.{positioned, object_fits, slots_fit, start_of};
ghost use Rattle.sound.specs.Inner.{Scanned};

use gdi::{GDI_HANDLE_BASE, GdiObject, STOCK_WHITE_BRUSH};
use numbers::{BITMAP_HEIGHT, COUNT, KIND, OBJECT, POS_X, POS_Y, SLOT, SLOTS};

// The most bytes that a memory may have.
pub const MAX_MEMORY: usize = 33_554_432;

// Returns how many bytes an object's pixels have.
pub fn object_bytes(object: GdiObject) -> usize
    requires { object_fits object ≡ true }
    ensures { result ≡ bytes_of object }
{
    match object {
        GdiObject::Bitmap(m) => 2 * (m.width as usize * m.height as usize),
        GdiObject::Dc(_) | GdiObject::Brush(_) | GdiObject::Pen(_) | GdiObject::Font(_) => 0,
    }
}

// Returns whether the position of the DC at number p is in its range.
pub fn is_positioned(numbers: &[u32], p: usize) -> bool
    requires { p + dc_size ≤ length numbers.now }
    ensures { result ≡ positioned (dc_fields (part numbers.now p dc_size)) }
{
    let x = numbers::signed(numbers[p + POS_X]);
    let y = numbers::signed(numbers[p + POS_Y]);
    gdi::is_position(x, y)
}

// Returns whether the object in the slot at number p may be a created object.
#[tactic(auto, using(crate::proofs::Objects::fits_read))]
fn object_fits(numbers: &[u32], p: usize) -> bool
    requires { p + slot_size ≤ length numbers.now }
    ensures { result ≡ object_fits (object_of (at numbers.now (p + kind_place)) (part numbers.now (p + object_place) object_size)) }
{
    match numbers[p + KIND] {
        0 => numbers[p + OBJECT] == 1 && is_positioned(numbers, p + OBJECT),
        1 => surface::is_side(numbers[p + OBJECT]) && surface::is_side(numbers[p + BITMAP_HEIGHT]),
        _ => true,
    }
}

// Returns how many bytes the pixels of the object in the slot at number p have.
#[tactic(auto, using(crate::proofs::Objects::bytes_of_read, crate::proofs::Objects::pixels_few))]
pub fn bytes_of(numbers: &[u32], p: usize) -> usize
    requires slot_size_in_bounds { p + slot_size ≤ length numbers.now }
    requires object_size_value { object_fits (object_of (at numbers.now (p + kind_place)) (part numbers.now (p + object_place) object_size)) ≡ true }
    ensures { result ≡ bytes_of (object_of (at numbers.now (p + kind_place)) (part numbers.now (p + object_place) object_size)) }
{
    match numbers[p + KIND] {
        1 => 2 * (numbers[p + OBJECT] as usize * numbers[p + BITMAP_HEIGHT] as usize),
        _ => 0,
    }
}

// Returns whether a handle is neither 0 nor stock. Every handle given out before handles wrap around is so.
#[tactic(auto, unfolding(gdi::specs::Stock::is_stock))]
fn handle_fits(h: u32) -> bool
    ensures { result ≡ (not (eqb h 0) && not (is_stock h)) }
{
    h >= GDI_HANDLE_BASE && h < STOCK_WHITE_BRUSH || h != 0 && !gdi::is_stock_handle(h)
}

// The result of one pass over the slots: `end` is the end of all pixels in the store; `ascending` says that each handle is greater
// than the one before, so that all differ, as until handles wrap around.
#[derive(Clone, Copy)]
pub struct Scan {
    pub end: usize,
    pub ascending: bool,
}

// Checks every slot in one pass. There is no result if a slot is malformed, or its object or handle unsound.
pub fn scan_slots(numbers: &[u32]) -> Option<Scan>
    requires numbers_len { length numbers.now ≡ record_size }
    requires count_place_bound { at numbers.now count_place ≤ 256 }
    ensures { Scanned numbers.now result }
{
    let mut end = 2;
    let mut ascending = true;
    let mut last = 0;
    for i in 0..numbers[COUNT] as usize {
        let p = SLOTS + SLOT * i;
        if !well_formed::is_slot(&numbers[p..p + SLOT])
            || !handle_fits(numbers[p])
            || !object_fits(numbers, p)
        {
            return None;
        }
        end += bytes_of(numbers, p);
        ascending &= last < numbers[p];
        last = numbers[p];
    }
    Some(Scan { end, ascending })
}

// Returns where the pixels of object n begin in the store: after those of the stock bitmap and of the objects before it.
pub fn start_of(numbers: &[u32], n: usize) -> usize
    requires numbers_value { is_record numbers.now ≡ true }
    requires numbers_value_2 { slots_fit (view numbers.now) ≡ true }
    requires n_bound { n ≤ at numbers.now count_place }
    ensures value { result ≡ start_of (view numbers.now) n }
    ensures upper_bound { result ≤ 2 + 33554432 * 256 }
{
    let mut end = 2;
    for i in 0..n {
        end += bytes_of(numbers, SLOTS + SLOT * i);
    }
    end
}
