// Looks handles up in a flat record, and stores a DC under its handle.
#![tactic(auto)]

ghost use Rattle.std.specs.Prelude.{◌≡◌, true, ◌+◌, ◌≤◌, length};
ghost use Rattle.words.specs.Parts.{part};
ghost use Rattle.gdi.specs.Lookup.{find_of, dc_of, kind_at, kind_of};
ghost use Rattle.gdi.specs.Updates.{with_dc};
ghost use Rattle.numbers.specs.Layout.{object_size, slot_size, kind_place, object_place};
ghost use Rattle.numbers.specs.Block.{at, object_of};
ghost use Rattle.numbers.specs.View.{view, is_record, Updated};
ghost use Rattle.lookup.specs.Inner.{HasDc};

use color::Colorref;
use gdi::{Dc, GDI_SCREEN_DC, Kind, Spot};
use numbers::{COUNT, KIND, OBJECT, SLOT, SLOTS};

// Returns the slot of the created object with this handle.
pub fn find(numbers: &[u32], handle: u32) -> Option<usize>
    requires { is_record numbers.now ≡ true }
    ensures { result ≡ find_of (view numbers.now) handle }
{
    let n = numbers[COUNT] as usize;
    for i in 0..n {
        if numbers[SLOTS + SLOT * i] == handle {
            return Some(i);
        }
    }
    None
}

// Returns the DC with this handle, and where it is stored.
#[tactic(auto, using(crate::proofs::Found::found_room))]
pub fn find_dc(numbers: &[u32], handle: u32) -> Option<(Spot, Dc)>
    requires { is_record numbers.now ≡ true }
    ensures { result ≡ dc_of (view numbers.now) handle }
{
    if handle == GDI_SCREEN_DC {
        let d = numbers::dc_of(&numbers[numbers::SCREEN..SLOTS]);
        return Some((Spot::Screen, d));
    }
    let i = find(numbers, handle)?;
    let p = SLOTS + SLOT * i;
    if numbers[p + KIND] != 0 {
        return None;
    }
    let d = numbers::dc_of(&numbers[p + OBJECT..p + SLOT]);
    Some((Spot::Created(i), d))
}

// Returns the kind of the object in the slot at number p, with the colour that a selection copies.
fn kind_at(numbers: &[u32], p: usize) -> Kind
    requires { p + slot_size ≤ length numbers.now }
    ensures { result ≡ kind_at (object_of (at numbers.now (p + kind_place)) (part numbers.now (p + object_place) object_size)) }
{
    match numbers[p + KIND] {
        0 => Kind::Other,
        1 => Kind::Bitmap,
        2 => Kind::Brush(Colorref(numbers[p + OBJECT])),
        3 => Kind::Pen(Colorref(numbers[p + OBJECT])),
        _ => Kind::Font,
    }
}

// Returns the kind of the object with this handle, created or stock.
pub fn find_kind(numbers: &[u32], handle: u32) -> Kind
    requires { is_record numbers.now ≡ true }
    ensures { result ≡ kind_of (view numbers.now) handle }
{
    match find(numbers, handle) {
        Some(i) => kind_at(numbers, SLOTS + SLOT * i),
        None => gdi::stock_kind(handle),
    }
}

// Stores d as the DC with this handle, at spot. No other numbers are written.
pub fn update_dc(numbers: &mut [u32], handle: u32, spot: Spot, d: Dc)
    requires numbers_value { is_record numbers.old ≡ true }
    requires has_dc { HasDc (view numbers.old) handle spot }
    ensures { Updated numbers.old (with_dc (view numbers.old) handle spot d) numbers.new }
{
    match spot {
        Spot::Screen => encode::put_dc(&mut numbers[numbers::SCREEN..SLOTS], d),
        Spot::Created(i) => {
            let p = SLOTS + SLOT * i;
            encode::put_dc(&mut numbers[p + OBJECT..p + SLOT], d);
        }
    }
}
