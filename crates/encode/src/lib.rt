// Writes DCs, objects and slots into a record's numbers.
#![tactic(auto)]

ghost use Rattle.std.specs.Prelude.{◌≡◌, [], ◌∷◌, length};
ghost use Rattle.bigendian.specs.BigEndian.{signed32};
ghost use Rattle.numbers.specs.Layout.{dc_size, object_size, slot_size};
ghost use Rattle.numbers.specs.Block.{present_number, bitmap_number, ObjectCoded};
ghost use Rattle.numbers.proofs.Block.{surface_number, DcCoded, SlotCoded};

use gdi::{Dc, DcSurface, GdiObject, Slot};
use numbers::{HANDLE, KIND, OBJECT, SLOT};

fn surface_number(s: DcSurface) -> u32
    ensures { result ≡ surface_number s }
{
    match s {
        DcSurface::Screen => 0,
        DcSurface::Memory => 1,
    }
}

fn present_number(b: Option<u32>) -> u32
    ensures { result ≡ present_number b }
{
    u32::from(b.is_some())
}

fn bitmap_number(b: Option<u32>) -> u32
    ensures { result ≡ bitmap_number b }
{
    b.unwrap_or(0)
}

// Returns the two's complement of z.
fn unsigned(z: i32) -> u32
    ensures { signed32 result ≡ z }
{
    if z < 0 {
        return ((z as i64) + 0x1_0000_0000) as u32;
    }
    z as u32
}

// Writes three numbers, then zeros.
fn put_few(numbers: &mut [u32], a: u32, b: u32, c: u32)
    requires { length numbers.old ≡ object_size }
    ensures { numbers.new ≡ a ∷ b ∷ c ∷ 0 ∷ 0 ∷ 0 ∷ 0 ∷ 0 ∷ 0 ∷ 0 ∷ 0 ∷ 0 ∷ 0 ∷ 0 ∷ [] }
{
    numbers.copy_from_slice(&[a, b, c, 0, 0, 0, 0, 0, 0, 0, 0, 0, 0, 0]);
}

// Writes a DC.
pub fn put_dc(numbers: &mut [u32], d: Dc)
    requires { length numbers.old ≡ dc_size }
    ensures { DcCoded d numbers.new }
{
    numbers.copy_from_slice(&[
        surface_number(d.surface),
        present_number(d.selected_bitmap),
        bitmap_number(d.selected_bitmap),
        d.selected_brush,
        d.selected_pen,
        d.selected_font,
        d.brush_color.0,
        d.pen_color.0,
        d.text_color.0,
        d.text_align,
        d.bk_color.0,
        numbers::flag_number(d.bk_transparent),
        unsigned(d.pos_x),
        unsigned(d.pos_y),
    ]);
}

// Writes an object. Returns its kind.
pub fn put_object(numbers: &mut [u32], object: GdiObject) -> u32
    requires { length numbers.old ≡ object_size }
    ensures { ObjectCoded object result numbers.new }
{
    match object {
        GdiObject::Dc(d) => {
            put_dc(numbers, d);
            0
        }
        GdiObject::Bitmap(m) => {
            let dirty = numbers::flag_number(m.host_dirty);
            put_few(numbers, m.width, m.height, dirty);
            1
        }
        GdiObject::Brush(x) => {
            put_few(numbers, x.color.0, 0, 0);
            2
        }
        GdiObject::Pen(x) => {
            put_few(numbers, x.color.0, x.width, 0);
            3
        }
        GdiObject::Font(x) => {
            put_few(numbers, unsigned(x.height), 0, 0);
            4
        }
    }
}

// Writes a slot.
pub fn put_slot(numbers: &mut [u32], s: Slot)
    requires { length numbers.old ≡ slot_size }
    ensures { SlotCoded s numbers.new }
{
    let kind = put_object(&mut numbers[OBJECT..SLOT], s.object);
    numbers[HANDLE] = s.handle;
    numbers[KIND] = kind;
}
