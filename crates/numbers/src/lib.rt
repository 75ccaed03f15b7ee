// The record of a device as flat numbers of 32 bits, which a host keeps and lends; reading DCs, objects and slots from them.
#![tactic(auto)]

ghost use Rattle.std.specs.Prelude.{◌≡◌, ◌≤◌, length};
ghost use Rattle.bigendian.specs.BigEndian.{signed32};
ghost use Rattle.numbers.specs.Layout.{dc_size, object_size, slot_size};
ghost use Rattle.numbers.specs.Block.{flag_number, surface_of, bitmap_of, dc_fields, object_of, slot_of};

use color::Colorref;
use gdi::{Bitmap, Brush, Dc, DcSurface, Font, GdiObject, Pen, Slot};

// The layout, as in specs/Layout.antt: how many numbers a DC, an object, a slot and a record have.
pub const DC: usize = 14;

pub const OBJECT_SIZE: usize = DC;

pub const SLOT: usize = OBJECT + OBJECT_SIZE;

pub const RECORD: usize = SLOTS + SLOT * 256;

// In a record: the memories' lengths, the panel's sides, the frame counter's halves, the next handle, the stock bitmap's mark, the
// count, the screen DC, the first slot.
pub const PANEL_LEN: usize = 0;

pub const STORE_LEN: usize = 1;

pub const WIDTH: usize = 2;

pub const HEIGHT: usize = 3;

pub const FRAMES_LOW: usize = 4;

pub const FRAMES_HIGH: usize = 5;

pub const NEXT_HANDLE: usize = 6;

pub const STOCK_DIRTY: usize = 7;

pub const COUNT: usize = 8;

pub const SCREEN: usize = 9;

pub const SLOTS: usize = SCREEN + DC;

// In a slot: the handle, the kind, the object; of a bitmap the height and the mark.
pub const HANDLE: usize = 0;

pub const KIND: usize = 1;

pub const OBJECT: usize = 2;

pub const BITMAP_HEIGHT: usize = OBJECT + HEIGHT_IN;

pub const BITMAP_DIRTY: usize = OBJECT + DIRTY_IN;

// In a DC.
pub const SURFACE: usize = 0;

pub const BITMAP_PRESENT: usize = 1;

pub const BITMAP: usize = 2;

pub const BRUSH: usize = 3;

pub const PEN: usize = 4;

pub const FONT: usize = 5;

pub const BRUSH_COLOR: usize = 6;

pub const PEN_COLOR: usize = 7;

pub const TEXT_COLOR: usize = 8;

pub const TEXT_ALIGN: usize = 9;

pub const BK_COLOR: usize = 10;

pub const BK_TRANSPARENT: usize = 11;

pub const POS_X: usize = 12;

pub const POS_Y: usize = 13;

// In a bitmap, a brush or pen, a pen, a font.
pub const WIDTH_IN: usize = 0;

pub const HEIGHT_IN: usize = 1;

pub const DIRTY_IN: usize = 2;

pub const COLOR_IN: usize = 0;

pub const PEN_WIDTH_IN: usize = 1;

pub const FONT_HEIGHT_IN: usize = 0;

// The numbers of a bitmap, a brush, a pen and a font; those behind them are 0.
pub const BITMAP_SIZE: usize = 3;

pub const BRUSH_SIZE: usize = 1;

pub const PEN_SIZE: usize = 2;

pub const FONT_SIZE: usize = 1;

pub fn flag_number(f: bool) -> u32
    ensures { result ≡ flag_number f }
{
    u32::from(f)
}

fn surface_of(n: u32) -> DcSurface
    ensures { result ≡ surface_of n }
{
    if n == 1 {
        DcSurface::Memory
    } else {
        DcSurface::Screen
    }
}

fn bitmap_of(present: u32, handle: u32) -> Option<u32>
    ensures { result ≡ bitmap_of present handle }
{
    if present == 1 { Some(handle) } else { None }
}

// The integer whose two's complement is n.
pub fn signed(n: u32) -> i32
    ensures { result ≡ signed32 n }
{
    if n < 0x8000_0000 {
        return n as i32;
    }
    ((n as i64) - 0x1_0000_0000) as i32
}

pub fn dc_of(numbers: &[u32]) -> Dc
    requires { dc_size ≤ length numbers.now }
    ensures { result ≡ dc_fields numbers.now }
{
    Dc {
        surface: surface_of(numbers[SURFACE]),
        selected_bitmap: bitmap_of(numbers[BITMAP_PRESENT], numbers[BITMAP]),
        selected_brush: numbers[BRUSH],
        selected_pen: numbers[PEN],
        selected_font: numbers[FONT],
        brush_color: Colorref(numbers[BRUSH_COLOR]),
        pen_color: Colorref(numbers[PEN_COLOR]),
        text_color: Colorref(numbers[TEXT_COLOR]),
        text_align: numbers[TEXT_ALIGN],
        bk_color: Colorref(numbers[BK_COLOR]),
        bk_transparent: numbers[BK_TRANSPARENT] == 1,
        pos_x: signed(numbers[POS_X]),
        pos_y: signed(numbers[POS_Y]),
    }
}

// Reads an object of this kind.
pub fn object_of(kind: u32, numbers: &[u32]) -> GdiObject
    requires { object_size ≤ length numbers.now }
    ensures { result ≡ object_of kind numbers.now }
{
    match kind {
        0 => GdiObject::Dc(dc_of(numbers)),
        1 => GdiObject::Bitmap(Bitmap {
            width: numbers[WIDTH_IN],
            height: numbers[HEIGHT_IN],
            host_dirty: numbers[DIRTY_IN] == 1,
        }),
        2 => GdiObject::Brush(Brush {
            color: Colorref(numbers[COLOR_IN]),
        }),
        3 => GdiObject::Pen(Pen {
            color: Colorref(numbers[COLOR_IN]),
            width: numbers[PEN_WIDTH_IN],
        }),
        _ => GdiObject::Font(Font {
            height: signed(numbers[FONT_HEIGHT_IN]),
        }),
    }
}

pub fn slot_of(numbers: &[u32]) -> Slot
    requires { slot_size ≤ length numbers.now }
    ensures { result ≡ slot_of numbers.now }
{
    Slot {
        handle: numbers[HANDLE],
        object: object_of(numbers[KIND], &numbers[OBJECT..SLOT]),
    }
}
