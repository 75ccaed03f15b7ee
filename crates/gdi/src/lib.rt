// The types of the device record, DCs and objects by value, and the stock objects.
#![tactic(auto)]

ghost use Rattle.std.specs.Prelude.{◌≡◌, true};
ghost use Rattle.gdi.specs.Record.{fresh_bitmap, in_range, is_position, dc_on, default_dc, screen_dc, vacant_slot};
ghost use Rattle.gdi.specs.Updates.{with_bitmap, with_position};
ghost use Rattle.gdi.specs.Stock.{is_stock, stock_kind};

use color::Colorref;

// The handle that the first created object gets.
pub const GDI_HANDLE_BASE: u32 = 0xDEAD_1000;

// The handle of the screen DC.
pub const GDI_SCREEN_DC: u32 = 0xDEAD_0DC0;

pub const STOCK_WHITE_BRUSH: u32 = 0xDEAD_5701;

pub const STOCK_LTGRAY_BRUSH: u32 = 0xDEAD_5702;

pub const STOCK_GRAY_BRUSH: u32 = 0xDEAD_5703;

pub const STOCK_BLACK_BRUSH: u32 = 0xDEAD_5704;

pub const STOCK_NULL_BRUSH: u32 = 0xDEAD_5705;

pub const STOCK_WHITE_PEN: u32 = 0xDEAD_5706;

pub const STOCK_BLACK_PEN: u32 = 0xDEAD_5707;

pub const STOCK_NULL_PEN: u32 = 0xDEAD_5708;

pub const STOCK_DKGRAY_BRUSH: u32 = 0xDEAD_5709;

pub const STOCK_SYSTEM_FONT: u32 = 0xDEAD_5710;

pub const STOCK_DEFAULT_BITMAP: u32 = 0xDEAD_5720;

// The most created objects a record can hold.
pub const MAX_OBJECTS: usize = 256;

// Whether a DC paints the panel or its selected bitmap.
#[derive(Clone, Copy)]
pub enum DcSurface {
    Screen,
    Memory,
}

// A device context. No bitmap is selected into it before the first selection.
#[derive(Clone, Copy)]
pub struct Dc {
    pub surface: DcSurface,
    pub selected_bitmap: Option<u32>,
    pub selected_brush: u32,
    pub selected_pen: u32,
    pub selected_font: u32,
    pub brush_color: Colorref,
    pub pen_color: Colorref,
    pub text_color: Colorref,
    pub text_align: u32,
    pub bk_color: Colorref,
    pub bk_transparent: bool,
    pub pos_x: i32,
    pub pos_y: i32,
}

// A bitmap's record; its pixels are in the store.
#[derive(Clone, Copy)]
pub struct Bitmap {
    pub width: u32,
    pub height: u32,
    pub host_dirty: bool,
}

#[derive(Clone, Copy)]
pub struct Brush {
    pub color: Colorref,
}

#[derive(Clone, Copy)]
pub struct Pen {
    pub color: Colorref,
    pub width: u32,
}

#[derive(Clone, Copy)]
pub struct Font {
    pub height: i32,
}

#[derive(Clone, Copy)]
pub enum GdiObject {
    Dc(Dc),
    Bitmap(Bitmap),
    Brush(Brush),
    Pen(Pen),
    Font(Font),
}

// A slot of the object table: an object and its handle.
#[derive(Clone, Copy)]
pub struct Slot {
    pub handle: u32,
    pub object: GdiObject,
}

// The record of a device, as the definitions use it; the code works on it as flat numbers (crate `numbers`). It holds the lengths
// of the two lent memories, the panel's sides, the counters, the screen DC, the stock bitmap's dirty mark, and the created objects
// in order of creation, in the first `count` slots.
#[derive(Clone, Copy)]
pub struct GdiState {
    pub panel_len: usize,
    pub store_len: usize,
    pub width: u32,
    pub height: u32,
    pub frame_counter: u64,
    pub next_handle: u32,
    pub screen: Dc,
    pub stock_dirty: bool,
    pub count: usize,
    pub objects: [Slot; 256],
}

// Where a DC's record is: in the record itself, or in a slot.
#[derive(Clone, Copy)]
pub enum Spot {
    Screen,
    Created(usize),
}

// The kind of object that a handle names, with the colour that a selection copies.
#[derive(Clone, Copy)]
pub enum Kind {
    Bitmap,
    Brush(Colorref),
    Pen(Colorref),
    Font,
    Other,
}

// Whether a handle is a stock handle: no created object has it, and no deletion removes it.
pub fn is_stock_handle(handle: u32) -> bool
    ensures { result ≡ is_stock handle }
{
    match handle {
        GDI_SCREEN_DC
        | STOCK_WHITE_BRUSH
        | STOCK_LTGRAY_BRUSH
        | STOCK_GRAY_BRUSH
        | STOCK_BLACK_BRUSH
        | STOCK_NULL_BRUSH
        | STOCK_WHITE_PEN
        | STOCK_BLACK_PEN
        | STOCK_NULL_PEN
        | STOCK_DKGRAY_BRUSH
        | STOCK_SYSTEM_FONT
        | STOCK_DEFAULT_BITMAP => true,
        _ => false,
    }
}

// The record of `Dc::default`, with this surface.
pub fn dc_on(surface: DcSurface) -> Dc
    ensures { result ≡ dc_on surface }
{
    Dc {
        surface,
        selected_bitmap: None,
        selected_brush: STOCK_WHITE_BRUSH,
        selected_pen: STOCK_BLACK_PEN,
        selected_font: STOCK_SYSTEM_FONT,
        brush_color: Colorref(0x00ff_ffff),
        pen_color: Colorref(0),
        text_color: Colorref(0),
        text_align: 0,
        bk_color: Colorref(0x00ff_ffff),
        bk_transparent: false,
        pos_x: 0,
        pos_y: 0,
    }
}

// The record of a new bitmap.
pub fn new_bitmap(width: u32, height: u32) -> Bitmap
    ensures { result ≡ fresh_bitmap width height }
{
    Bitmap {
        width,
        height,
        host_dirty: false,
    }
}

// The DC with another bitmap selected.
pub fn with_bitmap(d: Dc, handle: u32) -> Dc
    ensures { result ≡ with_bitmap d handle }
{
    Dc {
        selected_bitmap: Some(handle),
        ..d
    }
}

// Whether a coordinate of a position is in its range.
fn in_range(z: i32) -> bool
    ensures { result ≡ in_range z }
{
    -32_768 <= z && z <= 32_767
}

// Whether a point can be a position.
pub fn is_position(x: i32, y: i32) -> bool
    ensures { result ≡ is_position x y }
{
    in_range(x) && in_range(y)
}

// The DC with another position.
pub fn with_position(d: Dc, x: i32, y: i32) -> Dc
    ensures { result ≡ with_position d x y }
{
    Dc {
        pos_x: x,
        pos_y: y,
        ..d
    }
}

// The record of a new memory DC.
pub fn default_dc() -> Dc
    ensures { result ≡ default_dc }
{
    dc_on(DcSurface::Memory)
}

// The record of the screen DC of a fresh device.
pub fn screen_dc() -> Dc
    ensures { result ≡ screen_dc }
{
    dc_on(DcSurface::Screen)
}

// A slot that no object has.
pub fn vacant_slot() -> Slot
    ensures { result ≡ vacant_slot }
{
    Slot {
        handle: 0,
        object: GdiObject::Brush(Brush { color: Colorref(0) }),
    }
}

// What a stock handle names.
pub fn stock_kind(handle: u32) -> Kind
    ensures { result ≡ stock_kind handle }
{
    match handle {
        STOCK_WHITE_BRUSH => Kind::Brush(Colorref(0x00ff_ffff)),
        STOCK_LTGRAY_BRUSH => Kind::Brush(Colorref(0x00c0_c0c0)),
        STOCK_GRAY_BRUSH => Kind::Brush(Colorref(0x0080_8080)),
        STOCK_BLACK_BRUSH => Kind::Brush(Colorref(0)),
        STOCK_NULL_BRUSH => Kind::Brush(Colorref(0xff00_0000)),
        STOCK_WHITE_PEN => Kind::Pen(Colorref(0x00ff_ffff)),
        STOCK_BLACK_PEN => Kind::Pen(Colorref(0)),
        STOCK_NULL_PEN => Kind::Pen(Colorref(0xff00_0000)),
        STOCK_DKGRAY_BRUSH => Kind::Brush(Colorref(0x0040_4040)),
        STOCK_SYSTEM_FONT => Kind::Font,
        STOCK_DEFAULT_BITMAP => Kind::Bitmap,
        _ => Kind::Other,
    }
}
