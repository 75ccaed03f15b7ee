// Device records as bytes, numbers most significant byte first, put into a record's numbers.
ghost use Rattle.std.specs.Prelude.{◌≡◌, ◌≤◌, ◌<◌, ◌+◌, length, IfSome};
ghost use Rattle.numbers.specs.Layout.{record_size};
ghost use Rattle.records.specs.Records.{NextWithin, Taken};

use color::Colorref;
use gdi::{Bitmap, Brush, Dc, DcSurface, Font, GdiObject, MAX_OBJECTS, Pen, Slot};
use numbers::{SCREEN, SLOT, SLOTS};

// The longest memory that is lent.
pub const MOST_LENT: usize = 65_536;

// The bytes before a record's slots.
const HEAD: usize = 56;

// The lengths of the memories lent with a record, and the byte behind it.
#[derive(Clone, Copy)]
pub struct Case {
    pub panel_lent: usize,
    pub store_lent: usize,
    pub next: usize,
}

// A DC's colours and settings.
#[derive(Clone, Copy)]
struct Settings {
    brush: u32,
    pen: u32,
    text: u32,
    align: u32,
    bk: u32,
    transparent: bool,
}

// Puts the numbers of the record at `at`, unless it is bad.
pub fn record(s: &[u8], at: usize, numbers: &mut [u32]) -> Option<Case>
    requires { (at < length s.now) × (length numbers.old ≡ record_size) }
    ensures { IfSome result (λ c. Taken (at + 1) (length s.now) c) }
{
    if s.len() - at < HEAD || s[at + 36] > 1 || s[at + 37] > 1 {
        return None;
    }
    let given = bigendian::read_u16(s, at + 54) as usize;
    if given > MAX_OBJECTS {
        return None;
    }
    put_head(s, at, numbers);
    put_vacant(numbers);
    let next = put_slots(s, at + HEAD, given, numbers)?;
    lent(s, next)
}

// The lent lengths at `at`.
fn lent(s: &[u8], at: usize) -> Option<Case>
    requires { at ≤ length s.now }
    ensures { IfSome result (λ c. Taken at (length s.now) c) }
{
    if s.len() - at < 8 {
        return None;
    }
    let panel_lent = bigendian::read_u32(s, at) as usize;
    let store_lent = bigendian::read_u32(s, at + 4) as usize;
    if panel_lent > MOST_LENT || store_lent > MOST_LENT {
        return None;
    }
    Some(Case {
        panel_lent,
        store_lent,
        next: at + 8,
    })
}

// Puts the numbers in front of a record's slots, read from `at` on.
fn put_head(s: &[u8], at: usize, numbers: &mut [u32])
    requires { (at + 56 ≤ length s.now) × (length numbers.old ≡ record_size) }
{
    put_sizes(s, at, numbers);
    put_counters(s, at, numbers);
    put_flags(s, at, numbers);
}

// Puts the memories' lengths and the panel's sides.
fn put_sizes(s: &[u8], at: usize, numbers: &mut [u32])
    requires { (at + 56 ≤ length s.now) × (length numbers.old ≡ record_size) }
{
    numbers[numbers::PANEL_LEN] = read_most(s, at);
    numbers[numbers::STORE_LEN] = read_most(s, at + 8);
    numbers[numbers::WIDTH] = bigendian::read_u32(s, at + 16);
    numbers[numbers::HEIGHT] = bigendian::read_u32(s, at + 20);
}

// Puts the frame counter, the next handle and the count.
fn put_counters(s: &[u8], at: usize, numbers: &mut [u32])
    requires { (at + 56 ≤ length s.now) × (length numbers.old ≡ record_size) }
{
    numbers[numbers::FRAMES_HIGH] = bigendian::read_u32(s, at + 24);
    numbers[numbers::FRAMES_LOW] = bigendian::read_u32(s, at + 28);
    numbers[numbers::NEXT_HANDLE] = bigendian::read_u32(s, at + 32);
    numbers[numbers::COUNT] = read_most(s, at + 46);
}

// Puts the stock bitmap's mark, and the screen DC with its surface and position.
fn put_flags(s: &[u8], at: usize, numbers: &mut [u32])
    requires { (at + 56 ≤ length s.now) × (length numbers.old ≡ record_size) }
{
    let fresh = gdi::dc_on(surface_of(s[at + 37]));
    let x = bigendian::read_i32(s, at + 38);
    let y = bigendian::read_i32(s, at + 42);
    let screen = gdi::with_position(fresh, x, y);
    encode::put_dc(&mut numbers[SCREEN..SLOTS], screen);
    numbers[numbers::STOCK_DIRTY] = numbers::flag_number(s[at + 36] == 1);
}

// A length or a count in the eight bytes from `at` on. One of more than 32 bits is read as 0xFFFF_FFFF, which is refused with
// 9 as well.
fn read_most(s: &[u8], at: usize) -> u32
    requires { at + 8 ≤ length s.now }
{
    if bigendian::read_u32(s, at) == 0 {
        bigendian::read_u32(s, at + 4)
    } else {
        0xFFFF_FFFF
    }
}

// Puts a vacant slot in each place.
fn put_vacant(numbers: &mut [u32])
    requires { length numbers.old ≡ record_size }
{
    for k in 0usize..MAX_OBJECTS {
        put_slot(numbers, k, gdi::vacant_slot());
    }
}

// Puts slot k.
fn put_slot(numbers: &mut [u32], k: usize, slot: Slot)
    requires { (length numbers.old ≡ record_size) × (k < 256) }
{
    let p = SLOTS + SLOT * k;
    let e = p + SLOT;
    encode::put_slot(&mut numbers[p..e], slot);
}

// Puts the n slots from `at` on as the first ones. Returns the byte behind them, unless one is bad.
fn put_slots(s: &[u8], at: usize, n: usize, numbers: &mut [u32]) -> Option<usize>
    requires { (at ≤ length s.now) × ((n ≤ 256) × (length numbers.old ≡ record_size)) }
    ensures { IfSome result (λ next. NextWithin at (length s.now) next) }
{
    let mut next = at;
    for k in 0..n {
        let (slot, end) = read_slot(s, next)?;
        put_slot(numbers, k, slot);
        next = end;
    }
    Some(next)
}

// The slot at `at`, handle, kind, fields, and the byte behind it; none if it is bad.
fn read_slot(s: &[u8], at: usize) -> Option<(Slot, usize)>
    requires { at ≤ length s.now }
    ensures { IfSome result (λ r. NextWithin at (length s.now) r.1) }
{
    if s.len() - at < 5 {
        return None;
    }
    match s[at + 4] {
        0 => dc_slot(s, at),
        1 => bitmap_slot(s, at),
        2 => brush_slot(s, at),
        3 => pen_slot(s, at),
        4 => font_slot(s, at),
        _ => None,
    }
}

// The slot of a DC at `at`.
fn dc_slot(s: &[u8], at: usize) -> Option<(Slot, usize)>
    requires { at ≤ length s.now }
    ensures { IfSome result (λ r. NextWithin at (length s.now) r.1) }
{
    if s.len() - at < 52 || s[at + 5] > 1 || s[at + 6] > 1 || s[at + 43] > 1 {
        return None;
    }
    let handle = bigendian::read_u32(s, at);
    let object = GdiObject::Dc(read_dc(s, at));
    Some((Slot { handle, object }, at + 52))
}

// The DC whose slot is at `at`.
fn read_dc(s: &[u8], at: usize) -> Dc
    requires { at + 52 ≤ length s.now }
{
    let surface = surface_of(s[at + 5]);
    let selected_bitmap = bitmap_of(s[at + 6], bigendian::read_u32(s, at + 7));
    let set = read_settings(s, at);
    Dc {
        surface,
        selected_bitmap,
        selected_brush: bigendian::read_u32(s, at + 11),
        selected_pen: bigendian::read_u32(s, at + 15),
        selected_font: bigendian::read_u32(s, at + 19),
        brush_color: Colorref(set.brush),
        pen_color: Colorref(set.pen),
        text_color: Colorref(set.text),
        text_align: set.align,
        bk_color: Colorref(set.bk),
        bk_transparent: set.transparent,
        pos_x: bigendian::read_i32(s, at + 44),
        pos_y: bigendian::read_i32(s, at + 48),
    }
}

// The colours and settings of the DC whose slot is at `at`.
fn read_settings(s: &[u8], at: usize) -> Settings
    requires { at + 52 ≤ length s.now }
{
    Settings {
        brush: bigendian::read_u32(s, at + 23),
        pen: bigendian::read_u32(s, at + 27),
        text: bigendian::read_u32(s, at + 31),
        align: bigendian::read_u32(s, at + 35),
        bk: bigendian::read_u32(s, at + 39),
        transparent: s[at + 43] == 1,
    }
}

// What a DC paints, by its flag.
fn surface_of(flag: u8) -> DcSurface {
    if flag == 0 {
        DcSurface::Screen
    } else {
        DcSurface::Memory
    }
}

// A DC's bitmap, by its flag.
fn bitmap_of(flag: u8, handle: u32) -> Option<u32> {
    if flag == 0 { None } else { Some(handle) }
}

// The slot of a bitmap at `at`.
fn bitmap_slot(s: &[u8], at: usize) -> Option<(Slot, usize)>
    requires { at ≤ length s.now }
    ensures { IfSome result (λ r. NextWithin at (length s.now) r.1) }
{
    if s.len() - at < 14 || s[at + 13] > 1 {
        return None;
    }
    let handle = bigendian::read_u32(s, at);
    let object = GdiObject::Bitmap(Bitmap {
        width: bigendian::read_u32(s, at + 5),
        height: bigendian::read_u32(s, at + 9),
        host_dirty: s[at + 13] == 1,
    });
    Some((Slot { handle, object }, at + 14))
}

// The slot of a brush at `at`.
fn brush_slot(s: &[u8], at: usize) -> Option<(Slot, usize)>
    requires { at ≤ length s.now }
    ensures { IfSome result (λ r. NextWithin at (length s.now) r.1) }
{
    if s.len() - at < 9 {
        return None;
    }
    let handle = bigendian::read_u32(s, at);
    let object = GdiObject::Brush(Brush {
        color: Colorref(bigendian::read_u32(s, at + 5)),
    });
    Some((Slot { handle, object }, at + 9))
}

// The slot of a pen at `at`.
fn pen_slot(s: &[u8], at: usize) -> Option<(Slot, usize)>
    requires { at ≤ length s.now }
    ensures { IfSome result (λ r. NextWithin at (length s.now) r.1) }
{
    if s.len() - at < 13 {
        return None;
    }
    let handle = bigendian::read_u32(s, at);
    let object = GdiObject::Pen(Pen {
        color: Colorref(bigendian::read_u32(s, at + 5)),
        width: bigendian::read_u32(s, at + 9),
    });
    Some((Slot { handle, object }, at + 13))
}

// The slot of a font at `at`.
fn font_slot(s: &[u8], at: usize) -> Option<(Slot, usize)>
    requires { at ≤ length s.now }
    ensures { IfSome result (λ r. NextWithin at (length s.now) r.1) }
{
    if s.len() - at < 9 {
        return None;
    }
    let handle = bigendian::read_u32(s, at);
    let object = GdiObject::Font(Font {
        height: bigendian::read_i32(s, at + 5),
    });
    Some((Slot { handle, object }, at + 9))
}
