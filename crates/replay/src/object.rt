// An object as its kind and fields.
ghost use Rattle.std.specs.Prelude.{◌+◌, ◌≤◌, length};

use gdi::{Bitmap, Dc, DcSurface, GdiObject, Pen};
use output::Line;

// Adds the kind and the fields, those of change requests if they are asked for.
pub fn add(l: Line, o: GdiObject, requests: bool) -> Line
    requires { length l ≤ 24 }
    ensures { length result ≤ 140 }
{
    match o {
        GdiObject::Dc(d) => add_dc(l.text(b"dc "), d, requests),
        GdiObject::Bitmap(b) => add_bitmap(l, b),
        GdiObject::Brush(b) => l.text(b"brush ").hex8(b.color.0),
        GdiObject::Pen(p) => add_pen(l, p),
        GdiObject::Font(f) => l.text(b"font ").signed_decimal(f.height),
    }
}

// Adds a bitmap's kind and fields.
fn add_bitmap(l: Line, b: Bitmap) -> Line
    requires { length l ≤ 24 }
    ensures { length result ≤ 120 }
{
    l.text(b"bitmap ")
        .decimal(b.width as u64)
        .space()
        .decimal(b.height as u64)
        .space()
        .flag(b.host_dirty)
}

// Adds a pen's kind and fields.
fn add_pen(l: Line, p: Pen) -> Line
    requires { length l ≤ 24 }
    ensures { length result ≤ 120 }
{
    l.text(b"pen ")
        .hex8(p.color.0)
        .space()
        .decimal(p.width as u64)
}

// Adds a DC's fields, its position among them if the fields of change requests are asked for.
pub fn add_dc(l: Line, d: Dc, requests: bool) -> Line
    requires { length l ≤ 27 }
    ensures { length result ≤ 140 }
{
    let drawn_on = add_selected_bitmap(add_surface(l, d.surface), d.selected_bitmap);
    let fields = add_settings(add_colors(add_selected(drawn_on, d), d), d);
    if requests {
        return add_position(fields.space(), d.pos_x, d.pos_y);
    }
    fields
}

// Adds a position.
pub fn add_position(l: Line, x: i32, y: i32) -> Line
    requires { length l + 33 ≤ 160 }
    ensures { length result ≤ length l + 23 }
{
    l.signed_decimal(x).space().signed_decimal(y)
}

// Adds whether a DC paints the panel or its bitmap.
fn add_surface(l: Line, surface: DcSurface) -> Line
    requires { length l + 7 ≤ 160 }
    ensures { length result ≤ length l + 7 }
{
    match surface {
        DcSurface::Screen => l.text(b"screen "),
        DcSurface::Memory => l.text(b"memory "),
    }
}

// Adds a DC's bitmap.
fn add_selected_bitmap(l: Line, bitmap: Option<u32>) -> Line
    requires { length l + 9 ≤ 160 }
    ensures { length result ≤ length l + 9 }
{
    match bitmap {
        None => l.text(b"none "),
        Some(handle) => l.hex8(handle).space(),
    }
}

// Adds a DC's brush, pen and font.
fn add_selected(l: Line, d: Dc) -> Line
    requires { length l + 27 ≤ 160 }
    ensures { length result ≤ length l + 27 }
{
    l.hex8(d.selected_brush)
        .space()
        .hex8(d.selected_pen)
        .space()
        .hex8(d.selected_font)
        .space()
}

// Adds the colours of a DC's brush, pen and text.
fn add_colors(l: Line, d: Dc) -> Line
    requires { length l + 27 ≤ 160 }
    ensures { length result ≤ length l + 27 }
{
    l.hex8(d.brush_color.0)
        .space()
        .hex8(d.pen_color.0)
        .space()
        .hex8(d.text_color.0)
        .space()
}

// Adds a DC's alignment, background colour and background mode.
fn add_settings(l: Line, d: Dc) -> Line
    requires { length l + 19 ≤ 160 }
    ensures { length result ≤ length l + 19 }
{
    l.hex8(d.text_align)
        .space()
        .hex8(d.bk_color.0)
        .space()
        .flag(d.bk_transparent)
}
