// Fills of a box: in one colour, and under a raster code.
#![tactic(auto)]

ghost use Rattle.std.specs.Prelude.{◌≡◌, ◌+◌, ◌*◌, ◌≤◌, ◌<◌, length};
ghost use Rattle.surface.specs.Region.{nonempty};
ghost use Rattle.surface.specs.Refusal.{drawn};
ghost use Rattle.fill.specs.Fill.{FillRect, FillRectRop};
ghost use Rattle.fill.specs.Inner.{ropped_rect};

use clip::Rect;
use color::Rgb565;
use refusals::Refusal;

// Fills the w by h pixels at x, y with one colour: fill_rect_rop under PATCOPY.
pub fn fill_rect(
    pixels: &mut [u8],
    width: u32,
    height: u32,
    x: i32,
    y: i32,
    w: i32,
    h: i32,
    color: Rgb565,
) -> Result<bool, Refusal>
    ensures { FillRect x y w h color.0 width height pixels.old (drawn result) pixels.new }
{
    fill_rect_rop(pixels, width, height, x, y, w, h, color, rop3::PATCOPY)
}

// Combines pattern and destination under a raster code at the w by h pixels at x, y. The source operand is 0.
pub fn fill_rect_rop(
    pixels: &mut [u8],
    width: u32,
    height: u32,
    x: i32,
    y: i32,
    w: i32,
    h: i32,
    pat: Rgb565,
    rop: u32,
) -> Result<bool, Refusal>
    ensures { FillRectRop x y w h pat.0 rop width height pixels.old (drawn result) pixels.new }
{
    surface::check(width, height, pixels.len())?;
    let part = clip::clip_rect(x, y, w, h, width, height);
    Ok(rop_rect(pixels, width, part, rop3::table(rop), pat.0))
}

// Combines pattern and destination under a table at the pixels of a clipped rectangle. Returns whether it has any.
pub fn rop_rect(pixels: &mut [u8], width: u32, r: Rect, table: u8, pat: u16) -> bool
    requires { (0 < width) × ((r.x1 ≤ width) × (2 * (r.y1 * width) ≤ length pixels.old)) }
    ensures value { result ≡ nonempty r.x0 r.x1 r.y0 r.y1 }
    ensures bytes { pixels.new ≡ ropped_rect width r.x0 r.x1 r.y0 r.y1 table pat pixels.old }
{
    if r.x1 <= r.x0 {
        return false;
    }
    if r.y1 <= r.y0 {
        return false;
    }
    let columns = (r.x1 - r.x0) as usize;
    rop_rows(
        pixels,
        width as usize,
        r.x0 as usize,
        columns,
        r.y0 as usize,
        r.y1 as usize,
        table,
        pat,
    );
    true
}

// The same in the columns from x0 on of rows y0 .. y1. start is the word at which row r begins.
fn rop_rows(
    pixels: &mut [u8],
    width: usize,
    x0: usize,
    columns: usize,
    y0: usize,
    y1: usize,
    table: u8,
    pat: u16,
)
    requires { (0 < width) × ((x0 + columns ≤ width) × (2 * (y1 * width) ≤ length pixels.old)) }
    ensures { pixels.new ≡ ropped_rect width x0 (x0 + columns) y0 y1 table pat pixels.old }
{
    if y1 <= y0 {
        return;
    }
    let mut start = y0 * width;
    for r in y0..y1 {
        raster::rop_run(pixels, start + x0, columns, table, pat);
        start += width;
    }
}
