// The operations on a surface struct. Each takes it apart and calls the function on slice and numbers. The law
// `apart_meets` speaks of these bodies, which read the sides in the call that is lent the pixels; it proves each of them.
#![tactic(auto)]

ghost use Rattle.fill.specs.Fill.{FillRect, FillRectRop};
ghost use Rattle.outline.specs.Outline.{StrokeRect};
ghost use Rattle.blit.specs.Blit.{BlitBytes};
ghost use Rattle.text.specs.Ink.{DrawChar, DrawStr};
ghost use Rattle.surface.specs.Refusal.{drawn, advanced};
ghost use Rattle.surface_struct.specs.On.{On};

use color::Rgb565;
use refusals::Refusal;
pub use surface_struct::Surface;

// Fills the w by h pixels at x, y with one colour.
pub fn fill_rect<'a>(
    s: Surface<'a>,
    x: i32,
    y: i32,
    w: i32,
    h: i32,
    color: Rgb565,
) -> Result<bool, Refusal>
    ensures { On s.entry (FillRect x y w h color.0) (drawn result) s.exit.0.now }
{
    fill::fill_rect(&mut *s.pixels, s.width, s.height, x, y, w, h, color)
}

// Combines pattern and destination under a raster code at the w by h pixels at x, y. The source operand is 0.
pub fn fill_rect_rop<'a>(
    s: Surface<'a>,
    x: i32,
    y: i32,
    w: i32,
    h: i32,
    pat: Rgb565,
    rop: u32,
) -> Result<bool, Refusal>
    ensures { On s.entry (FillRectRop x y w h pat.0 rop) (drawn result) s.exit.0.now }
{
    fill::fill_rect_rop(&mut *s.pixels, s.width, s.height, x, y, w, h, pat, rop)
}

// Draws the outline of the w by h pixels at x, y, one pixel thick.
pub fn stroke_rect<'a>(
    s: Surface<'a>,
    x: i32,
    y: i32,
    w: i32,
    h: i32,
    color: Rgb565,
) -> Result<bool, Refusal>
    ensures { On s.entry (StrokeRect x y w h color.0) (drawn result) s.exit.0.now }
{
    outline::stroke_rect(&mut *s.pixels, s.width, s.height, x, y, w, h, color)
}

// Blits the w by h pixels at sx, sy of src to dx, dy under a raster code.
pub fn blit_from_bytes_rop<'a>(
    s: Surface<'a>,
    dx: i32,
    dy: i32,
    sx: i32,
    sy: i32,
    w: i32,
    h: i32,
    src: &[u8],
    src_w: u32,
    src_h: u32,
    rop: u32,
    pat: Rgb565,
) -> Result<bool, Refusal>
    ensures { On s.entry (BlitBytes dx dy sx sy w h src.now src_w src_h rop pat.0) (drawn result) s.exit.0.now }
{
    blit::blit_from_bytes_rop(
        &mut *s.pixels,
        s.width,
        s.height,
        dx,
        dy,
        sx,
        sy,
        w,
        h,
        src,
        src_w,
        src_h,
        rop,
        pat,
    )
}

// Draws the character ch with its upper left corner at x, y.
pub fn draw_char<'a>(
    s: Surface<'a>,
    x: i32,
    y: i32,
    ch: u32,
    color: Rgb565,
) -> Result<bool, Refusal>
    ensures { On s.entry (DrawChar x y ch color.0) (drawn result) s.exit.0.now }
{
    text::draw_char(&mut *s.pixels, s.width, s.height, x, y, ch, color)
}

// Draws the text before unit 0 or the end, with its upper left corner at x, y.
pub fn draw_str_u16<'a>(
    s: Surface<'a>,
    x: i32,
    y: i32,
    units: &[u16],
    color: Rgb565,
) -> Result<u32, Refusal>
    ensures { On s.entry (DrawStr x y units.now color.0) (advanced result) s.exit.0.now }
{
    text::draw_str_u16(&mut *s.pixels, s.width, s.height, x, y, units, color)
}
