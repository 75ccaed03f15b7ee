// The operations on lent bytes under C names, for programs in other languages: each passes its arguments on to `surface_ffi`'s of the
// same name, and ensures what that one does. In C a slice is a pointer and a length, a colour a struct of its 16 bits.
#![tactic(auto)]

ghost use Rattle.fill.specs.Fill.{FillRect, FillRectRop};
ghost use Rattle.outline.specs.Outline.{StrokeRect};
ghost use Rattle.blit.specs.Blit.{BlitBytes};
ghost use Rattle.text.specs.Ink.{DrawChar, DrawStr};

// fill::fill_rect
#[unsafe(no_mangle)]
pub extern "C" fn ravinefork_fill_rect(
    pixels: &mut [u8],
    width: u32,
    height: u32,
    x: i32,
    y: i32,
    w: i32,
    h: i32,
    color: color::Rgb565,
) -> surface::Drawn
    ensures { FillRect x y w h color.0 width height pixels.old result pixels.new }
{
    surface_ffi::ravinefork_fill_rect(pixels, width, height, x, y, w, h, color)
}

// fill::fill_rect_rop
#[unsafe(no_mangle)]
pub extern "C" fn ravinefork_fill_rect_rop(
    pixels: &mut [u8],
    width: u32,
    height: u32,
    x: i32,
    y: i32,
    w: i32,
    h: i32,
    pat: color::Rgb565,
    rop: u32,
) -> surface::Drawn
    ensures { FillRectRop x y w h pat.0 rop width height pixels.old result pixels.new }
{
    surface_ffi::ravinefork_fill_rect_rop(pixels, width, height, x, y, w, h, pat, rop)
}

// outline::stroke_rect
#[unsafe(no_mangle)]
pub extern "C" fn ravinefork_stroke_rect(
    pixels: &mut [u8],
    width: u32,
    height: u32,
    x: i32,
    y: i32,
    w: i32,
    h: i32,
    color: color::Rgb565,
) -> surface::Drawn
    ensures { StrokeRect x y w h color.0 width height pixels.old result pixels.new }
{
    surface_ffi::ravinefork_stroke_rect(pixels, width, height, x, y, w, h, color)
}

// blit::blit_from_bytes_rop
#[unsafe(no_mangle)]
pub extern "C" fn ravinefork_blit_from_bytes_rop(
    pixels: &mut [u8],
    width: u32,
    height: u32,
    dx: i32,
    dy: i32,
    sx: i32,
    sy: i32,
    w: i32,
    h: i32,
    src: &[u8],
    src_w: u32,
    src_h: u32,
    rop: u32,
    pat: color::Rgb565,
) -> surface::Drawn
    ensures { BlitBytes dx dy sx sy w h src.now src_w src_h rop pat.0 width height pixels.old result pixels.new }
{
    surface_ffi::ravinefork_blit_from_bytes_rop(
        pixels, width, height, dx, dy, sx, sy, w, h, src, src_w, src_h, rop, pat,
    )
}

// text::draw_char
#[unsafe(no_mangle)]
pub extern "C" fn ravinefork_draw_char(
    pixels: &mut [u8],
    width: u32,
    height: u32,
    x: i32,
    y: i32,
    ch: u32,
    color: color::Rgb565,
) -> surface::Drawn
    ensures { DrawChar x y ch color.0 width height pixels.old result pixels.new }
{
    surface_ffi::ravinefork_draw_char(pixels, width, height, x, y, ch, color)
}

// text::draw_str_u16
#[unsafe(no_mangle)]
pub extern "C" fn ravinefork_draw_str_u16(
    pixels: &mut [u8],
    width: u32,
    height: u32,
    x: i32,
    y: i32,
    units: &[u16],
    color: color::Rgb565,
) -> surface::Advance
    ensures { DrawStr x y units.now color.0 width height pixels.old result pixels.new }
{
    surface_ffi::ravinefork_draw_str_u16(pixels, width, height, x, y, units, color)
}
