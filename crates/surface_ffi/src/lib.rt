// The operations on lent bytes, for programs in other languages; `surface_ffi_c` has these functions under C names. A colour is a
// struct of its 16 bits. Each makes the surface struct from its parts and passes it on.
#![tactic(auto)]

ghost use Rattle.fill.specs.Fill.{FillRect, FillRectRop};
ghost use Rattle.outline.specs.Outline.{StrokeRect};
ghost use Rattle.blit.specs.Blit.{BlitBytes};
ghost use Rattle.text.specs.Ink.{DrawChar, DrawStr};

// fill::fill_rect
pub fn ravinefork_fill_rect(
    pixels: &mut [u8],
    width: u32,
    height: u32,
    x: i32,
    y: i32,
    w: i32,
    h: i32,
    color: color::Rgb565,
) -> surface::Drawn
    ensures { FillRect x y w h color.0 width height pixels.old result pixels.new }
{
    let s = surface_operations::Surface {
        pixels,
        width,
        height,
    };
    surface_operations::fill_rect(s, x, y, w, h, color).into()
}

// fill::fill_rect_rop
pub fn ravinefork_fill_rect_rop(
    pixels: &mut [u8],
    width: u32,
    height: u32,
    x: i32,
    y: i32,
    w: i32,
    h: i32,
    pat: color::Rgb565,
    rop: u32,
) -> surface::Drawn
    ensures { FillRectRop x y w h pat.0 rop width height pixels.old result pixels.new }
{
    let s = surface_operations::Surface {
        pixels,
        width,
        height,
    };
    surface_operations::fill_rect_rop(s, x, y, w, h, pat, rop).into()
}

// outline::stroke_rect
pub fn ravinefork_stroke_rect(
    pixels: &mut [u8],
    width: u32,
    height: u32,
    x: i32,
    y: i32,
    w: i32,
    h: i32,
    color: color::Rgb565,
) -> surface::Drawn
    ensures { StrokeRect x y w h color.0 width height pixels.old result pixels.new }
{
    let s = surface_operations::Surface {
        pixels,
        width,
        height,
    };
    surface_operations::stroke_rect(s, x, y, w, h, color).into()
}

// blit::blit_from_bytes_rop
pub fn ravinefork_blit_from_bytes_rop(
    pixels: &mut [u8],
    width: u32,
    height: u32,
    dx: i32,
    dy: i32,
    sx: i32,
    sy: i32,
    w: i32,
    h: i32,
    src: &[u8],
    src_w: u32,
    src_h: u32,
    rop: u32,
    pat: color::Rgb565,
) -> surface::Drawn
    ensures { BlitBytes dx dy sx sy w h src.now src_w src_h rop pat.0 width height pixels.old result pixels.new }
{
    let s = surface_operations::Surface {
        pixels,
        width,
        height,
    };
    surface_operations::blit_from_bytes_rop(
        s, dx, dy, sx, sy, w, h, src, src_w, src_h, rop, pat,
    ).into()
}

// text::draw_char
pub fn ravinefork_draw_char(
    pixels: &mut [u8],
    width: u32,
    height: u32,
    x: i32,
    y: i32,
    ch: u32,
    color: color::Rgb565,
) -> surface::Drawn
    ensures { DrawChar x y ch color.0 width height pixels.old result pixels.new }
{
    let s = surface_operations::Surface {
        pixels,
        width,
        height,
    };
    surface_operations::draw_char(s, x, y, ch, color).into()
}

// text::draw_str_u16
pub fn ravinefork_draw_str_u16(
    pixels: &mut [u8],
    width: u32,
    height: u32,
    x: i32,
    y: i32,
    units: &[u16],
    color: color::Rgb565,
) -> surface::Advance
    ensures { DrawStr x y units.now color.0 width height pixels.old result pixels.new }
{
    let s = surface_operations::Surface {
        pixels,
        width,
        height,
    };
    surface_operations::draw_str_u16(s, x, y, units, color).into()
}
