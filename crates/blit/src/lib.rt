// Blits: a box of a source drawn on a surface under a raster code. The source is other bytes.
#![tactic(auto)]

ghost use Rattle.std.specs.Prelude.{not, ◌≡◌, ◌+◌, ◌-◌, ◌≤◌, ◌<◌, length};
ghost use Rattle.rop3.specs.Rop3.{table_of};
ghost use Rattle.surface.specs.Region.{nonempty};
ghost use Rattle.surface.specs.Refusal.{drawn};
ghost use Rattle.surface.proofs.Accepted.{InOrder};
ghost use Rattle.blit.specs.Blit.{clipped, marks, blit_from, BlitBytes};
ghost use Rattle.blit.specs.Inner.{row_from, rows_from, RoomFrom};

use clip_blit::BlitRect;
use color::Rgb565;
use refusals::Refusal;

// The numbers of a blit: the destination's sides, its box, the point in the source, and the source's sides.
#[derive(Clone, Copy)]
pub struct Blit {
    pub width: u32,
    pub height: u32,
    pub dx: i32,
    pub dy: i32,
    pub sx: i32,
    pub sy: i32,
    pub w: i32,
    pub h: i32,
    pub src_w: u32,
    pub src_h: u32,
}

// Blits the w by h pixels at sx, sy of src to dx, dy under a raster code. A row whose part of src passes its end is skipped.
pub fn blit_from_bytes_rop(
    pixels: &mut [u8],
    width: u32,
    height: u32,
    dx: i32,
    dy: i32,
    sx: i32,
    sy: i32,
    w: i32,
    h: i32,
    src: &[u8],
    src_w: u32,
    src_h: u32,
    rop: u32,
    pat: Rgb565,
) -> Result<bool, Refusal>
    ensures { BlitBytes dx dy sx sy w h src.now src_w src_h rop pat.0 width height pixels.old (drawn result) pixels.new }
{
    surface::check_from(width, height, src_w, src_h, pixels.len())?;
    let b = Blit {
        width,
        height,
        dx,
        dy,
        sx,
        sy,
        w,
        h,
        src_w,
        src_h,
    };
    Ok(blit_from(pixels, b, src, rop, pat))
}

// The same on a surface whose sides and length were checked. Returns whether a dirty mark is due.
pub fn blit_from(pixels: &mut [u8], b: Blit, src: &[u8], rop: u32, pat: Rgb565) -> bool
    requires { InOrder b.width b.height (length pixels.old) × (b.src_w ≤ 4096) }
    ensures value { result ≡ marks b }
    ensures bytes { pixels.new ≡ blit_from b (table_of rop) pat.0 src.now pixels.old }
{
    let r = clip_of(b);
    if is_empty(r) {
        return false;
    }
    blit_rows(pixels, b.width, src, b.src_w, r, rop3::table(rop), pat.0);
    true
}

// Returns the part of a blit that is drawn.
pub fn clip_of(b: Blit) -> BlitRect
    ensures { result ≡ clipped b }
{
    clip_blit::clip_blit(
        b.dx, b.dy, b.sx, b.sy, b.w, b.h, b.width, b.height, b.src_w, b.src_h,
    )
}

// Returns whether a box has no pixel.
pub fn is_empty(r: BlitRect) -> bool
    ensures { result ≡ not (nonempty r.x0 r.x1 r.y0 r.y1) }
{
    r.x1 <= r.x0 || r.y1 <= r.y0
}

// Draws the rows of a box from other bytes.
fn blit_rows(
    pixels: &mut [u8],
    width: u32,
    src: &[u8],
    src_w: u32,
    r: BlitRect,
    table: u8,
    pat: u16,
)
    requires { RoomFrom (length pixels.old) width src_w r }
    ensures { pixels.new ≡ rows_from r width src_w table pat r.y1 src.now pixels.old }
{
    for y in r.y0..r.y1 {
        blit_row(pixels, width, src, src_w, r, y, table, pat);
    }
}

// Draws row y, unless its part of src passes the end.
fn blit_row(
    pixels: &mut [u8],
    width: u32,
    src: &[u8],
    src_w: u32,
    r: BlitRect,
    y: u32,
    table: u8,
    pat: u16,
)
    requires room_from { RoomFrom (length pixels.old) width src_w r }
    requires y0_le_y { (r.y0 ≤ y) × (y < r.y1) }
    ensures { pixels.new ≡ row_from r width src_w table pat y src.now pixels.old }
{
    let columns = (r.x1 - r.x0) as usize;
    let to = (y as usize) * (width as usize) + (r.x0 as usize);
    let from = source_row(r, y) * (src_w as usize) + (r.src_x0 as usize);
    if 2 * (from + columns) <= src.len() {
        raster_from::rop_run_from(pixels, src, to, from, columns, table, pat);
    }
}

// Returns the row of the source for row y of a box.
pub fn source_row(r: BlitRect, y: u32) -> usize
    requires { r.y0 ≤ y }
    ensures { result ≡ r.src_y0 + (y - r.y0) }
{
    (r.src_y0 as usize) + ((y - r.y0) as usize)
}
