// Blits between two surfaces of one memory, or within one.
#![tactic(auto)]

ghost use Rattle.std.specs.Prelude.{◌≡◌, ◌≤◌, ◌<◌, length};
ghost use Rattle.rop3.specs.Rop3.{table_of};
ghost use Rattle.blit.specs.Blit.{marks};
ghost use Rattle.blit_within.specs.Inner.{blit_within, Placed, row_within, rows_within, RoomWithin};

use blit::Blit;
use clip_blit::BlitRect;
use color::Rgb565;

// Two surfaces of one memory: the words where they begin, and their widths.
#[derive(Clone, Copy)]
pub struct Pair {
    pub at: usize,
    pub width: u32,
    pub src_at: usize,
    pub src_w: u32,
}

// Blits between two surfaces of one memory, or within one. at and src_at are the words where they begin. The source pixels are
// those before the call. Returns whether a dirty mark is due.
pub fn blit_within(mem: &mut [u8], at: usize, src_at: usize, b: Blit, rop: u32, pat: Rgb565) -> bool
    requires { Placed (length mem.old) at src_at b }
    ensures value { result ≡ marks b }
    ensures bytes { mem.new ≡ blit_within b at src_at (table_of rop) pat.0 mem.old }
{
    let r = blit::clip_of(b);
    if blit::is_empty(r) {
        return false;
    }
    let p = Pair {
        at,
        width: b.width,
        src_at,
        src_w: b.src_w,
    };
    rows_within(mem, p, r, rop3::table(rop), pat.0);
    true
}

// Draws the rows of a box within one memory, in an order in which none is read after it was drawn.
fn rows_within(mem: &mut [u8], p: Pair, r: BlitRect, table: u8, pat: u16)
    requires { RoomWithin (length mem.old) p.at p.width p.src_at p.src_w r }
    ensures { mem.new ≡ rows_within r p.at p.width p.src_at p.src_w table pat r.y0 r.y1 mem.old }
{
    if r.y0 <= r.src_y0 {
        for y in r.y0..r.y1 {
            row_within(mem, p, r, y, table, pat);
        }
    } else {
        for y in (r.y0..r.y1).rev() {
            row_within(mem, p, r, y, table, pat);
        }
    }
}

// Draws row y of the box.
fn row_within(mem: &mut [u8], p: Pair, r: BlitRect, y: u32, table: u8, pat: u16)
    requires room_within { RoomWithin (length mem.old) p.at p.width p.src_at p.src_w r }
    requires y0_le_y { (r.y0 ≤ y) × (y < r.y1) }
    ensures { mem.new ≡ row_within r p.at p.width p.src_at p.src_w table pat y mem.old }
{
    let columns = (r.x1 - r.x0) as usize;
    let to = p.at + ((y as usize) * (p.width as usize) + (r.x0 as usize));
    let from = p.src_at + (blit::source_row(r, y) * (p.src_w as usize) + (r.src_x0 as usize));
    raster_from::rop_run_within(mem, to, from, columns, table, pat);
}
