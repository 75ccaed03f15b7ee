// Blits between two surfaces in either memory. Source pixels are read as they were before the call.
#![tactic(auto)]

ghost use Rattle.std.specs.Prelude.{◌≡◌, length};
ghost use Rattle.rop3.specs.Rop3.{table_of};
ghost use Rattle.blit.specs.Blit.{marks};
ghost use Rattle.place.specs.Place.{Inside, Within};
ghost use Rattle.plan.specs.Drawing.{blitted_at};
ghost use Rattle.plan.proofs.Followed.{OnMemories};
ghost use Rattle.transfer.specs.Inner.{SameOrApart, PlacesApart, blit_numbers, blit_into, transferred};

use blit::Blit;
use color::Rgb565;
use place::{Memory, Place};
use plan::{Area, Point};

// Blits from the surface at `src` to the surface at `at`. Returns whether a dirty mark is due.
pub fn blit_at(
    panel: &mut [u8],
    store: &mut [u8],
    at: Place,
    src: Place,
    area: Area,
    from: Point,
    rop: u32,
    pat: Rgb565,
) -> bool
    requires within { Within (length panel.old) (length store.old) at × Within (length panel.old) (length store.old) src }
    requires places_apart { PlacesApart at src }
    ensures value { result ≡ blitted_at at src area from }
    ensures bytes { OnMemories (λ ms ms'. ms' ≡ transferred at src area from (table_of rop) pat.0 ms) panel store }
{
    match at {
        Place::Nowhere => false,
        Place::At(m, p, w, h) => match src {
            Place::Nowhere => false,
            Place::At(n, q, sw, sh) => match m {
                Memory::Panel => match n {
                    Memory::Panel => blit_inside(panel, p, w, h, q, sw, sh, area, from, rop, pat),
                    Memory::Store => {
                        blit_between(panel, p, w, h, store, q, sw, sh, area, from, rop, pat)
                    }
                },
                Memory::Store => match n {
                    Memory::Panel => {
                        blit_between(store, p, w, h, panel, q, sw, sh, area, from, rop, pat)
                    }
                    Memory::Store => blit_inside(store, p, w, h, q, sw, sh, area, from, rop, pat),
                },
            },
        },
    }
}

// Blits to the surface at byte p from the surface at byte q of the other memory.
fn blit_between(
    mem: &mut [u8],
    p: usize,
    width: u32,
    height: u32,
    other: &[u8],
    q: usize,
    src_w: u32,
    src_h: u32,
    area: Area,
    from: Point,
    rop: u32,
    pat: Rgb565,
) -> bool
    requires { Inside (length mem.old) p width height × Inside (length other.now) q src_w src_h }
    ensures value { result ≡ marks (blit_numbers width height area from src_w src_h) }
    ensures bytes { mem.new ≡ blit_into p width height area from (table_of rop) pat.0 other.now q src_w src_h mem.old }
{
    let n = 2 * ((width * height) as usize);
    let k = 2 * ((src_w * src_h) as usize);
    let b = blit_numbers(width, height, area, from, src_w, src_h);
    blit::blit_from(&mut mem[p..p + n], b, &other[q..q + k], rop, pat)
}

// Blits to the surface at byte p from the surface at byte q of the same memory.
fn blit_inside(
    mem: &mut [u8],
    p: usize,
    width: u32,
    height: u32,
    q: usize,
    src_w: u32,
    src_h: u32,
    area: Area,
    from: Point,
    rop: u32,
    pat: Rgb565,
) -> bool
    requires inside { Inside (length mem.old) p width height × Inside (length mem.old) q src_w src_h }
    requires same_or_apart { SameOrApart p width height q src_w src_h }
    ensures value { result ≡ marks (blit_numbers width height area from src_w src_h) }
    ensures bytes { mem.new ≡ blit_into p width height area from (table_of rop) pat.0 mem.old q src_w src_h mem.old }
{
    let b = blit_numbers(width, height, area, from, src_w, src_h);
    blit_within::blit_within(mem, p / 2, q / 2, b, rop, pat)
}

// Returns the numbers of a blit to an area from a point.
fn blit_numbers(width: u32, height: u32, area: Area, from: Point, src_w: u32, src_h: u32) -> Blit
    ensures { result ≡ blit_numbers width height area from src_w src_h }
{
    Blit {
        width,
        height,
        dx: area.x,
        dy: area.y,
        sx: from.x,
        sy: from.y,
        w: area.w,
        h: area.h,
        src_w,
        src_h,
    }
}
