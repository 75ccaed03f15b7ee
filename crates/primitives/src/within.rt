// Cases 13 and 19: blits within the memory, on one surface or between two.
ghost use Rattle.std.specs.Prelude.{◌≡◌, ◌+◌, ◌*◌, ◌≤◌, length, IfSome};
ghost use Rattle.primitives.specs.Cases.{Served, Fitting, Apart, Paired};

use crate::line::Reply;
use crate::memory::Sides;
use crate::{drawing, line, memory};
use blit::Blit;
use color::Rgb565;

// Case 13: a blit within the surface.
pub fn blit_within(c: &[u8], mem: &mut [u8], sides: Sides) -> Option<Reply>
    requires mem_len { length mem.old ≡ 153600 }
    requires served { Served sides }
    ensures { IfSome result (λ r. Fitting c.now r) }
{
    if c.len() < 31 {
        return None;
    }
    let marked = blitted(c, 1, mem, 0, sides, 0, sides);
    let line = line::start(0x13).space().flag(marked);
    Some(Reply {
        size: 31,
        line: memory::with_crc(line, mem, 2 * memory::words_in(sides)),
    })
}

// Case 19: a blit between two surfaces, one at the start of the memory and one right behind it.
pub fn blit_between(c: &[u8], mem: &mut [u8]) -> Option<Reply>
    requires { length mem.old ≡ 153600 }
    ensures { IfSome result (λ r. Fitting c.now r) }
{
    if c.len() < 40 {
        return None;
    }
    let dst = memory::read_sides(c, 2);
    let src = memory::read_sides(c, 6);
    let n = memory::words_in(dst);
    let src_n = memory::words_in(src);
    if n == 0 || src_n == 0 || memory::WORDS < n + src_n {
        return None;
    }
    between(c, mem, dst, src, n, src_n)
}

// The same for surfaces of n and src_n words, which fit.
fn between(
    c: &[u8],
    mem: &mut [u8],
    dst: Sides,
    src: Sides,
    n: usize,
    src_n: usize,
) -> Option<Reply>
    requires in_bounds { 40 ≤ length c.now }
    requires mem_len { length mem.old ≡ 153600 }
    requires paired { Paired dst src n src_n }
    ensures { IfSome result (λ r. Fitting c.now r) }
{
    match c[1] {
        0 => {
            let marked = blitted(c, 10, mem, 0, dst, n, src);
            Some(between_reply(marked, mem, n + src_n))
        }
        1 => {
            let marked = blitted(c, 10, mem, src_n, dst, 0, src);
            Some(between_reply(marked, mem, n + src_n))
        }
        _ => None,
    }
}

// Case 19's reply, with the CRC of the memory's first n words.
fn between_reply(marked: bool, mem: &[u8], n: usize) -> Reply
    requires { 2 * n ≤ length mem.now }
    ensures { (result.size ≡ 40) × (length result.line ≡ 13) }
{
    let line = line::start(0x19).space().flag(marked);
    Reply {
        size: 40,
        line: memory::with_crc(line, mem, 2 * n),
    }
}

// The blit that a case names from `args` on, between the surfaces that begin at these words. Whether a mark is due.
fn blitted(
    c: &[u8],
    args: usize,
    mem: &mut [u8],
    at: usize,
    dst: Sides,
    src_at: usize,
    src: Sides,
) -> bool
    requires args_in_bounds { args + 30 ≤ length c.now }
    requires apart { Apart (length mem.old) at dst src_at src }
{
    let r = drawing::read_route(c, args);
    let code = bigendian::read_u32(c, args + 24);
    let pattern = Rgb565(bigendian::read_u16(c, args + 28));
    let b = Blit {
        width: dst.w,
        height: dst.h,
        dx: r.dx,
        dy: r.dy,
        sx: r.sx,
        sy: r.sy,
        w: r.w,
        h: r.h,
        src_w: src.w,
        src_h: src.h,
    };
    blit_within::blit_within(mem, at, src_at, b, code, pattern)
}
