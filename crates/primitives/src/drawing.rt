// Cases 11, 12 and 14 to 17: the operations on lent bytes, refused or not.
ghost use Rattle.std.specs.Prelude.{◌≡◌, ◌+◌, ◌*◌, ◌≤◌, ◌<◌, length, IfSome};
ghost use Rattle.primitives.specs.Cases.{Fitting};

use crate::line::Reply;
use crate::memory::Lent;
use crate::{line, memory};
use color::Rgb565;
use refusals::Refusal;
use surface::{Advance, Drawn};

// The most units that a case has.
const MOST_UNITS: usize = 65_600;

// The longest source.
const LONGEST_SOURCE: usize = 8_192;

// A box on a surface.
#[derive(Clone, Copy)]
struct Area {
    x: i32,
    y: i32,
    w: i32,
    h: i32,
}

// A blit's box: where to, where from, how much.
#[derive(Clone, Copy)]
pub struct Route {
    pub dx: i32,
    pub dy: i32,
    pub sx: i32,
    pub sy: i32,
    pub w: i32,
    pub h: i32,
}

// The reply to the case of this byte at the front of c.
pub fn work_out(kind: u8, c: &[u8], mem: &mut [u8], lent: Lent) -> Option<Reply>
    requires mem_len { length mem.old ≡ 153600 }
    requires len_bound { lent.len ≤ 153600 }
    ensures { IfSome result (λ r. Fitting c.now r) }
{
    match kind {
        0x11 => pattern_fill_case(c, mem, lent),
        0x12 => blit_case(c, mem, lent),
        0x14 => char_case(c, mem, lent),
        0x15 => fill_case(c, mem, lent),
        0x16 => outline_case(c, mem, lent),
        0x17 => text_case(c, mem, lent),
        _ => None,
    }
}

// The reply to a case that was drawn or refused.
fn drawn_reply(kind: u8, size: usize, drawn: Result<bool, Refusal>, mem: &[u8], lent: Lent) -> Reply
    requires { lent.len ≤ length mem.now }
    ensures { (result.size ≡ size) × (length result.line ≡ 16) }
{
    let drawn = Drawn::from(drawn);
    let refusal = (drawn.refusal % 256) as u8;
    let l = line::start(kind)
        .space()
        .hex2(refusal)
        .space()
        .flag(drawn.marked);
    Reply {
        size,
        line: memory::with_crc(l, mem, lent.len),
    }
}

// The box of cases 11, 15 and 16.
fn read_area(c: &[u8]) -> Area
    requires { 17 ≤ length c.now }
{
    Area {
        x: bigendian::read_i32(c, 1),
        y: bigendian::read_i32(c, 5),
        w: bigendian::read_i32(c, 9),
        h: bigendian::read_i32(c, 13),
    }
}

// The box of a blit, from `at` on.
pub fn read_route(c: &[u8], at: usize) -> Route
    requires { at + 24 ≤ length c.now }
{
    Route {
        dx: bigendian::read_i32(c, at),
        dy: bigendian::read_i32(c, at + 4),
        sx: bigendian::read_i32(c, at + 8),
        sy: bigendian::read_i32(c, at + 12),
        w: bigendian::read_i32(c, at + 16),
        h: bigendian::read_i32(c, at + 20),
    }
}

// Case 11: a pattern fill.
fn pattern_fill_case(c: &[u8], mem: &mut [u8], lent: Lent) -> Option<Reply>
    requires mem_len { length mem.old ≡ 153600 }
    requires len_bound { lent.len ≤ 153600 }
    ensures { IfSome result (λ r. Fitting c.now r) }
{
    if c.len() < 23 {
        return None;
    }
    let drawn = pattern_filled(c, mem, lent);
    Some(drawn_reply(0x11, 23, drawn, mem, lent))
}

// The pattern fill that case 11 names.
fn pattern_filled(c: &[u8], mem: &mut [u8], lent: Lent) -> Result<bool, Refusal>
    requires in_bounds { 23 ≤ length c.now }
    requires len_in_bounds { lent.len ≤ length mem.old }
{
    let a = read_area(c);
    let pattern = Rgb565(bigendian::read_u16(c, 17));
    let code = bigendian::read_u32(c, 19);
    fill::fill_rect_rop(
        &mut mem[..lent.len],
        lent.w,
        lent.h,
        a.x,
        a.y,
        a.w,
        a.h,
        pattern,
        code,
    )
}

// Case 15: a fill.
fn fill_case(c: &[u8], mem: &mut [u8], lent: Lent) -> Option<Reply>
    requires mem_len { length mem.old ≡ 153600 }
    requires len_bound { lent.len ≤ 153600 }
    ensures { IfSome result (λ r. Fitting c.now r) }
{
    if c.len() < 19 {
        return None;
    }
    let drawn = filled(c, mem, lent);
    Some(drawn_reply(0x15, 19, drawn, mem, lent))
}

// The fill that case 15 names.
fn filled(c: &[u8], mem: &mut [u8], lent: Lent) -> Result<bool, Refusal>
    requires in_bounds { 19 ≤ length c.now }
    requires len_in_bounds { lent.len ≤ length mem.old }
{
    let a = read_area(c);
    let color = Rgb565(bigendian::read_u16(c, 17));
    fill::fill_rect(
        &mut mem[..lent.len],
        lent.w,
        lent.h,
        a.x,
        a.y,
        a.w,
        a.h,
        color,
    )
}

// Case 16: an outline.
fn outline_case(c: &[u8], mem: &mut [u8], lent: Lent) -> Option<Reply>
    requires mem_len { length mem.old ≡ 153600 }
    requires len_bound { lent.len ≤ 153600 }
    ensures { IfSome result (λ r. Fitting c.now r) }
{
    if c.len() < 19 {
        return None;
    }
    let drawn = outlined(c, mem, lent);
    Some(drawn_reply(0x16, 19, drawn, mem, lent))
}

// The outline that case 16 names.
fn outlined(c: &[u8], mem: &mut [u8], lent: Lent) -> Result<bool, Refusal>
    requires in_bounds { 19 ≤ length c.now }
    requires len_in_bounds { lent.len ≤ length mem.old }
{
    let a = read_area(c);
    let color = Rgb565(bigendian::read_u16(c, 17));
    outline::stroke_rect(
        &mut mem[..lent.len],
        lent.w,
        lent.h,
        a.x,
        a.y,
        a.w,
        a.h,
        color,
    )
}

// Case 12: a blit from a source of its own.
fn blit_case(c: &[u8], mem: &mut [u8], lent: Lent) -> Option<Reply>
    requires mem_len { length mem.old ≡ 153600 }
    requires len_bound { lent.len ≤ 153600 }
    ensures { IfSome result (λ r. Fitting c.now r) }
{
    if c.len() < 45 {
        return None;
    }
    let n = bigendian::read_u16(c, 33) as usize;
    if LONGEST_SOURCE < n {
        return None;
    }
    let drawn = with_source(c, mem, lent, n);
    Some(drawn_reply(0x12, 45, drawn, mem, lent))
}

// The blit that case 12 names, from n bytes.
fn with_source(c: &[u8], mem: &mut [u8], lent: Lent, n: usize) -> Result<bool, Refusal>
    requires in_bounds { (45 ≤ length c.now) × (n ≤ 8192) }
    requires len_in_bounds { lent.len ≤ length mem.old }
{
    let mut source = [0u8; LONGEST_SOURCE];
    let seed = bigendian::read_u32(c, 35);
    memory::fill_words(&mut source, (n + 1) / 2, seed);
    blitted(c, mem, lent, &source, n)
}

// The same on the first n bytes of `source`.
fn blitted(c: &[u8], mem: &mut [u8], lent: Lent, source: &[u8], n: usize) -> Result<bool, Refusal>
    requires in_bounds { (45 ≤ length c.now) × (n ≤ length source.now) }
    requires len_in_bounds { lent.len ≤ length mem.old }
{
    let r = read_route(c, 1);
    let src_w = bigendian::read_u32(c, 25);
    let src_h = bigendian::read_u32(c, 29);
    let code = bigendian::read_u32(c, 39);
    let pattern = Rgb565(bigendian::read_u16(c, 43));
    blit::blit_from_bytes_rop(
        &mut mem[..lent.len],
        lent.w,
        lent.h,
        r.dx,
        r.dy,
        r.sx,
        r.sy,
        r.w,
        r.h,
        &source[..n],
        src_w,
        src_h,
        code,
        pattern,
    )
}

// Case 14: a character.
fn char_case(c: &[u8], mem: &mut [u8], lent: Lent) -> Option<Reply>
    requires mem_len { length mem.old ≡ 153600 }
    requires len_bound { lent.len ≤ 153600 }
    ensures { IfSome result (λ r. Fitting c.now r) }
{
    if c.len() < 15 {
        return None;
    }
    let drawn = char_drawn(c, mem, lent);
    Some(drawn_reply(0x14, 15, drawn, mem, lent))
}

// The character that case 14 names.
fn char_drawn(c: &[u8], mem: &mut [u8], lent: Lent) -> Result<bool, Refusal>
    requires in_bounds { 15 ≤ length c.now }
    requires len_in_bounds { lent.len ≤ length mem.old }
{
    let x = bigendian::read_i32(c, 1);
    let y = bigendian::read_i32(c, 5);
    let ch = bigendian::read_u32(c, 9);
    let color = Rgb565(bigendian::read_u16(c, 13));
    text::draw_char(&mut mem[..lent.len], lent.w, lent.h, x, y, ch, color)
}

// Case 17: a text.
fn text_case(c: &[u8], mem: &mut [u8], lent: Lent) -> Option<Reply>
    requires mem_len { length mem.old ≡ 153600 }
    requires len_bound { lent.len ≤ 153600 }
    ensures { IfSome result (λ r. Fitting c.now r) }
{
    if c.len() < 20 {
        return None;
    }
    let count = bigendian::read_u32(c, 11) as usize;
    let n = wide(c[19]);
    if MOST_UNITS < count || n == 0 || c.len() < 20 + 2 * n {
        return None;
    }
    let drawn = with_units(c, mem, lent, count, n);
    Some(text_reply(20 + 2 * n, drawn, mem, lent))
}

// The number of a byte.
fn wide(n: u8) -> usize
    ensures { result ≤ 255 }
{
    n as usize
}

// The reply to a text that was drawn or refused.
fn text_reply(size: usize, drawn: Result<u32, Refusal>, mem: &[u8], lent: Lent) -> Reply
    requires { lent.len ≤ length mem.now }
    ensures { (result.size ≡ size) × (length result.line ≡ 23) }
{
    let drawn = Advance::from(drawn);
    let refusal = (drawn.refusal % 256) as u8;
    let l = line::start(0x17)
        .space()
        .hex2(refusal)
        .space()
        .hex8(drawn.advance);
    Reply {
        size,
        line: memory::with_crc(l, mem, lent.len),
    }
}

// The text that case 17 names, of count units: the n of the case, repeated.
fn with_units(c: &[u8], mem: &mut [u8], lent: Lent, count: usize, n: usize) -> Result<u32, Refusal>
    requires count_bound { (count ≤ 65600) × ((0 < n) × (20 + 2 * n ≤ length c.now)) }
    requires len_in_bounds { lent.len ≤ length mem.old }
{
    let mut units = [0u16; MOST_UNITS];
    let stop = bigendian::read_u32(c, 15) as usize;
    put_units(c, &mut units, count, stop, n);
    text_drawn(c, mem, lent, &units, count)
}

// Writes the first count units: the n of the case, repeated; unit number stop is 0.
fn put_units(c: &[u8], units: &mut [u16], count: usize, stop: usize, n: usize)
    requires n_nonzero { (0 < n) × (20 + 2 * n ≤ length c.now) }
    requires count_in_bounds { count ≤ length units.old }
{
    for (k, unit) in units[..count].iter_mut().enumerate() {
        *unit = unit_at(c, 20 + 2 * (k % n), k == stop);
    }
}

// The unit at `at`, or 0 where the text is to stop.
fn unit_at(c: &[u8], at: usize, stopped: bool) -> u16
    requires { at + 2 ≤ length c.now }
{
    if stopped {
        0
    } else {
        bigendian::read_u16(c, at)
    }
}

// The same on the first count units of `units`.
fn text_drawn(
    c: &[u8],
    mem: &mut [u8],
    lent: Lent,
    units: &[u16],
    count: usize,
) -> Result<u32, Refusal>
    requires in_bounds { (20 ≤ length c.now) × (count ≤ length units.now) }
    requires len_in_bounds { lent.len ≤ length mem.old }
{
    let x = bigendian::read_i32(c, 1);
    let y = bigendian::read_i32(c, 5);
    let color = Rgb565(bigendian::read_u16(c, 9));
    text::draw_str_u16(
        &mut mem[..lent.len],
        lent.w,
        lent.h,
        x,
        y,
        &units[..count],
        color,
    )
}
