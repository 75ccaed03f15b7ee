// Cases 01 to 07: colours, raster operations on single words, glyphs.
ghost use Rattle.std.specs.Prelude.{◌≡◌, ◌+◌, ◌≤◌, ◌<◌, length, IfSome};
ghost use Rattle.primitives.specs.Cases.{Fitting};

use crate::line;
use crate::line::Reply;
use color::{Colorref, Rgb555, Rgb565};
use output::Line;

// The reply to the case of this byte at the front of c.
pub fn work_out(kind: u8, c: &[u8]) -> Option<Reply>
    ensures { IfSome result (λ r. Fitting c.now r) }
{
    match kind {
        0x01 => pack(c),
        0x02 => widen(c),
        0x03 => convert(0x03, c),
        0x04 => convert(0x04, c),
        0x05 => raster_operation(c),
        0x06 => glyph(c),
        0x07 => sweep(c),
        _ => None,
    }
}

// Case 01: a COLORREF packed.
fn pack(c: &[u8]) -> Option<Reply>
    ensures { IfSome result (λ r. Fitting c.now r) }
{
    if c.len() < 5 {
        return None;
    }
    let p = color::colorref_to_rgb565(Colorref(bigendian::read_u32(c, 1)));
    Some(Reply {
        size: 5,
        line: line::start(0x01).space().hex4(p.0),
    })
}

// Case 02: an RGB565 word widened.
fn widen(c: &[u8]) -> Option<Reply>
    ensures { IfSome result (λ r. Fitting c.now r) }
{
    if c.len() < 3 {
        return None;
    }
    let w = color::rgb565_to_colorref(Rgb565(bigendian::read_u16(c, 1)));
    let l = line::start(0x02).space();
    Some(Reply {
        size: 3,
        line: l
            .hex2(color::red(w))
            .hex2(color::green(w))
            .hex2(color::blue(w)),
    })
}

// Case 03, RGB555 to RGB565, or case 04, RGB565 to RGB555.
fn convert(kind: u8, c: &[u8]) -> Option<Reply>
    ensures { IfSome result (λ r. Fitting c.now r) }
{
    if c.len() < 3 {
        return None;
    }
    let v = converted(kind, bigendian::read_u16(c, 1));
    Some(Reply {
        size: 3,
        line: line::start(kind).space().hex4(v),
    })
}

// A word as case 03 or 04 converts it.
fn converted(kind: u8, v: u16) -> u16 {
    if kind == 0x03 {
        rgb555::rgb555_to_rgb565(Rgb555(v)).0
    } else {
        rgb555::rgb565_to_rgb555(Rgb565(v)).0
    }
}

// Case 05: a raster operation on single words.
fn raster_operation(c: &[u8]) -> Option<Reply>
    ensures { IfSome result (λ r. Fitting c.now r) }
{
    if c.len() < 11 {
        return None;
    }
    let code = bigendian::read_u32(c, 1);
    let p = bigendian::read_u16(c, 5);
    let s = bigendian::read_u16(c, 7);
    let d = bigendian::read_u16(c, 9);
    Some(Reply {
        size: 11,
        line: operation_line(code, p, s, d),
    })
}

// Case 05's line: the result, and whether the code uses S and D.
fn operation_line(code: u32, p: u16, s: u16, d: u16) -> Line
    ensures { length result ≡ 11 }
{
    let l = line::start(0x05).space().hex4(rop3::apply(code, p, s, d));
    l.space()
        .flag(rop3::uses_src(code))
        .space()
        .flag(rop3::uses_dst(code))
}

// Case 06: a glyph.
fn glyph(c: &[u8]) -> Option<Reply>
    ensures { IfSome result (λ r. Fitting c.now r) }
{
    if c.len() < 2 || 94 < c[1] {
        return None;
    }
    Some(Reply {
        size: 2,
        line: with_rows(line::start(0x06).space(), font_table::glyph(c[1] as usize)),
    })
}

// The line with the eight rows of a glyph.
fn with_rows(l: Line, rows: [u8; 8]) -> Line
    requires { length l ≡ 3 }
    ensures { length result ≡ 19 }
{
    let mut out = l;
    for row in rows {
        out = out.hex2(row);
    }
    out
}

// Case 07: a sweep over the 256 words of a block.
fn sweep(c: &[u8]) -> Option<Reply>
    ensures { IfSome result (λ r. Fitting c.now r) }
{
    if c.len() < 2 {
        return None;
    }
    Some(Reply {
        size: 2,
        line: sweep_line(c[1]),
    })
}

// Case 07's line: the block, and its three CRCs.
fn sweep_line(block: u8) -> Line
    ensures { length result ≡ 32 }
{
    let widened = with_swept(line::start(0x07).space().hex2(block), 0x02, block, 3);
    let from555 = with_swept(widened, 0x03, block, 2);
    with_swept(from555, 0x04, block, 2)
}

// The line with the CRC of a block as case 02, 03 or 04 converts it.
fn with_swept(l: Line, kind: u8, block: u8, step: usize) -> Line
    requires { (length l ≤ 30) × (step ≤ 3) }
    ensures { length result ≡ length l + 9 }
{
    l.space().hex8(swept_crc(kind, block, step))
}

// The CRC of what case 02, 03 or 04 makes of the words of a block: `step` bytes of each.
fn swept_crc(kind: u8, block: u8, step: usize) -> u32
    requires { step ≤ 3 }
{
    let mut bytes = [0u8; 768];
    let first = 256 * (block as u16);
    for k in 0u16..256 {
        put_swept(&mut bytes, step * (k as usize), kind, first + k);
    }
    crc32::crc32(&bytes[..256 * step])
}

// Puts R, G and B of a word, widened, or the word as case 03 or 04 converts it, from `at` on.
fn put_swept(out: &mut [u8], at: usize, kind: u8, v: u16)
    requires { at + 2 < length out.old }
{
    if kind == 0x02 {
        samples::put_rgb(out, at, v);
    } else {
        put_word(out, at, converted(kind, v));
    }
}

// Puts a word from `at` on, its high byte first.
fn put_word(out: &mut [u8], at: usize, v: u16)
    requires { at + 1 < length out.old }
{
    out[at..at + 2].copy_from_slice(&v.to_be_bytes());
}
