// Characters and text in ink: only the pixels of a glyph's set bits are painted.
#![tactic(auto)]

ghost use Rattle.std.specs.Prelude.{◌≡◌, ◌≤◌, ◌<◌, length};
ghost use Rattle.words.specs.Words.{painted};
ghost use Rattle.surface.specs.Region.{words_of};
ghost use Rattle.surface.specs.Refusal.{drawn, advanced};
ghost use Rattle.surface.proofs.Accepted.{InOrder};
ghost use Rattle.text.specs.Ink.{printable, glyph_for, text_ink, unit_count, DrawChar, DrawStr};
ghost use Rattle.text.specs.Inner.{Reached};

use color::Rgb565;
use refusals::Refusal;

// The longest text, in units.
pub const MAX_UNITS: usize = 65535;

// A unit's width in pixels.
pub const GLYPH_W: u32 = 6;

// Draws the character ch with its upper left corner at x, y; nothing outside 0x20 to 0x7E. It makes no dirty mark.
#[tactic(auto, using(surface::proofs::Accepted::in_order))]
pub fn draw_char(
    pixels: &mut [u8],
    width: u32,
    height: u32,
    x: i32,
    y: i32,
    ch: u32,
    color: Rgb565,
) -> Result<bool, Refusal>
    ensures { DrawChar x y ch color.0 width height pixels.old (drawn result) pixels.new }
{
    surface::check(width, height, pixels.len())?;
    if is_printable(ch) {
        let rows = font_table::glyph((ch - 0x20) as usize);
        glyph::draw_glyph(pixels, width, height, x, 0, y, rows, color.0);
    }
    Ok(false)
}

// Draws the text before unit 0 or the end, with its upper left corner at x, y. Units outside 0x20 to 0x7E are drawn as '?'. It makes
// no dirty mark and returns its advance.
#[tactic(auto, using(surface::proofs::Accepted::in_order), unfolding(crate::specs::Ink::text_refusal))]
pub fn draw_str_u16(
    pixels: &mut [u8],
    width: u32,
    height: u32,
    x: i32,
    y: i32,
    s: &[u16],
    color: Rgb565,
) -> Result<u32, Refusal>
    ensures { DrawStr x y s.now color.0 width height pixels.old (advanced result) pixels.new }
{
    surface::check(width, height, pixels.len())?;
    let n = unit_count(s);
    if MAX_UNITS < n {
        return Err(Refusal::TextTooLong);
    }
    draw_units(pixels, width, height, x, y, s, n, color);
    Ok(GLYPH_W * (n as u32))
}

// Returns the number of units before unit 0 or the end.
pub fn unit_count(s: &[u16]) -> usize
    ensures { (result ≡ unit_count s.now) × (result ≤ length s.now) }
{
    s.iter().position(|u| *u == 0).unwrap_or(s.len())
}

// Draws the first n units of s on a surface whose sides and length were checked.
pub fn draw_units(
    pixels: &mut [u8],
    width: u32,
    height: u32,
    x: i32,
    y: i32,
    s: &[u16],
    n: usize,
    color: Rgb565,
)
    requires in_order { InOrder width height (length pixels.old) }
    requires n_in_bounds { (n ≤ length s.now) × (n ≤ 65535) }
    ensures { pixels.new ≡ painted (words_of width (text_ink s.now n x y)) (λ _. color.0) pixels.old }
{
    let down = glyph::cut(y, 0, 8, height);
    if down.to <= down.from {
        return;
    }
    let units = units_reached(x, width, n as u32);
    let glyphs = font_table::glyphs();
    for k in units.from..units.to {
        let rows = glyphs[glyph_for(s[k as usize])];
        glyph::draw_glyph(pixels, width, height, x, GLYPH_W * k, y, rows, color.0);
    }
}

// Returns which of n units reach a surface: each before them ends left of it, and each after them starts right of it.
fn units_reached(x: i32, width: u32, n: u32) -> clip::Span
    requires { n ≤ 65535 }
    ensures { Reached x width n result }
{
    let start = i64::from(x);
    let advance = GLYPH_W * n;
    clip::Span {
        from: clip::clamp(-start, advance) / GLYPH_W,
        to: clip::clamp(i64::from(width) - start + 5, advance) / GLYPH_W,
    }
}

// Returns whether a unit has a glyph: 0x20 to 0x7E.
fn is_printable(u: u32) -> bool
    ensures { result ≡ printable u }
{
    0x20 <= u && u <= 0x7E
}

// Returns the glyph of a unit; outside 0x20 to 0x7E it is that of '?'.
fn glyph_for(u: u16) -> usize
    ensures { (result ≡ glyph_for u) × (result < 95) }
{
    if is_printable(u32::from(u)) {
        (u - 0x20) as usize
    } else {
        0x3F - 0x20
    }
}
