// Colours: the COLORREF that callers name, the RGB565 word that pixels hold, and the RGB555 word of other bitmaps.
#![tactic(auto)]

ghost use Rattle.std.specs.Prelude.{◌≡◌};
ghost use Rattle.color.specs.Color.{red, green, blue, packed_channels, packed, widened};

// 0x00BBGGRR. A COLORREF is never taken for an RGB565 word: only packing and widening cross between the two.
#[derive(Debug, Clone, Copy, PartialEq, Eq)]
pub struct Colorref(pub u32);

// RRRRRGGGGGGBBBBB.
#[repr(C)]
#[derive(Debug, Clone, Copy, PartialEq, Eq)]
pub struct Rgb565(pub u16);

// 0RRRRRGGGGGBBBBB.
#[derive(Debug, Clone, Copy, PartialEq, Eq)]
pub struct Rgb555(pub u16);

// The red channel of a colour.
pub fn red(c: Colorref) -> u8
    ensures { result ≡ red c.0 }
{
    (c.0 % 256) as u8
}

// The green channel of a colour.
pub fn green(c: Colorref) -> u8
    ensures { result ≡ green c.0 }
{
    (c.0 / 256 % 256) as u8
}

// The blue channel of a colour.
pub fn blue(c: Colorref) -> u8
    ensures { result ≡ blue c.0 }
{
    (c.0 / 65536 % 256) as u8
}

// Packs three channels: their top 5, 6 and 5 bits.
pub fn pack_rgb565(r: u8, g: u8, b: u8) -> Rgb565
    ensures { result.0 ≡ packed_channels r g b }
{
    Rgb565((r / 8) as u16 * 2048 + (g / 4) as u16 * 32 + (b / 8) as u16)
}

// Packs a COLORREF; its top byte has no effect.
#[tactic(auto, unfolding(crate::specs::Color::packed))]
pub fn colorref_to_rgb565(c: Colorref) -> Rgb565
    ensures { result.0 ≡ packed c.0 }
{
    pack_rgb565(red(c), green(c), blue(c))
}

// Widens an RGB565 word: each channel's high bits are repeated below it.
#[tactic(auto, unfolding(crate::specs::Color::wide_red, crate::specs::Color::wide_green, crate::specs::Color::wide_blue, crate::specs::Color::widened))]
pub fn rgb565_to_colorref(p: Rgb565) -> Colorref
    ensures { result.0 ≡ widened p.0 }
{
    let r = (p.0 / 2048) as u32;
    let g = (p.0 / 32 % 64) as u32;
    let b = (p.0 % 32) as u32;
    Colorref(8 * r + r / 4 + 256 * (4 * g + g / 16) + 65536 * (8 * b + b / 4))
}
