// The RGB555 word of other bitmaps, from and to the RGB565 word that pixels hold.
#![tactic(auto)]

ghost use Rattle.std.specs.Prelude.{◌≡◌};
ghost use Rattle.color.specs.Color.{from555, to555};

use color::{Rgb555, Rgb565};

// Widens an RGB555 word's green by its high bit; the top bit has no effect.
#[tactic(auto, unfolding(color::specs::Color::from555))]
pub fn rgb555_to_rgb565(p: Rgb555) -> Rgb565
    ensures { result.0 ≡ from555 p.0 }
{
    let r = p.0 / 1024 % 32;
    let g = p.0 / 32 % 32;
    let b = p.0 % 32;
    Rgb565(r * 2048 + g * 64 + g / 16 * 32 + b)
}

// Drops the low bit of an RGB565 word's green.
#[tactic(auto, unfolding(color::specs::Color::to555))]
pub fn rgb565_to_rgb555(p: Rgb565) -> Rgb555
    ensures { result.0 ≡ to555 p.0 }
{
    let r = p.0 / 2048;
    let g = p.0 / 64 % 32;
    let b = p.0 % 32;
    Rgb555(r * 1024 + g * 32 + b)
}
