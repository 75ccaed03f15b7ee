// Panel fill and resize, on a flat record.
#![tactic(auto)]

ghost use Rattle.std.specs.Prelude.{◌≡◌, true, length, Ok};
ghost use Rattle.plan.specs.Panel.{panel_fill, no_effect, resize};
ghost use Rattle.gdi.specs.Updates.{with_sides};
ghost use Rattle.numbers.specs.View.{view, is_record, Updated};
ghost use Rattle.ready.proofs.Ready.{Lent};
ghost use Rattle.plan.specs.Answer.{parts_of};
ghost use Rattle.plan.specs.Followed.{Followed, OnPanel};

use color::Rgb565;
use numbers::{HEIGHT, PANEL_LEN, WIDTH};
use place::SurfaceId;
use plan::Answer;
use refusals::Refusal;
use surface::MAX_SIDE;

// Fills the whole panel with one colour.
#[tactic(auto, using(numbers::proofs::Seen::record_length, crate::proofs::Sides::area_seen, crate::proofs::Sides::fits_seen))]
pub fn fill(numbers: &mut [u32], panel: &mut [u8], color: Rgb565) -> Answer
    requires { Lent numbers.old (length panel.old) (view numbers.old).store_len }
    ensures { OnPanel (λ n. Followed (panel_fill (view n) color.0) n) numbers panel (parts_of (Ok result)) }
{
    let n = (numbers[WIDTH] * numbers[HEIGHT]) as usize;
    runs::fill_run(panel, 0, n, color.0);
    dirty::mark_dirty(numbers, SurfaceId::Panel, None);
    Answer::Drawn
}

// Resizes the panel and clears it. A side of 0, or the present size, does nothing.
#[tactic(auto, using(numbers::proofs::Seen::record_length, numbers::proofs::Seen::panel_len_seen))]
pub fn resize(
    numbers: &mut [u32],
    panel: &mut [u8],
    width: u32,
    height: u32,
) -> Result<Answer, Refusal>
    requires { Lent numbers.old (length panel.old) (view numbers.old).store_len }
    ensures { OnPanel (λ n. Followed (resize (view n) width height) n) numbers panel (parts_of result) }
{
    if no_effect(numbers, width, height) {
        return Ok(Answer::Drawn);
    }
    if width > MAX_SIDE || height > MAX_SIDE {
        return Err(Refusal::Side);
    }
    let n = 2 * ((width * height) as usize);
    if n > numbers[PANEL_LEN] as usize {
        return Err(Refusal::TooShort);
    }
    memory::zero(panel, 0, n);
    set_sides(numbers, width, height);
    dirty::mark_dirty(numbers, SurfaceId::Panel, None);
    Ok(Answer::Drawn)
}

// Writes the panel's sides.
#[tactic(auto, using(numbers::proofs::Seen::record_length))]
fn set_sides(numbers: &mut [u32], width: u32, height: u32)
    requires { is_record numbers.old ≡ true }
    ensures { Updated numbers.old (with_sides (view numbers.old) width height) numbers.new }
{
    numbers[WIDTH] = width;
    numbers[HEIGHT] = height;
}

// Returns whether a resize does nothing.
#[tactic(auto, using(numbers::proofs::Seen::record_length, numbers::proofs::Seen::width_seen, numbers::proofs::Seen::height_seen))]
fn no_effect(numbers: &[u32], width: u32, height: u32) -> bool
    requires { is_record numbers.now ≡ true }
    ensures { result ≡ no_effect (view numbers.now) width height }
{
    width == 0 || height == 0 || width == numbers[WIDTH] && height == numbers[HEIGHT]
}
