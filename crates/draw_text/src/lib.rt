// Text by DC handle, on a flat record.
#![tactic(auto)]

ghost use Rattle.std.specs.Prelude.{length};
ghost use Rattle.numbers.specs.View.{view};
ghost use Rattle.ready.proofs.Ready.{Lent};
ghost use Rattle.plan.specs.Drawing.{text};
ghost use Rattle.plan.specs.Answer.{parts_of};
ghost use Rattle.plan.specs.Followed.{Followed, OnBoth};

use canvas::Drawing;
use plan::{Answer, Point};
use refusals::Refusal;

// Draws the units before unit 0 or the end in the DC's text colour. Returns the advance in pixels.
pub fn text_out(
    numbers: &mut [u32],
    panel: &mut [u8],
    store: &mut [u8],
    units: &[u16],
    dc: u32,
    at: Point,
) -> Result<Answer, Refusal>
    requires { Lent numbers.old (length panel.old) (length store.old) }
    ensures { OnBoth (λ n. Followed (text (view n) units.now dc at) n) numbers panel store (parts_of result) }
{
    let target = place::target_of(numbers, dc)?;
    let count = text::unit_count(units);
    if text::MAX_UNITS < count {
        return Err(Refusal::TextTooLong);
    }
    let ink = color::colorref_to_rgb565(target.dc.text_color);
    let drawing = Drawing::Text { at, count };
    draw::draw(
        numbers,
        panel,
        store,
        target.id,
        target.site,
        drawing,
        units,
        ink,
    );
    Ok(Answer::Advance(text::GLYPH_W * (count as u32)))
}
