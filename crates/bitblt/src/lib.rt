// Blit by DC handles, on a flat record.
#![tactic(auto)]

ghost use Rattle.std.specs.Prelude.{length};
ghost use Rattle.numbers.specs.View.{view};
ghost use Rattle.ready.proofs.Ready.{Lent};
ghost use Rattle.plan.specs.Drawing.{blit};
ghost use Rattle.plan.specs.Answer.{parts_of};
ghost use Rattle.plan.specs.Followed.{Followed, OnBoth};

use plan::{Answer, Area, Point};
use refusals::Refusal;

// Blits from one DC to another. A code that does not use the source makes it a pattern fill, and the source handle is not checked.
pub fn blit(
    numbers: &mut [u32],
    panel: &mut [u8],
    store: &mut [u8],
    dc: u32,
    area: Area,
    src: u32,
    from: Point,
    rop: u32,
) -> Result<Answer, Refusal>
    requires { Lent numbers.old (length panel.old) (length store.old) }
    ensures { OnBoth (λ n. Followed (blit (view n) dc area src from rop) n) numbers panel store (parts_of result) }
{
    if !rop3::uses_src(rop) {
        return draw::pattern_fill(numbers, panel, store, dc, area, rop);
    }
    let target = place::target_of(numbers, dc)?;
    let source = match place::target_of(numbers, src) {
        Ok(source) => source,
        Err(why) => return Err(why.as_source()),
    };
    let pattern = color::colorref_to_rgb565(target.dc.brush_color);
    let due = transfer::blit_at(
        panel,
        store,
        target.site.at,
        source.site.at,
        area,
        from,
        rop,
        pattern,
    );
    dirty::mark_dirty_if(numbers, target.id, target.site.slot, due);
    Ok(Answer::Drawn)
}
