// One entry point for every call, on a flat record.
#![tactic(auto)]

ghost use Rattle.plan.specs.Answer.{parts_of};
ghost use Rattle.plan.specs.Calls.{call as asked};
ghost use Rattle.plan.specs.Followed.{Performed, OnBoth};

use plan::{Answer, Call};
use refusals::Refusal;

// Performs a call. Numbers that are not a record are refused with 9. A refused call changes no number and no byte.
pub fn perform(
    numbers: &mut [u32],
    call: Call,
    units: &[u16],
    panel: &mut [u8],
    store: &mut [u8],
) -> Result<Answer, Refusal>
    ensures { OnBoth (Performed (asked call units.now)) numbers panel store (parts_of result) }
{
    ready::check(numbers, panel.len(), store.len())?;
    match call {
        Call::CreateMemoryDc => create::create_memory_dc(numbers, store),
        Call::CreateCompatibleBitmap { width, height } => create::create_compatible_bitmap(
            numbers, store, width, height,
        ),
        Call::CreateSolidBrush(color) => create::create_solid_brush(numbers, store, color),
        Call::CreatePen { color, width } => create::create_pen(numbers, store, color, width),
        Call::CreateFont(height) => create::create_font(numbers, store, height),
        Call::Delete(handle) => Ok(delete::delete(numbers, store, handle)),
        Call::Remove(handle) => Ok(delete::remove(numbers, store, handle)),
        Call::SelectInto { dc, object } => Ok(select::select_into(numbers, dc, object)),
        Call::SetTextColor { dc, color } => settings::set_text_color(numbers, dc, color),
        Call::SetTextAlign { dc, align } => settings::set_text_align(numbers, dc, align),
        Call::SetBkColor { dc, color } => settings::set_bk_color(numbers, dc, color),
        Call::SetBkMode { dc, transparent } => settings::set_bk_mode(numbers, dc, transparent),
        Call::PatternFill { dc, area, rop } => draw::pattern_fill(
            numbers, panel, store, dc, area, rop,
        ),
        Call::Rectangle { dc, area } => draw::rectangle(numbers, panel, store, dc, area),
        Call::Text { dc, at } => draw_text::text_out(numbers, panel, store, units, dc, at),
        Call::PanelFill(color) => Ok(panel::fill(numbers, panel, color)),
        Call::Resize { width, height } => panel::resize(numbers, panel, width, height),
        Call::Blit {
            dc,
            area,
            src,
            from,
            rop,
        } => bitblt::blit(numbers, panel, store, dc, area, src, from, rop),
        Call::MoveTo { dc, to } => line_to::move_to(numbers, dc, to),
        Call::LineTo { dc, to } => line_to::line_to(numbers, panel, store, dc, to),
    }
}
