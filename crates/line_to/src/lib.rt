// Moves and lines by DC handle, on a flat record.
#![tactic(auto)]

ghost use Rattle.std.specs.Prelude.{true, ◌≡◌, length};
ghost use Rattle.gdi.specs.Lookup.{dc_of};
ghost use Rattle.numbers.specs.View.{view, is_record, Updated};
ghost use Rattle.ready.proofs.Ready.{Lent};
ghost use Rattle.plan.specs.Answer.{parts_of};
ghost use Rattle.plan.specs.Lines.{position_of, moved_to, move_to, line_to};
ghost use Rattle.plan.specs.Followed.{Followed, OnBoth, OnNumbers};

use canvas::Drawing;
use gdi::{Dc, Spot};
use plan::{Answer, Point};
use refusals::Refusal;

// Moves a DC to a point; returns its old position.
pub fn move_to(numbers: &mut [u32], dc: u32, to: Point) -> Result<Answer, Refusal>
    requires { Lent numbers.old (view numbers.old).panel_len (view numbers.old).store_len }
    ensures { OnNumbers (λ n. Followed (move_to (view n) dc to) n) numbers (parts_of result) }
{
    let Some((p, d)) = lookup::find_dc(numbers, dc) else {
        return Err(Refusal::NoDc);
    };
    if !gdi::is_position(to.x, to.y) {
        return Err(Refusal::Position);
    }
    set_position(numbers, dc, p, d, to);
    Ok(Answer::OldPosition(position_of(d)))
}

// Draws a line in the pen colour from a DC's position to a point, without the point, and moves the DC there.
pub fn line_to(
    numbers: &mut [u32],
    panel: &mut [u8],
    store: &mut [u8],
    dc: u32,
    to: Point,
) -> Result<Answer, Refusal>
    requires { Lent numbers.old (length panel.old) (length store.old) }
    ensures { OnBoth (λ n. Followed (line_to (view n) dc to) n) numbers panel store (parts_of result) }
{
    let Some((p, d)) = lookup::find_dc(numbers, dc) else {
        return Err(Refusal::NoDc);
    };
    draw_from(numbers, panel, store, dc, p, d, to)
}

// Draws the line of a DC that was found at p.
fn draw_from(
    numbers: &mut [u32],
    panel: &mut [u8],
    store: &mut [u8],
    dc: u32,
    p: Spot,
    d: Dc,
    to: Point,
) -> Result<Answer, Refusal>
    requires lent { Lent numbers.old (length panel.old) (length store.old) }
    requires dc_value { dc_of (view numbers.old) dc ≡ Some (p, d) }
    ensures { OnBoth (λ n. Followed (line_to (view n) dc to) n) numbers panel store (parts_of result) }
{
    let target = place::target_at(numbers, p, d)?;
    if !gdi::is_position(to.x, to.y) {
        return Err(Refusal::Position);
    }
    let pen = color::colorref_to_rgb565(d.pen_color);
    let from = position_of(d);
    set_position(numbers, dc, p, d, to);
    let line = Drawing::Line { from, to };
    draw::draw(
        numbers,
        panel,
        store,
        target.id,
        target.site,
        line,
        &[],
        pen,
    );
    Ok(Answer::Drawn)
}

// Returns a DC's position.
fn position_of(d: Dc) -> Point
    ensures { result ≡ position_of d }
{
    Point {
        x: d.pos_x,
        y: d.pos_y,
    }
}

// Writes a DC, which was found at p, with another position.
fn set_position(numbers: &mut [u32], dc: u32, p: Spot, d: Dc, to: Point)
    requires numbers_value { is_record numbers.old ≡ true }
    requires dc_value { dc_of (view numbers.old) dc ≡ Some (p, d) }
    ensures { Updated numbers.old (moved_to (view numbers.old) dc to) numbers.new }
{
    let after = gdi::with_position(d, to.x, to.y);
    lookup::update_dc(numbers, dc, p, after);
}
