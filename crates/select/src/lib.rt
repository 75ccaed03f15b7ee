// Selection, on a flat record.
#![tactic(auto)]

ghost use Rattle.std.specs.Prelude.{◌≡◌, Ok};
ghost use Rattle.numbers.specs.View.{view};
ghost use Rattle.plan.specs.Select.{select_in, selected_of, select_into};
ghost use Rattle.ready.proofs.Ready.{Lent};
ghost use Rattle.plan.specs.Answer.{parts_of};
ghost use Rattle.plan.specs.Followed.{Followed, OnNumbers};

use gdi::{Dc, Kind, STOCK_DEFAULT_BITMAP};
use plan::Answer;

// Returns the DC with the object of this handle and kind selected.
pub fn select_in(d: Dc, handle: u32, kind: Kind) -> Dc
    ensures { result ≡ select_in d handle kind }
{
    match kind {
        Kind::Bitmap => gdi::with_bitmap(d, handle),
        Kind::Brush(c) => Dc {
            selected_brush: handle,
            brush_color: c,
            ..d
        },
        Kind::Pen(c) => Dc {
            selected_pen: handle,
            pen_color: c,
            ..d
        },
        Kind::Font => Dc {
            selected_font: handle,
            ..d
        },
        Kind::Other => d,
    }
}

// Returns the handle of this kind that is selected in the DC.
pub fn selected(d: Dc, kind: Kind) -> u32
    ensures { result ≡ selected_of d kind }
{
    match kind {
        Kind::Bitmap => d.selected_bitmap.unwrap_or(STOCK_DEFAULT_BITMAP),
        Kind::Brush(_) => d.selected_brush,
        Kind::Pen(_) => d.selected_pen,
        Kind::Font => d.selected_font,
        Kind::Other => 0,
    }
}

// Selects an object into a DC; returns the handle selected before, or 0 if the handles name no such object or DC.
pub fn select_into(numbers: &mut [u32], dc: u32, object: u32) -> Answer
    requires { Lent numbers.old (view numbers.old).panel_len (view numbers.old).store_len }
    ensures { OnNumbers (λ n. Followed (select_into (view n) dc object) n) numbers (parts_of (Ok result)) }
{
    let k = lookup::find_kind(numbers, object);
    if let Kind::Other = k {
        return Answer::Handle(0);
    }
    let Some((p, d)) = lookup::find_dc(numbers, dc) else {
        return Answer::Handle(0);
    };
    lookup::update_dc(numbers, dc, p, select_in(d, object, k));
    Answer::Handle(selected(d, k))
}
