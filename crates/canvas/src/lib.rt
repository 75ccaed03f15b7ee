// Fills, outlines, text and lines on a surface in either memory: the surface's part of the memory is lent to the operation.
#![tactic(auto)]

ghost use Rattle.std.specs.Prelude.{◌≡◌, length};
ghost use Rattle.surface.proofs.Accepted.{InOrder};
ghost use Rattle.place.specs.Place.{Within};
ghost use Rattle.paint.specs.Memories.{width_of, over};
ghost use Rattle.plan.specs.Drawing.{marks_at};
ghost use Rattle.plan.proofs.Followed.{OnMemories};
ghost use Rattle.canvas.specs.Inner.{marks_of, drawn_of, Drawable};

use color::Rgb565;
use place::{Memory, Place};
use plan::{Area, Point};

// What to draw in one colour: an area under a raster code, the outline of an area, the first count units of a text, or a line
// without its end.
#[derive(Clone, Copy)]
pub enum Drawing {
    Fill { area: Area, rop: u32 },
    Outline(Area),
    Text { at: Point, count: usize },
    Line { from: Point, to: Point },
}

// Draws on the surface at a place. Returns whether a dirty mark is due.
pub fn draw_at(
    panel: &mut [u8],
    store: &mut [u8],
    at: Place,
    drawing: Drawing,
    units: &[u16],
    color: Rgb565,
) -> bool
    requires within { Within (length panel.old) (length store.old) at }
    requires drawable { Drawable drawing (length units.now) }
    ensures value { result ≡ marks_at at (marks_of drawing) }
    ensures bytes { OnMemories (λ ms ms'. ms' ≡ over at (drawn_of drawing units.now color.0 (width_of at)) ms) panel store }
{
    match at {
        Place::Nowhere => false,
        Place::At(m, p, width, height) => {
            let n = 2 * ((width * height) as usize);
            match m {
                Memory::Panel => {
                    draw_on(&mut panel[p..p + n], width, height, drawing, units, color)
                }
                Memory::Store => {
                    draw_on(&mut store[p..p + n], width, height, drawing, units, color)
                }
            }
        }
    }
}

// Draws on a surface's bytes. The caller guarantees that sides and length agree. Returns whether a dirty mark is due.
fn draw_on(
    pixels: &mut [u8],
    width: u32,
    height: u32,
    drawing: Drawing,
    units: &[u16],
    color: Rgb565,
) -> bool
    requires in_order { InOrder width height (length pixels.old) }
    requires drawable { Drawable drawing (length units.now) }
    ensures value { result ≡ marks_of drawing width height }
    ensures bytes { pixels.new ≡ drawn_of drawing units.now color.0 width pixels.old }
{
    match drawing {
        Drawing::Fill { area, rop } => fill::fill_rect_rop(
            pixels, width, height, area.x, area.y, area.w, area.h, color, rop,
        )
        .unwrap_or(false),
        Drawing::Outline(a) => outline::stroke_rect(
            pixels, width, height, a.x, a.y, a.w, a.h, color,
        ).unwrap_or(false),
        Drawing::Text { at, count } => {
            text::draw_units(pixels, width, height, at.x, at.y, units, count, color);
            0 < count
        }
        Drawing::Line { from, to } => {
            line::draw_line(pixels, width, height, from.x, from.y, to.x, to.y, color.0)
        }
    }
}
