// The outline of a box, one pixel thick. No loop is longer than a side of the surface.
#![tactic(auto)]

ghost use Rattle.std.specs.Prelude.{◌≡◌, ◌*◌, ◌≤◌, ◌<◌, length};
ghost use Rattle.words.specs.Words.{painted};
ghost use Rattle.surface.specs.Region.{words_of};
ghost use Rattle.surface.specs.Refusal.{drawn};
ghost use Rattle.surface.proofs.Rows.{rect};
ghost use Rattle.outline.specs.Outline.{StrokeRect};
ghost use Rattle.outline.specs.Inner.{edges_of, sides, EdgesFit};

use clip::Rect;
use color::Rgb565;
use refusals::Refusal;

// The first and the last coordinate of an interval, as far as they lie on a side: from .. second, and last .. to.
#[derive(Clone, Copy)]
pub struct Edges {
    pub from: u32,
    pub second: u32,
    pub last: u32,
    pub to: u32,
}

// Draws the outline of the w by h pixels at x, y. It makes a dirty mark whenever w and h are positive.
pub fn stroke_rect(
    pixels: &mut [u8],
    width: u32,
    height: u32,
    x: i32,
    y: i32,
    w: i32,
    h: i32,
    color: Rgb565,
) -> Result<bool, Refusal>
    ensures { StrokeRect x y w h color.0 width height pixels.old (drawn result) pixels.new }
{
    surface::check(width, height, pixels.len())?;
    if w <= 0 || h <= 0 {
        return Ok(false);
    }
    let columns = edges_of(x, w, width);
    let rows = edges_of(y, h, height);
    stroke_edges(pixels, width, columns, rows, color.0);
    Ok(true)
}

// Returns the edges of x .. x + w on a side. The sums are exact.
fn edges_of(x: i32, w: i32, side: u32) -> Edges
    ensures { result ≡ edges_of x w side }
{
    let from = i64::from(x);
    let to = from + i64::from(w);
    Edges {
        from: clip::clamp(from, side),
        second: clip::clamp(from + 1, side),
        last: clip::clamp(to - 1, side),
        to: clip::clamp(to, side),
    }
}

// Draws the four sides between the edges of the columns, x, and of the rows, y.
fn stroke_edges(pixels: &mut [u8], width: u32, x: Edges, y: Edges, color: u16)
    requires { EdgesFit width (length pixels.old) x y }
    ensures { pixels.new ≡ painted (words_of width (sides x y)) (λ _. color) pixels.old }
{
    stroke_side(pixels, width, x.from, x.to, y.from, y.second, color);
    stroke_side(pixels, width, x.from, x.to, y.last, y.to, color);
    stroke_side(pixels, width, x.from, x.second, y.from, y.to, color);
    stroke_side(pixels, width, x.last, x.to, y.from, y.to, color);
}

// Fills columns x0 .. x1 of rows y0 .. y1 with one colour.
#[tactic(auto, using(raster::proofs::Plain::pattern_ropped))]
fn stroke_side(pixels: &mut [u8], width: u32, x0: u32, x1: u32, y0: u32, y1: u32, color: u16)
    requires { (0 < width) × ((x1 ≤ width) × (2 * (y1 * width) ≤ length pixels.old)) }
    ensures { pixels.new ≡ painted (words_of width (rect x0 x1 y0 y1)) (λ _. color) pixels.old }
{
    fill::rop_rect(
        pixels,
        width,
        Rect { x0, y0, x1, y1 },
        raster::PATCOPY_TABLE,
        color,
    );
}
