// A line on a surface. The larger of its extents is clipped to the surface first, so that the loop is bounded by a side, wherever the
// ends are; quotient and remainder are carried along.
#![tactic(auto)]

ghost use Rattle.std.specs.Prelude.{◌≡◌, ℕ, ◌+◌, ◌^◌, ◌≤◌, ◌<◌, length};
ghost use Rattle.arithmetic.specs.Test.{any_below};
ghost use Rattle.words.specs.Words.{painted};
ghost use Rattle.surface.specs.Region.{words_of};
ghost use Rattle.surface.proofs.Accepted.{InOrder};
ghost use Rattle.line.specs.Line.{extent, line, line_marks};
ghost use Rattle.line.specs.Inner.{coordinate_of, OnAxis, visible_of, Ranged, Seen, Carried, word_at, is_shown, dots, StepsFit};

// One axis of a line on a side: steps begin .. end lie on it, the first of them at the coordinate first and the others up or down
// from there. From a coordinate to the next it is stride words.
#[derive(Clone, Copy)]
struct Axis {
    first: usize,
    up: bool,
    begin: usize,
    end: usize,
    stride: usize,
}

// The extents of a line: along the axis of its steps, and along the other.
#[derive(Clone, Copy)]
struct Slope {
    long: usize,
    short: usize,
}

// The quotient and the remainder of (2·i·short + long) / (2·long) at step i of a line.
#[derive(Clone, Copy)]
struct Quotient {
    q: usize,
    r: usize,
}

// Draws the line from x0, y0 to x1, y1 without its end. Returns whether it drew a pixel.
pub fn draw_line(
    pixels: &mut [u8],
    width: u32,
    height: u32,
    x0: i32,
    y0: i32,
    x1: i32,
    y1: i32,
    color: u16,
) -> bool
    requires in_order { InOrder width height (length pixels.old) }
    requires x1_bound { (extent x0 x1 < 65536) × (extent y0 y1 < 65536) }
    ensures value { result ≡ line_marks width height x0 y0 x1 y1 }
    ensures bytes { pixels.new ≡ painted (words_of width (line x0 y0 x1 y1)) (λ _. color) pixels.old }
{
    let a = x1.abs_diff(x0) as usize;
    let b = y1.abs_diff(y0) as usize;
    if b <= a {
        let columns = axis_of(x0, x1, a, width, 1);
        let rows = axis_of(y0, y1, b + 1, height, width as usize);
        let slope = Slope { long: a, short: b };
        draw_steps(pixels, columns, rows, slope, color)
    } else {
        let rows = axis_of(y0, y1, b, height, width as usize);
        let columns = axis_of(x0, x1, a + 1, width, 1);
        let slope = Slope { long: b, short: a };
        draw_steps(pixels, rows, columns, slope, color)
    }
}

// Returns which of n steps from one coordinate toward another lie on a side, and where.
fn axis_of(from: i32, to: i32, n: usize, side: u32, stride: usize) -> Axis
    requires { (n ≤ 65536) × ((0 < side) × (side ≤ 4096)) }
    ensures { Seen from to n side stride result }
{
    let start = i64::from(from);
    if from <= to {
        visible(start, true, n, side, stride)
    } else {
        visible(i64::from(side) - 1 - start, false, n, side, stride)
    }
}

// The same for steps away from the side's first coordinate if they go up, from its last if they go down: start is how far from there
// the first step is.
#[tactic(auto, unfolding(crate::specs::Inner::visible_of))]
fn visible(start: i64, up: bool, n: usize, side: u32, stride: usize) -> Axis
    requires { Ranged start n side }
    ensures { result ≡ visible_of start up n side stride }
{
    let begin = clip::clamp(-start, n as u32) as usize;
    let end = clip::clamp(i64::from(side) - start, n as u32) as usize;
    let at = clip::clamp(start, side - 1) as usize;
    let first = if up { at } else { side as usize - 1 - at };
    Axis {
        first,
        up,
        begin,
        end,
        stride,
    }
}

// Stores color at each step of u whose step along v lies on its side. Returns whether there is one.
fn draw_steps(pixels: &mut [u8], u: Axis, v: Axis, slope: Slope, color: u16) -> bool
    requires { StepsFit u v slope (length pixels.old) }
    ensures value { result ≡ any_below u.end (is_shown u v slope) }
    ensures bytes { pixels.new ≡ painted (dots u v slope u.end) (λ _. color) pixels.old }
{
    if u.end <= u.begin || v.end <= v.begin {
        return false;
    }
    let mut at = quotient_at(slope, u.begin);
    let mut drawn = false;
    for i in u.begin..u.end {
        if v.end <= at.q {
            return drawn;
        }
        if v.begin <= at.q {
            words::set_word(pixels, word(u, v, i, at.q), color);
            drawn = true;
        }
        at = next_quotient(slope, at);
    }
    drawn
}

// Returns the quotient at step i. A line that starts in sight, at step 0, needs no division.
fn quotient_at(slope: Slope, i: usize) -> Quotient
    requires { (i < slope.long) × ((slope.short ≤ slope.long) × (slope.long < 65536)) }
    ensures { Carried slope i result }
{
    let Slope { long, short } = slope;
    if i == 0 {
        return Quotient { q: 0, r: long };
    }
    let n = i * (2 * short) + long;
    Quotient {
        q: n / (2 * long),
        r: n % (2 * long),
    }
}

// Returns the quotient at the next step: without a division, since short <= long and it grows by at most one.
fn next_quotient(slope: Slope, at: Quotient) -> Quotient
    requires { ((slope.short ≤ slope.long) × (slope.long < 65536)) × ((at.q < 65536) × (at.r < 131072)) }
    ensures { (i : ℕ) → Carried slope i at → Carried slope (i + 1) result }
{
    let back = 2 * slope.long - 2 * slope.short;
    if back <= at.r {
        Quotient {
            q: at.q + 1,
            r: at.r - back,
        }
    } else {
        Quotient {
            q: at.q,
            r: at.r + 2 * slope.short,
        }
    }
}

// Returns the word at step i of u and step q of v.
fn word(u: Axis, v: Axis, i: usize, q: usize) -> usize
    requires { (OnAxis u i × OnAxis v q) × (word_at u v i q < 2 ^ 63) }
    ensures { result ≡ word_at u v i q }
{
    coordinate(u, i) * u.stride + coordinate(v, q) * v.stride
}

// Returns the coordinate of step i of an axis.
fn coordinate(x: Axis, i: usize) -> usize
    requires { OnAxis x i }
    ensures { result ≡ coordinate_of x i }
{
    let past = i - x.begin;
    if x.up { x.first + past } else { x.first - past }
}
