// Which part of a box lies on a surface. Coordinates are summed exactly.
#![tactic(auto)]

ghost use Rattle.std.specs.Prelude.{◌≡◌};
ghost use Rattle.clip.specs.Clip.{nearest, clipped_axis, clipped_rect};

// The coordinates from .. to of one axis of a surface; none where to <= from.
#[derive(Clone, Copy, Debug, PartialEq, Eq)]
pub struct Span {
    pub from: u32,
    pub to: u32,
}

// Columns x0 .. x1 and rows y0 .. y1 of a surface.
#[derive(Clone, Copy, Debug, PartialEq, Eq)]
pub struct Rect {
    pub x0: u32,
    pub y0: u32,
    pub x1: u32,
    pub y1: u32,
}

// The number in 0..=side nearest to z.
pub fn clamp(z: i64, side: u32) -> u32
    ensures { result ≡ nearest z side }
{
    z.clamp(0, i64::from(side)) as u32
}

// The part of x .. x + w on a side. The sum is exact, whatever w is.
#[tactic(auto, unfolding(crate::specs::Clip::clipped_axis))]
pub fn clip_axis(x: i32, w: i32, side: u32) -> Span
    ensures { result ≡ clipped_axis x w side }
{
    let from = i64::from(x);
    Span {
        from: clamp(from, side),
        to: clamp(from + i64::from(w), side),
    }
}

// The part of a box on a surface.
pub fn clip_rect(x: i32, y: i32, w: i32, h: i32, max_w: u32, max_h: u32) -> Rect
    ensures { result ≡ clipped_rect x y w h max_w max_h }
{
    let Span { from: x0, to: x1 } = clip_axis(x, w, max_w);
    let Span { from: y0, to: y1 } = clip_axis(y, h, max_h);
    Rect { x0, y0, x1, y1 }
}
