// Where a call drew: the smallest box that holds all its pixels.
#![tactic(auto)]

ghost use Rattle.std.specs.Prelude.{◌≡◌, ◌<◌};
ghost use Rattle.hull.specs.Hull.{corners, nowhere};
ghost use Rattle.hull.specs.Inner.{holds_any, join, spanning};

// Columns left .. right and rows top .. bottom, right and bottom exclusive. Four zeros: no pixel.
#[derive(Clone, Copy, Debug, Default, PartialEq, Eq)]
pub struct Bounds {
    pub left: u32,
    pub top: u32,
    pub right: u32,
    pub bottom: u32,
}

// Returns the box without a pixel.
pub fn nowhere() -> Bounds
    ensures { result ≡ nowhere }
{
    Bounds::default()
}

// Returns the box of a whole surface.
pub fn whole(width: u32, height: u32) -> Bounds
    ensures { result ≡ corners 0 0 width height }
{
    Bounds {
        right: width,
        bottom: height,
        ..nowhere()
    }
}

// Returns whether a box holds a pixel.
pub fn holds_any(b: Bounds) -> bool
    ensures { result ≡ holds_any b }
{
    0 < b.right
}

// Returns the smallest box over two boxes.
#[tactic(auto, unfolding(crate::specs::Inner::join))]
pub fn join(a: Bounds, b: Bounds) -> Bounds
    ensures { result ≡ join a b }
{
    if a.right == 0 {
        b
    } else if b.right == 0 {
        a
    } else {
        Bounds {
            left: a.left.min(b.left),
            top: a.top.min(b.top),
            right: a.right.max(b.right),
            bottom: a.bottom.max(b.bottom),
        }
    }
}

// Returns the smallest box that holds two pixels of a surface.
pub fn spanning(x0: u32, y0: u32, x1: u32, y1: u32) -> Bounds
    requires { ((x0 < 4096) × (y0 < 4096)) × ((x1 < 4096) × (y1 < 4096)) }
    ensures { result ≡ spanning x0 y0 x1 y1 }
{
    Bounds {
        left: x0.min(x1),
        top: y0.min(y1),
        right: x0.max(x1) + 1,
        bottom: y0.max(y1) + 1,
    }
}
