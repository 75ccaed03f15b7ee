// What the operations on lent pixel bytes share: their answers, their refusals and common definitions. A surface is its pixel bytes
// with a width and a height.
#![tactic(auto)]

ghost use Rattle.std.specs.Prelude.{◌≡◌};
ghost use Rattle.refusals.specs.Refusal.{number_in};
ghost use Rattle.surface.specs.Refusal.{side, refusal, refusal_from, drawn, advanced};

use refusals::Refusal;

// The largest side of a surface.
pub const MAX_SIDE: u32 = 4096;

// The answer of a drawing on lent bytes, as C takes it: the refusal's number, 0 if accepted, and whether it made a dirty mark.
#[repr(C)]
#[derive(Clone, Copy)]
pub struct Drawn {
    pub refusal: u32,
    pub marked: bool,
}

impl From<Result<bool, Refusal>> for Drawn {
    ghost from_gives = { λ r d. d ≡ drawn r };

    fn from(r: Result<bool, Refusal>) -> Drawn {
        match r {
            Ok(marked) => Drawn { refusal: 0, marked },
            Err(refusal) => Drawn {
                refusal: refusal.number(),
                marked: false,
            },
        }
    }
}

// The answer of a text on lent bytes, as C takes it: the refusal's number, 0 if accepted, and its advance in pixels.
#[repr(C)]
#[derive(Clone, Copy)]
pub struct Advance {
    pub refusal: u32,
    pub advance: u32,
}

impl From<Result<u32, Refusal>> for Advance {
    ghost from_gives = { λ r a. a ≡ advanced r };

    fn from(r: Result<u32, Refusal>) -> Advance {
        match r {
            Ok(advance) => Advance {
                refusal: 0,
                advance,
            },
            Err(refusal) => Advance {
                refusal: refusal.number(),
                advance: 0,
            },
        }
    }
}

// Returns whether a side is within its limits.
pub fn is_side(n: u32) -> bool
    ensures { result ≡ side n }
{
    1 <= n && n <= MAX_SIDE
}

// Checks the sides of a surface, and then that its len bytes are as many as these require.
#[tactic(auto, unfolding(crate::specs::Refusal::refusal_for))]
pub fn check(width: u32, height: u32, len: usize) -> Result<(), Refusal>
    ensures { number_in result ≡ refusal width height len }
{
    if !(is_side(width) && is_side(height)) {
        return Err(Refusal::Side);
    }
    if len != 2 * ((width as usize) * (height as usize)) {
        return Err(Refusal::Length);
    }
    Ok(())
}

// The same for an operation with a source.
#[tactic(auto, unfolding(crate::specs::Refusal::refusal_for))]
pub fn check_from(
    width: u32,
    height: u32,
    src_w: u32,
    src_h: u32,
    len: usize,
) -> Result<(), Refusal>
    ensures { number_in result ≡ refusal_from width height src_w src_h len }
{
    if MAX_SIDE < src_w || MAX_SIDE < src_h {
        return Err(Refusal::Side);
    }
    check(width, height, len)
}
