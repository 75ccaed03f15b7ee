// A picture's sides and pixels, read from bytes, as a P6 picture.
#![tactic(auto)]

ghost use Rattle.std.specs.Prelude.{◌≡◌, false, ◌≤◌, length, MatchOption};
ghost use Rattle.pixmap.specs.Pixmap.{served, is_picture, picture_of};
ghost use Rattle.pixmap.specs.Inner.{Sides};
ghost use Rattle.p6.specs.Inner.{put};

// The longest side of a picture.
const LONGEST_SIDE: u16 = 144;

// The length of the longest input that is a picture: two sides and their pixels.
pub const LONGEST_INPUT: usize = 41_476;

// The length of the longest picture.
pub const LONGEST_PICTURE: usize = 62_223;

// Writes the input's picture, or `no picture`, at the start of the output; returns how many bytes were written.
#[tactic(auto, using(crate::proofs::Picture::room, crate::proofs::Picture::no_picture_lem))]
pub fn write_picture(input: &[u8], out: &mut [u8]) -> usize
    requires { 62223 ≤ length out.old }
    ensures value { result ≡ length (picture_of input.now) }
    ensures bytes { out.new ≡ put out.old 0 (picture_of input.now) }
    ensures within { result ≤ length out.new }
{
    let Some((width, height)) = sides(input) else {
        return p6::put_bytes(out, 0, b"no picture\n");
    };
    let n = p6::ppm_len(width, height);
    samples::write_ppm(&input[4..], width, height, &mut out[..n]);
    n
}

// Returns the sides of an input that is a picture: two sides, then exactly as many pixels as they require.
#[tactic(auto, unfolding(crate::specs::Pixmap::is_picture))]
fn sides(input: &[u8]) -> Option<(u32, u32)>
    ensures { MatchOption result (is_picture input.now ≡ false) (λ p. Sides input.now p.0 p.1) }
{
    if input.len() < 4 {
        return None;
    }
    let width = bigendian::read_u16(input, 0);
    let height = bigendian::read_u16(input, 2);
    if is_served(width)
        && is_served(height)
        && input.len() == 4 + 2 * (width as usize * height as usize)
    {
        Some((u32::from(width), u32::from(height)))
    } else {
        None
    }
}

// Returns whether a side is within the limit.
fn is_served(n: u16) -> bool
    ensures { result ≡ served n }
{
    (1..=LONGEST_SIDE).contains(&n)
}
