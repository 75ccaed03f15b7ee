// P6 pictures: the length of one, and its header.
#![tactic(auto)]

ghost use Rattle.std.specs.Prelude.{◌≡◌, ◌+◌, ◌≤◌, length};
ghost use Rattle.p6.specs.P6.{decimal, header, ppm_length};
ghost use Rattle.p6.specs.Inner.{put};

use itoa::Buffer;

// The length of the picture of a surface.
#[tactic(auto, using(crate::proofs::Decimal::length_header))]
pub fn ppm_len(width: u32, height: u32) -> usize
    requires { (width ≤ 4096) × (height ≤ 4096) }
    ensures { result ≡ ppm_length width height }
{
    9 + decimal_len(width) + decimal_len(height) + 3 * ((width as usize) * (height as usize))
}

// Writes the header at the start of the output; returns its length. Piece by piece: what `write!` ensures says nothing of a slice's bytes.
#[tactic(auto, using(crate::proofs::Decimal::length_header))]
pub fn put_header(out: &mut [u8], width: u32, height: u32) -> usize
    requires { length (header width height) ≤ length out.old }
    ensures value { result ≡ length (header width height) }
    ensures bytes { out.new ≡ put out.old 0 (header width height) }
{
    let width_at = put_bytes(out, 0, b"P6\n");
    let space_at = put_decimal(out, width_at, width);
    let height_at = put_bytes(out, space_at, b" ");
    let end = put_decimal(out, height_at, height);
    put_bytes(out, end, b"\n255\n")
}

// Writes n in decimal from `at` on; returns where it ends.
#[tactic(auto, using(crate::proofs::Decimal::decimal_written))]
fn put_decimal(out: &mut [u8], at: usize, n: u32) -> usize
    requires { at + length (decimal n) ≤ length out.old }
    ensures value { result ≡ at + length (decimal n) }
    ensures bytes { out.new ≡ put out.old at (decimal n) }
{
    put_bytes(out, at, Buffer::new().format(n).as_bytes())
}

// The number of digits of n.
#[tactic(auto, using(crate::proofs::Decimal::decimal_written))]
fn decimal_len(n: u32) -> usize
    ensures value { result ≡ length (decimal n) }
    ensures few { result ≤ 10 }
{
    Buffer::new().format(n).len()
}

// Writes bytes from `at` on; returns where they end.
pub fn put_bytes(out: &mut [u8], at: usize, bytes: &[u8]) -> usize
    requires { at + length bytes.now ≤ length out.old }
    ensures value { result ≡ at + length bytes.now }
    ensures bytes { out.new ≡ put out.old at bytes.now }
{
    let end = at + bytes.len();
    out[at..end].copy_from_slice(bytes);
    end
}
