// Pixels as RGBA bytes and as a P6 picture.
#![tactic(auto)]

ghost use Rattle.std.specs.Prelude.{◌≡◌, List, ℕ, ◌+◌, ◌*◌, ◌≤◌, ◌<◌, length, refl};
ghost use Rattle.words.specs.Words.{word};
ghost use Rattle.p6.specs.P6.{ppm_length};
ghost use Rattle.p6.specs.Inner.{put};
ghost use Rattle.p6.specs.Joined.{joined};
ghost use Rattle.samples.specs.Samples.{rgb, rgba, samples_of, rgba_of, ppm_of, rgba_length};

use color::Rgb565;

// The length of the RGBA bytes of a surface.
pub fn rgba_len(width: u32, height: u32) -> usize
    requires { (width ≤ 4096) × (height ≤ 4096) }
    ensures { result ≡ rgba_length width height }
{
    4 * ((width as usize) * (height as usize))
}

// Writes the RGBA bytes of the surface at the start of the pixels. The output has exactly their length.
pub fn write_rgba(pixels: &[u8], width: u32, height: u32, out: &mut [u8])
    requires height_in_bounds { 2 * (width * height) ≤ length pixels.now }
    requires out_len { length out.old ≡ rgba_length width height }
    ensures { out.new ≡ rgba_of pixels.now (width * height) }
{
    put_run::<4, Rgba>(pixels, (width as usize) * (height as usize), out, 0);
}

// Writes the picture of the surface at the start of the pixels. The output has exactly its length.
pub fn write_ppm(pixels: &[u8], width: u32, height: u32, out: &mut [u8])
    requires height_in_bounds { 2 * (width * height) ≤ length pixels.now }
    requires out_len { length out.old ≡ ppm_length width height }
    ensures { out.new ≡ ppm_of width height pixels.now }
{
    let at = p6::put_header(out, width, height);
    put_rgb_run(pixels, (width as usize) * (height as usize), out, at);
}

// Writes R, G and B of the first n words, from `at` on.
pub fn put_rgb_run(pixels: &[u8], n: usize, out: &mut [u8], at: usize)
    requires { (2 * n ≤ length pixels.now) × (at + 3 * n ≤ length out.old) }
    ensures { out.new ≡ put out.old at (samples_of pixels.now n) }
{
    put_run::<3, Rgb>(pixels, n, out, at);
}

// Writes R, G and B of a word, widened, from `at` on.
pub fn put_rgb(out: &mut [u8], at: usize, v: u16)
    requires { at + 2 < length out.old }
    ensures { out.new ≡ put out.old at (rgb v) }
{
    out[at..at + 3].copy_from_slice(&Rgb::bytes(v));
}

// Writes the bytes of the first n words, from `at` on.
fn put_run<const N: usize, F: Format<N>>(pixels: &[u8], n: usize, out: &mut [u8], at: usize)
    requires { (2 * n ≤ length pixels.now) × (at + N * n ≤ length out.old) }
    ensures { out.new ≡ put out.old at (joined (λ i. F.bytes_of (word pixels.now i)) n) }
{
    for i in 0..n {
        let from = at + N * i;
        out[from..from + N].copy_from_slice(&F::bytes(words::word_at(pixels, i)));
    }
}

// How a word is written as N bytes.
trait Format<const N: usize> {
    ghost bytes_of: { ℕ → List ℕ };

    fn bytes(v: u16) -> [u8; N]
        ensures { result ≡ bytes_of v };

    ghost length_bytes: { (v : ℕ) → length (bytes_of v) ≡ N };
}

// R, G and B, widened.
struct Rgb;

impl Format<3> for Rgb {
    ghost bytes_of = { rgb };

    ghost length_bytes = { λ v. refl };

    #[tactic(auto, using(crate::proofs::Pixels::rgb_channels))]
    fn bytes(v: u16) -> [u8; 3] {
        let w = color::rgb565_to_colorref(Rgb565(v));
        [color::red(w), color::green(w), color::blue(w)]
    }
}

// R, G, B and 255.
struct Rgba;

impl Format<4> for Rgba {
    ghost bytes_of = { rgba };

    ghost length_bytes = { λ v. refl };

    // a COLORREF's bytes, low first, are R, G, B and 0
    #[tactic(auto, using(crate::proofs::Pixels::rgba_bytes, color::proofs::Color::widened_fits))]
    fn bytes(v: u16) -> [u8; 4] {
        let w = color::rgb565_to_colorref(Rgb565(v));
        (w.0 + 0xFF00_0000).to_le_bytes()
    }
}
