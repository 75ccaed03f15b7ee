// Snapshots of the panel, as RGBA bytes and as a P6 picture.
#![tactic(auto)]

ghost use Rattle.std.specs.Prelude.{◌≡◌, ◌*◌, ◌≤◌, length};
ghost use Rattle.refusals.specs.Refusal.{number_in};
ghost use Rattle.snapshot.specs.Snapshot.{Format, rgba8888, ppm, Snapped};

use numbers::{HEIGHT, WIDTH};
pub use p6::ppm_len;
use refusals::Refusal;

// Writes R, G, B, 255 of each of the panel's pixels.
pub fn snapshot_rgba8888_into(numbers: &[u32], panel: &[u8], out: &mut [u8]) -> Result<(), Refusal>
    ensures { Snapped rgba8888 numbers.now panel.now out.old (number_in result) out.new }
{
    snapshot::<Rgba8888>(numbers, panel, out)
}

// Writes the panel as a P6 picture.
pub fn snapshot_ppm(numbers: &[u32], panel: &[u8], out: &mut [u8]) -> Result<(), Refusal>
    ensures { Snapped ppm numbers.now panel.now out.old (number_in result) out.new }
{
    snapshot::<Ppm>(numbers, panel, out)
}

// A format: how many bytes the picture of a panel of these sides has, and how it is written.
trait Picture {
    ghost format: { Format };

    fn len(width: u32, height: u32) -> usize
        requires { (width ≤ 4096) × (height ≤ 4096) }
        ensures { result ≡ format.wanted width height };

    fn write(panel: &[u8], width: u32, height: u32, out: &mut [u8])
        requires panel_len { 2 * (width * height) ≤ length panel.now }
        requires out_len { length out.old ≡ format.wanted width height }
        ensures { out.new ≡ format.picture width height panel.now };
}

struct Rgba8888;

impl Picture for Rgba8888 {
    ghost format = { rgba8888 };

    fn len(width: u32, height: u32) -> usize {
        samples::rgba_len(width, height)
    }

    fn write(panel: &[u8], width: u32, height: u32, out: &mut [u8]) {
        samples::write_rgba(panel, width, height, out);
    }
}

struct Ppm;

impl Picture for Ppm {
    ghost format = { ppm };

    fn len(width: u32, height: u32) -> usize {
        ppm_len(width, height)
    }

    fn write(panel: &[u8], width: u32, height: u32, out: &mut [u8]) {
        samples::write_ppm(panel, width, height, out);
    }
}

// Writes the panel as a picture. The output has exactly the picture's length.
#[tactic(auto, using(crate::proofs::Refusal::shown, crate::proofs::Refusal::output_refused))]
fn snapshot<P: Picture>(numbers: &[u32], panel: &[u8], out: &mut [u8]) -> Result<(), Refusal>
    ensures { Snapped P.format numbers.now panel.now out.old (number_in result) out.new }
{
    ready::check_panel(numbers, panel.len())?;
    let width = numbers[WIDTH];
    let height = numbers[HEIGHT];
    if out.len() != P::len(width, height) {
        return Err(Refusal::Length);
    }
    P::write(panel, width, height, out);
    Ok(())
}
