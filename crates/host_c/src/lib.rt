// The device under C names, for hosts in other languages: each function passes its arguments on to `host`'s of the same name, and
// ensures what that one does. In C a slice is a pointer and a length. These functions have no preconditions.
#![tactic(auto)]

ghost use Rattle.std.specs.Prelude.{◌≡◌};
ghost use Rattle.plan.specs.Open.{Opened};
ghost use Rattle.plan.specs.Followed.{OnBoth};
ghost use Rattle.snapshot.specs.Snapshot.{rgba8888, ppm, Snapped};
ghost use Rattle.save.specs.Save.{Saved};
ghost use Rattle.host.specs.Host.{HostPerformed, HostLoaded, picture_length};

use host_call::HostCall;
use host_reply::Reply;
use save::Saving;

// Opens a device (`open::open`). Returns the number of the refusal, 0 if the open is accepted.
#[unsafe(no_mangle)]
pub extern "C" fn ravinefork_open(
    numbers: &mut [u32],
    panel: &mut [u8],
    store: &mut [u8],
    width: u32,
    height: u32,
) -> u32
    ensures { OnBoth (Opened width height) numbers panel store result }
{
    host::ravinefork_open(numbers, panel, store, width, height)
}

// Performs a call (`perform::perform`). Only a text reads the units.
#[unsafe(no_mangle)]
pub extern "C" fn ravinefork_perform(
    numbers: &mut [u32],
    call: HostCall,
    units: &[u16],
    panel: &mut [u8],
    store: &mut [u8],
) -> Reply
    ensures { OnBoth (HostPerformed call units.now) numbers panel store result }
{
    host::ravinefork_perform(numbers, call, units, panel, store)
}

// Loads a saved table (`load::load`). The panel and the created bitmaps are black afterwards.
#[unsafe(no_mangle)]
pub extern "C" fn ravinefork_load(
    numbers: &mut [u32],
    bytes: &[u8],
    panel: &mut [u8],
    store: &mut [u8],
) -> Reply
    ensures { OnBoth (HostLoaded bytes.now) numbers panel store result }
{
    host::ravinefork_load(numbers, bytes, panel, store)
}

// Saves the table of the record (`save::save`). Pixels are not saved.
#[unsafe(no_mangle)]
pub extern "C" fn ravinefork_save(numbers: &[u32], out: &mut [u8]) -> Saving
    ensures { Saved numbers.now out.old result out.new }
{
    host::ravinefork_save(numbers, out)
}

// Writes the panel's pixels as R, G, B, 255. Returns the number of the refusal, 0 if the snapshot is written.
#[unsafe(no_mangle)]
pub extern "C" fn ravinefork_snapshot_rgba8888(numbers: &[u32], panel: &[u8], out: &mut [u8]) -> u32
    ensures { Snapped rgba8888 numbers.now panel.now out.old result out.new }
{
    host::ravinefork_snapshot_rgba8888(numbers, panel, out)
}

// Writes the panel as a P6 picture. Returns the number of the refusal, 0 if the snapshot is written.
#[unsafe(no_mangle)]
pub extern "C" fn ravinefork_snapshot_ppm(numbers: &[u32], panel: &[u8], out: &mut [u8]) -> u32
    ensures { Snapped ppm numbers.now panel.now out.old result out.new }
{
    host::ravinefork_snapshot_ppm(numbers, panel, out)
}

// The length of a P6 picture of these sides, also where a side is 0; 0 if a side is above 4,096.
#[unsafe(no_mangle)]
pub extern "C" fn ravinefork_ppm_len(width: u32, height: u32) -> usize
    ensures { result ≡ picture_length width height }
{
    host::ravinefork_ppm_len(width, height)
}
