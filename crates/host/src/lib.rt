// The device for hosts in other languages; `host_c` has these functions under C names. The host keeps the record as numbers and
// lends it with the two memories. A call is a struct of numbers, a text's units are a slice. These functions have no preconditions.
#![tactic(auto)]

ghost use Rattle.std.specs.Prelude.{◌≡◌};
ghost use Rattle.plan.specs.Open.{Opened};
ghost use Rattle.plan.specs.Followed.{OnBoth};
ghost use Rattle.snapshot.specs.Snapshot.{rgba8888, ppm, Snapped};
ghost use Rattle.save.specs.Save.{Saved};
ghost use Rattle.host.specs.Host.{HostPerformed, HostLoaded, picture_length};

use host_call::HostCall;
use host_reply::Reply;
use refusals::Refusal;
use save::Saving;
use surface::MAX_SIDE;

// Opens a device (`open::open`). Returns the number of the refusal, 0 if the open is accepted.
pub fn ravinefork_open(
    numbers: &mut [u32],
    panel: &mut [u8],
    store: &mut [u8],
    width: u32,
    height: u32,
) -> u32
    ensures { OnBoth (Opened width height) numbers panel store result }
{
    refusals::number_in(open::open(numbers, panel, store, width, height))
}

// Performs a call (`perform::perform`). Only a text reads the units.
pub fn ravinefork_perform(
    numbers: &mut [u32],
    call: HostCall,
    units: &[u16],
    panel: &mut [u8],
    store: &mut [u8],
) -> Reply
    ensures { OnBoth (HostPerformed call units.now) numbers panel store result }
{
    match host_call::call_of(call) {
        Some(call) => host_reply::reply_of(perform::perform(numbers, call, units, panel, store)),
        None => host_reply::reply_of(Err(Refusal::NoCall)),
    }
}

// Loads a saved table (`load::load`). The panel and the created bitmaps are black afterwards.
pub fn ravinefork_load(
    numbers: &mut [u32],
    bytes: &[u8],
    panel: &mut [u8],
    store: &mut [u8],
) -> Reply
    ensures { OnBoth (HostLoaded bytes.now) numbers panel store result }
{
    host_reply::reply_of(load::load(numbers, bytes, panel, store))
}

// Saves the table of the record (`save::save`). Pixels are not saved.
pub fn ravinefork_save(numbers: &[u32], out: &mut [u8]) -> Saving
    ensures { Saved numbers.now out.old result out.new }
{
    Saving::from(save::save(numbers, out))
}

// Writes the panel's pixels as R, G, B, 255. Returns the number of the refusal, 0 if the snapshot is written.
pub fn ravinefork_snapshot_rgba8888(numbers: &[u32], panel: &[u8], out: &mut [u8]) -> u32
    ensures { Snapped rgba8888 numbers.now panel.now out.old result out.new }
{
    refusals::number_in(snapshot::snapshot_rgba8888_into(numbers, panel, out))
}

// Writes the panel as a P6 picture. Returns the number of the refusal, 0 if the snapshot is written.
pub fn ravinefork_snapshot_ppm(numbers: &[u32], panel: &[u8], out: &mut [u8]) -> u32
    ensures { Snapped ppm numbers.now panel.now out.old result out.new }
{
    refusals::number_in(snapshot::snapshot_ppm(numbers, panel, out))
}

// The length of a P6 picture of these sides, also where a side is 0; 0 if a side is above 4,096.
pub fn ravinefork_ppm_len(width: u32, height: u32) -> usize
    ensures { result ≡ picture_length width height }
{
    if width > MAX_SIDE || height > MAX_SIDE {
        return 0;
    }
    p6::ppm_len(width, height)
}
