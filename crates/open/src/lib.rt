// Open: writes a fresh flat record and clears the panel and the stock pixel.
#![tactic(auto)]

ghost use Rattle.std.specs.Prelude.{◌≡◌, length};
ghost use Rattle.gdi.specs.Record.{fresh};
ghost use Rattle.numbers.specs.Layout.{record_size};
ghost use Rattle.numbers.specs.View.{Updated};
ghost use Rattle.refusals.specs.Refusal.{number_in};
ghost use Rattle.plan.specs.Open.{open_refusal, Opened};
ghost use Rattle.plan.specs.Followed.{OnBoth};

use gdi::GDI_HANDLE_BASE;
use numbers::{RECORD, SCREEN, SLOTS};
use refusals::Refusal;
use sound::MAX_MEMORY;

// Checks the sides of a panel, and the lengths of the panel memory and the store.
#[tactic(auto, using(sound::proofs::Bytes::area), unfolding(plan::specs::Open::open_refusal))]
fn check(width: u32, height: u32, panel_len: usize, store_len: usize) -> Result<(), Refusal>
    ensures { number_in result ≡ open_refusal width height panel_len store_len }
{
    if !surface::is_side(width) || !surface::is_side(height) {
        return Err(Refusal::Side);
    }
    if panel_len > MAX_MEMORY || store_len > MAX_MEMORY {
        return Err(Refusal::Length);
    }
    if panel_len < 2 * (width as usize * height as usize) || store_len < 2 {
        return Err(Refusal::TooShort);
    }
    Ok(())
}

// Opens a device with a panel of these sides. Accepted, the panel and the stock pixel are black, and no other byte of the memories
// changes. Numbers of another length than a record's are refused with 9.
#[tactic(auto, using(crate::proofs::Opened::panel_room, crate::proofs::Opened::panel_short, crate::proofs::Opened::store_room, crate::proofs::Opened::store_short))]
pub fn open(
    numbers: &mut [u32],
    panel: &mut [u8],
    store: &mut [u8],
    width: u32,
    height: u32,
) -> Result<(), Refusal>
    ensures { OnBoth (Opened width height) numbers panel store (number_in result) }
{
    if numbers.len() != RECORD {
        return Err(Refusal::UnsoundRecord);
    }
    if let Err(refusal) = check(width, height, panel.len(), store.len()) {
        put_fresh(numbers, 0, 0, 0, 0);
        return Err(refusal);
    }
    let n = 2 * (width as usize * height as usize);
    memory::zero(panel, 0, n);
    memory::zero(store, 0, 2);
    put_fresh(
        numbers,
        panel.len() as u32,
        store.len() as u32,
        width,
        height,
    );
    Ok(())
}

// Writes a record without created objects. The numbers after its screen DC are kept.
fn put_fresh(numbers: &mut [u32], panel_len: u32, store_len: u32, width: u32, height: u32)
    requires { length numbers.old ≡ record_size }
    ensures { Updated numbers.old (fresh panel_len store_len width height) numbers.new }
{
    // lengths and sides, no frame, the first handle, a clean stock bitmap, no object
    numbers[..SCREEN].copy_from_slice(&[
        panel_len,
        store_len,
        width,
        height,
        0,
        0,
        GDI_HANDLE_BASE,
        0,
        0,
    ]);
    encode::put_dc(&mut numbers[SCREEN..SLOTS], gdi::screen_dc());
}
