// The check of a flat record, and the refusals shared by every call after open.
#![tactic(auto)]

ghost use Rattle.std.specs.Prelude.{◌≡◌, true, ◌&&◌, ◌<◌};
ghost use Rattle.gdi.specs.Lookup.{handle_at};
ghost use Rattle.numbers.specs.Layout.{count_place};
ghost use Rattle.numbers.specs.Block.{at};
ghost use Rattle.numbers.specs.View.{view, is_record};
ghost use Rattle.sound.specs.Sound.{absent, distinct, is_sound};
ghost use Rattle.refusals.specs.Refusal.{number_in};
ghost use Rattle.ready.specs.Ready.{common_refusal_on, panel_refusal_on};
ghost use Rattle.ready.specs.Inner.{sound_end};

use numbers::{COUNT, HEIGHT, PANEL_LEN, SCREEN, SLOT, SLOTS, STORE_LEN, WIDTH};
use refusals::Refusal;
use sound::MAX_MEMORY;

// Returns where the store's pixels end if the numbers are a record that is sound except for the memory sizes.
pub fn sound_end(numbers: &[u32]) -> Option<usize>
    ensures { result ≡ sound_end numbers.now }
{
    if !well_formed::is_head(numbers)
        || !surface::is_side(numbers[WIDTH])
        || !surface::is_side(numbers[HEIGHT])
        || !sound::is_positioned(numbers, SCREEN)
    {
        return None;
    }
    let scan = sound::scan_slots(numbers)?;
    handles_differ(numbers, scan.ascending).then_some(scan.end)
}

// Returns whether the numbers are a sound record.
pub fn is_sound(numbers: &[u32]) -> bool
    ensures { result ≡ (is_record numbers.now && is_sound (view numbers.now)) }
{
    let Some(end) = sound_end(numbers) else {
        return false;
    };
    let panel_len = numbers[PANEL_LEN] as usize;
    let store_len = numbers[STORE_LEN] as usize;
    let w = numbers[WIDTH] as usize;
    let h = numbers[HEIGHT] as usize;
    panel_len <= MAX_MEMORY
        && store_len <= MAX_MEMORY
        && 2 * (w * h) <= panel_len
        && end <= store_len
}

// Returns whether handle k differs from the k handles before it.
fn is_absent(numbers: &[u32], k: usize) -> bool
    requires numbers_value { is_record numbers.now ≡ true }
    requires k_bound { k < at numbers.now count_place }
    ensures { result ≡ absent (view numbers.now).objects k (handle_at (view numbers.now).objects k) }
{
    let h = numbers[SLOTS + SLOT * k];
    (0..k).all(|j| numbers[SLOTS + SLOT * j] != h)
}

// Returns whether all handles differ, by comparing every pair.
fn all_pairs_differ(numbers: &[u32]) -> bool
    requires { is_record numbers.now ≡ true }
    ensures { result ≡ distinct (view numbers.now).objects (view numbers.now).count }
{
    (0..numbers[COUNT] as usize).all(|k| is_absent(numbers, k))
}

// Returns whether all handles differ. Pairs are compared only if the handles do not ascend.
fn handles_differ(numbers: &[u32], ascending: bool) -> bool
    requires numbers_value { is_record numbers.now ≡ true }
    requires numbers_value_2 { ascending ≡ true → distinct (view numbers.now).objects (view numbers.now).count ≡ true }
    ensures { result ≡ distinct (view numbers.now).objects (view numbers.now).count }
{
    ascending || all_pairs_differ(numbers)
}

// Checks that a record is ready, which every call asks first. Only the panel memory is lent: the store's length is not checked.
pub fn check_panel(numbers: &[u32], panel_len: usize) -> Result<(), Refusal>
    ensures { number_in result ≡ panel_refusal_on numbers.now panel_len }
{
    if !is_sound(numbers) {
        return Err(Refusal::UnsoundRecord);
    }
    if panel_len != numbers[PANEL_LEN] as usize {
        return Err(Refusal::Length);
    }
    Ok(())
}

// The same with both memories lent: the lengths of both are checked.
pub fn check(numbers: &[u32], panel_len: usize, store_len: usize) -> Result<(), Refusal>
    ensures { number_in result ≡ common_refusal_on numbers.now panel_len store_len }
{
    check_panel(numbers, panel_len)?;
    if store_len != numbers[STORE_LEN] as usize {
        return Err(Refusal::Length);
    }
    Ok(())
}
