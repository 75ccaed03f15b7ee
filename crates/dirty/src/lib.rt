// Dirty marks: a mark adds 1 to the panel's frame counter, or sets a bitmap's `host_dirty`.
#![tactic(auto)]

ghost use Rattle.std.specs.Prelude.{◌≡◌, ◌<◌, true};
ghost use Rattle.numbers.specs.Layout.{count_place};
ghost use Rattle.numbers.specs.Block.{at};
ghost use Rattle.numbers.specs.View.{view, is_record, Updated};
ghost use Rattle.place.specs.Place.{slot_for};
ghost use Rattle.dirty.specs.Dirty.{next_frame, created_dirtied, dirtied, dirtied_if};

use gdi::STOCK_DEFAULT_BITMAP;
use numbers::{BITMAP_DIRTY, FRAMES_HIGH, FRAMES_LOW, KIND, SLOT, SLOTS, STOCK_DIRTY};
use place::SurfaceId;

// Marks a surface dirty. A created bitmap has its record in this slot.
pub fn mark_dirty(numbers: &mut [u32], id: SurfaceId, slot: Option<usize>)
    requires numbers_value { is_record numbers.old ≡ true }
    requires slot_value { slot ≡ slot_for (view numbers.old) id }
    ensures { Updated numbers.old (dirtied (view numbers.old) id) numbers.new }
{
    match id {
        SurfaceId::Panel => count_frame(numbers),
        SurfaceId::Bitmap(h) => {
            if h == STOCK_DEFAULT_BITMAP {
                numbers[STOCK_DIRTY] = 1;
            } else if let Some(i) = slot {
                mark_slot(numbers, i);
            }
        }
    }
}

// The same if a mark is due.
pub fn mark_dirty_if(numbers: &mut [u32], id: SurfaceId, slot: Option<usize>, due: bool)
    requires numbers_value { is_record numbers.old ≡ true }
    requires slot_value { slot ≡ slot_for (view numbers.old) id }
    ensures { Updated numbers.old (dirtied_if due id (view numbers.old)) numbers.new }
{
    if due {
        mark_dirty(numbers, id, slot);
    }
}

// Adds 1 to the frame counter.
fn count_frame(numbers: &mut [u32])
    requires { is_record numbers.old ≡ true }
    ensures { Updated numbers.old (next_frame (view numbers.old)) numbers.new }
{
    let frames = u64::from(numbers[FRAMES_LOW]) + 0x1_0000_0000 * u64::from(numbers[FRAMES_HIGH]);
    let next = frames.wrapping_add(1);
    numbers[FRAMES_LOW] = (next % 0x1_0000_0000) as u32;
    numbers[FRAMES_HIGH] = (next / 0x1_0000_0000) as u32;
}

// Marks the bitmap in slot i; an object of another kind is kept.
fn mark_slot(numbers: &mut [u32], i: usize)
    requires numbers_value { is_record numbers.old ≡ true }
    requires i_bound { i < at numbers.old count_place }
    ensures { Updated numbers.old (created_dirtied (view numbers.old) (Some i)) numbers.new }
{
    let p = SLOTS + SLOT * i;
    if numbers[p + KIND] == 1 {
        numbers[p + BITMAP_DIRTY] = 1;
    }
}
