// Allocates handles and appends objects, on a flat record.
#![tactic(auto)]

ghost use Rattle.std.specs.Prelude.{◌≡◌, ◌<◌, true};
ghost use Rattle.numbers.specs.Layout.{count_place};
ghost use Rattle.numbers.specs.Block.{at};
ghost use Rattle.numbers.specs.View.{view, is_record, Updated};
ghost use Rattle.handles.specs.Handles.{free, new_handle, added_as};

use gdi::{GdiObject, Slot};
use numbers::{COUNT, NEXT_HANDLE, SLOT, SLOTS};

// How many handles are tried. At most 0, twelve stock handles and 256 live ones are taken.
pub const TRIES: u32 = 270;

// Returns whether a handle is free: not 0, stock or live.
fn is_free(numbers: &[u32], handle: u32) -> bool
    requires { is_record numbers.now ≡ true }
    ensures { result ≡ free (view numbers.now).objects (view numbers.now).count handle }
{
    handle != 0 && !gdi::is_stock_handle(handle) && lookup::find(numbers, handle).is_none()
}

// Returns the first free handle from the next handle on.
pub fn alloc_handle(numbers: &[u32]) -> u32
    requires { is_record numbers.now ≡ true }
    ensures { result ≡ new_handle (view numbers.now) }
{
    let next = numbers[NEXT_HANDLE];
    for k in 0..TRIES {
        let h = next.wrapping_add(k);
        if is_free(numbers, h) {
            return h;
        }
    }
    next.wrapping_add(TRIES)
}

// Appends the object under this handle. Only its slot, the next handle and the count are written.
pub fn append(numbers: &mut [u32], handle: u32, object: GdiObject)
    requires numbers_value { is_record numbers.old ≡ true }
    requires count_place_bound { at numbers.old count_place < 256 }
    ensures { Updated numbers.old (added_as (view numbers.old) handle object) numbers.new }
{
    let n = numbers[COUNT];
    let p = SLOTS + SLOT * (n as usize);
    encode::put_slot(&mut numbers[p..p + SLOT], Slot { handle, object });
    numbers[NEXT_HANDLE] = handle.wrapping_add(1);
    numbers[COUNT] = n + 1;
}
