// Removes an object from the table of a flat record, and its pixels from the store.
#![tactic(auto)]

ghost use Rattle.std.specs.Prelude.{◌≡◌, true, ◌<◌, length};
ghost use Rattle.numbers.specs.Layout.{count_place};
ghost use Rattle.numbers.specs.Block.{at};
ghost use Rattle.numbers.specs.View.{view, is_record, Updated};
ghost use Rattle.sound.specs.Sound.{is_sound};
ghost use Rattle.removal.specs.Removal.{without_at};
ghost use Rattle.removal.specs.Inner.{without_pixels};

use numbers::{COUNT, SLOT, SLOTS};

// Removes object i from the table and its bytes from the store; both gaps are closed.
pub fn take_out(numbers: &mut [u32], store: &mut [u8], i: usize)
    requires numbers_value { is_record numbers.old ≡ true }
    requires numbers_value_2 { is_sound (view numbers.old) ≡ true }
    requires i_bound { i < at numbers.old count_place }
    requires store_len { length store.old ≡ (view numbers.old).store_len }
    ensures updated { Updated numbers.old (without_at (view numbers.old) i) numbers.new }
    ensures store_after { store.new ≡ without_pixels (view numbers.old) i store.old }
{
    let count = numbers[COUNT] as usize;
    let p = sound::start_of(numbers, i);
    let end = sound::start_of(numbers, count);
    let n = sound::bytes_of(numbers, SLOTS + SLOT * i);
    memory::close_up(store, p, n, end);
    remove_slot(numbers, i);
}

// Removes object i from the table: the numbers of later slots move down by one slot. The last slot keeps its old numbers.
fn remove_slot(numbers: &mut [u32], i: usize)
    requires numbers_value { is_record numbers.old ≡ true }
    requires i_bound { i < at numbers.old count_place }
    ensures { Updated numbers.old (without_at (view numbers.old) i) numbers.new }
{
    let last = numbers[COUNT] - 1;
    let end = SLOTS + SLOT * (last as usize);
    let mut k = SLOTS + SLOT * i;
    while k < end {
        numbers[k] = numbers[k + SLOT];
        k += 1;
    }
    numbers[COUNT] = last;
}
