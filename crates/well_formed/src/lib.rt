// Tests whether numbers are a record: the head, and each slot.
#![tactic(auto)]

ghost use Rattle.std.specs.Prelude.{◌≡◌, ◌≤◌, length};
ghost use Rattle.numbers.specs.Layout.{dc_size, object_size, slot_size};
ghost use Rattle.numbers.specs.Block.{is_dc, is_object, zeros_from, is_slot};
ghost use Rattle.well_formed.specs.Inner.{is_head};

use numbers::{
    BITMAP, BITMAP_PRESENT, BITMAP_SIZE, BK_TRANSPARENT, BRUSH_SIZE, COUNT, DIRTY_IN, FONT_SIZE,
    KIND, OBJECT, OBJECT_SIZE, PEN_SIZE, RECORD, SCREEN, SLOT, SLOTS, STOCK_DIRTY, SURFACE,
};

// Returns whether the numbers before the slots are well formed.
#[tactic(auto, unfolding(crate::specs::Inner::is_head))]
pub fn is_head(numbers: &[u32]) -> bool
    ensures { result ≡ is_head numbers.now }
{
    numbers.len() == RECORD
        && numbers[STOCK_DIRTY] <= 1
        && numbers[COUNT] <= 256
        && is_dc(&numbers[SCREEN..SLOTS])
}

// Returns whether the numbers are a slot.
pub fn is_slot(numbers: &[u32]) -> bool
    requires { slot_size ≤ length numbers.now }
    ensures { result ≡ is_slot numbers.now }
{
    is_object(numbers[KIND], &numbers[OBJECT..SLOT])
}

// Returns whether the numbers are an object of this kind.
#[tactic(auto, unfolding(numbers::specs::Block::is_object))]
fn is_object(kind: u32, numbers: &[u32]) -> bool
    requires { object_size ≤ length numbers.now }
    ensures { result ≡ is_object kind numbers.now }
{
    match kind {
        0 => is_dc(numbers),
        1 => numbers[DIRTY_IN] <= 1 && zeros_from(numbers, BITMAP_SIZE),
        2 => zeros_from(numbers, BRUSH_SIZE),
        3 => zeros_from(numbers, PEN_SIZE),
        4 => zeros_from(numbers, FONT_SIZE),
        _ => false,
    }
}

#[tactic(auto, unfolding(numbers::specs::Block::is_dc))]
fn is_dc(numbers: &[u32]) -> bool
    requires { dc_size ≤ length numbers.now }
    ensures { result ≡ is_dc numbers.now }
{
    numbers[SURFACE] <= 1
        && numbers[BK_TRANSPARENT] <= 1
        && (numbers[BITMAP_PRESENT] == 1 || numbers[BITMAP_PRESENT] == 0 && numbers[BITMAP] == 0)
}

// Returns whether an object's numbers from k on are 0: tested by combining all bits, without early exit, which is faster.
fn zeros_from(numbers: &[u32], k: usize) -> bool
    requires { (k ≤ object_size) × (object_size ≤ length numbers.now) }
    ensures { result ≡ zeros_from numbers.now k }
{
    numbers[k..OBJECT_SIZE].iter().fold(0, |bits, n| bits | *n) == 0
}
