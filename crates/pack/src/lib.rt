// The table of a flat record, written into bytes.
#![tactic(auto)]

ghost use Rattle.std.specs.Prelude.{true, ◌++◌, ◌≡◌, ◌≤◌, length, drop};
ghost use Rattle.numbers.specs.Layout.{object_size, slot_size};
ghost use Rattle.numbers.specs.Block.{is_object, is_slot, slot_of};
ghost use Rattle.numbers.specs.View.{view, is_record};
ghost use Rattle.saved_table.specs.Table.{slot_bits, saved_table};
ghost use Rattle.pack.specs.Inner.{object_bits, head_bits, Room, Put};

use bits::{fill_byte, put_fields};
use numbers::{
    BITMAP_PRESENT, COUNT, DC, HANDLE, HEIGHT, KIND, NEXT_HANDLE, OBJECT, SCREEN, SLOT, SLOTS,
    WIDTH,
};
use saved_table::{
    BITMAP_BITS, BITMAP_WIDTHS, DC_BITS, DC_WIDTHS, HEAD_BITS, HEAD_WIDTHS, PEN_BITS, PEN_WIDTHS,
    SLOT_BITS, SLOT_WIDTHS, WORD_BITS, WORD_WIDTHS,
};

// Writes the fields of an object of this kind, from bit `at` on. Returns the bit behind them.
fn put_object(kind: u32, numbers: &[u32], out: &mut [u8], at: usize) -> usize
    requires numbers_len { length numbers.now ≡ object_size }
    requires numbers_value { is_object kind numbers.now ≡ true }
    requires room { Room out.old at (object_bits kind numbers.now) }
    ensures { Put out.old at (object_bits kind numbers.now) result out.new }
{
    match kind {
        0 => {
            put_fields(out, at, &DC_WIDTHS, &numbers[BITMAP_PRESENT..DC]);
            at + DC_BITS
        }
        1 => {
            put_fields(out, at, &BITMAP_WIDTHS, numbers);
            at + BITMAP_BITS
        }
        3 => {
            put_fields(out, at, &PEN_WIDTHS, numbers);
            at + PEN_BITS
        }
        _ => {
            put_fields(out, at, &WORD_WIDTHS, numbers);
            at + WORD_BITS
        }
    }
}

// Writes a created object, from bit `at` on: kind, handle and fields. Returns the bit behind it.
fn put_slot(numbers: &[u32], out: &mut [u8], at: usize) -> usize
    requires numbers_len { length numbers.now ≡ slot_size }
    requires numbers_value { is_slot numbers.now ≡ true }
    requires room { Room out.old at (slot_bits (slot_of numbers.now)) }
    ensures { Put out.old at (slot_bits (slot_of numbers.now)) result out.new }
{
    let kind = numbers[KIND];
    put_fields(out, at, &SLOT_WIDTHS, &[kind, numbers[HANDLE]]);
    put_object(kind, &numbers[OBJECT..SLOT], out, at + SLOT_BITS)
}

// Writes the head and the screen DC.
fn put_head(numbers: &[u32], out: &mut [u8])
    requires numbers_value { is_record numbers.now ≡ true }
    requires room { Room out.old 0 (head_bits (view numbers.now)) }
    ensures { Put out.old 0 (head_bits (view numbers.now)) 425 out.new }
{
    let head = [
        1,
        numbers[WIDTH],
        numbers[HEIGHT],
        numbers[NEXT_HANDLE],
        numbers[COUNT],
    ];
    put_fields(out, 0, &HEAD_WIDTHS, &head);
    put_fields(
        out,
        HEAD_BITS,
        &DC_WIDTHS,
        &numbers[SCREEN + BITMAP_PRESENT..SLOTS],
    );
}

// Returns how many bytes the table of a record has.
pub fn table_len(numbers: &[u32]) -> usize
    requires { is_record numbers.now ≡ true }
    ensures value { result ≡ length (saved_table (view numbers.now)) }
    ensures upper_bound { result ≤ 12502 }
{
    let mut bits = HEAD_BITS + DC_BITS;
    for slot in numbers[SLOTS..SLOTS + SLOT * numbers[COUNT] as usize].chunks_exact(SLOT) {
        bits += SLOT_BITS + saved_table::object_bits(slot[KIND]);
    }
    bits.div_ceil(8)
}

// Writes the table of a record into the front of the output, and keeps the output past it.
pub fn put_table(numbers: &[u32], out: &mut [u8])
    requires numbers_value { is_record numbers.now ≡ true }
    requires numbers_in_bounds { length (saved_table (view numbers.now)) ≤ length out.old }
    ensures { out.new ≡ saved_table (view numbers.now) ++ drop (length (saved_table (view numbers.now))) out.old }
{
    put_head(numbers, out);
    let mut at = HEAD_BITS + DC_BITS;
    for slot in numbers[SLOTS..SLOTS + SLOT * numbers[COUNT] as usize].chunks_exact(SLOT) {
        at = put_slot(slot, out, at);
    }
    fill_byte(out, at);
}
