// The record that a table's bytes hold, written as numbers.
#![tactic(auto)]

ghost use Rattle.std.specs.Prelude.{◌∷◌, ◌≡◌, true, ◌+◌, ◌≤◌, ◌<◌, ◌^◌, leb, length};
ghost use Rattle.bits.specs.Bits.{bits_of, numbers_in};
ghost use Rattle.bits.specs.Inner.{FieldsFit};
ghost use Rattle.numbers.specs.Layout.{object_size, slot_size, record_size, stock_dirty_place};
ghost use Rattle.numbers.specs.Block.{at, dc_fields, object_of};
ghost use Rattle.numbers.specs.View.{view, Updated};
ghost use Rattle.numbers.proofs.Block.{SlotCoded};
ghost use Rattle.saved_table.specs.Table.{dc_widths, widths_of};
ghost use Rattle.saved_table.specs.Held.{object_held, slot_held, start_held, held_by};
ghost use Rattle.unpack.specs.Inner.{end_held, block_held, complete, HeadRead, SlotsRead};

use gdi::{Dc, GdiObject, Slot};
use numbers::{COUNT, HEIGHT, NEXT_HANDLE, OBJECT_SIZE, SCREEN, SLOT, SLOTS, WIDTH};
use saved_table::{BITMAP_WIDTHS, DC_WIDTHS, PEN_WIDTHS, WORD_WIDTHS};

// Where fields begin: the panel's sides, the next handle, the count, the screen DC, the first object.
const WIDTH_BIT: usize = 4;

const HEIGHT_BIT: usize = 17;

const NEXT_HANDLE_BIT: usize = 30;

const COUNT_BIT: usize = 62;

const SCREEN_BIT: usize = 71;

const OBJECTS_BIT: usize = 425;

// How many bits an object has before its fields: its kind's and its handle's.
const KIND_BITS: u32 = 3;

const HANDLE_BIT: usize = 3;

const FIELDS_BIT: usize = 35;

// Returns whether the first n bits are there.
#[tactic(auto, using(bits::proofs::Bytes::length_bits, std::proofs::lemmas::Bool::Decides::nat_tests))]
fn has_bits(bytes: &[u8], n: usize) -> bool
    requires { n < 2 ^ 32 }
    ensures { result ≡ leb n (length (bits_of bytes.now)) }
{
    n.div_ceil(8) <= bytes.len()
}

// Returns whether the bytes are long enough for the fields that they announce.
pub fn is_complete(bytes: &[u8]) -> bool
    ensures { result ≡ complete (bits_of bytes.now) }
{
    if !has_bits(bytes, OBJECTS_BIT) {
        return false;
    }
    let n = bits::field_at(bytes, COUNT_BIT, 9);
    if n > 256 {
        return false;
    }
    let mut at = OBJECTS_BIT;
    for _ in 0..n {
        if !has_bits(bytes, at + FIELDS_BIT) {
            return false;
        }
        at += FIELDS_BIT + saved_table::object_bits(bits::field_at(bytes, at, KIND_BITS));
    }
    has_bits(bytes, at)
}

// Reads the DC whose fields begin at bit `at`. The number of its surface is not saved.
fn dc_held(bytes: &[u8], at: usize, surface: u32) -> Dc
    requires { FieldsFit bytes.now at dc_widths }
    ensures { result ≡ dc_fields (surface ∷ numbers_in dc_widths (bits_of bytes.now) at) }
{
    let mut block = [0u32; OBJECT_SIZE];
    block[0] = surface;
    bits::read_fields(bytes, at, &DC_WIDTHS, &mut block[1..]);
    numbers::dc_of(&block)
}

// Reads an object of this kind from fields of these widths.
fn object_as(bytes: &[u8], at: usize, kind: u32, widths: &[u32]) -> GdiObject
    requires fields_fit { FieldsFit bytes.now at widths.now }
    requires widths_len_bound { length widths.now ≤ object_size }
    ensures { result ≡ object_of kind (block_held widths.now (bits_of bytes.now) at) }
{
    let mut block = [0u32; OBJECT_SIZE];
    bits::read_fields(bytes, at, widths, &mut block);
    numbers::object_of(kind, &block)
}

// Reads the object of this kind whose fields begin at bit `at`. A created DC is a memory DC.
fn object_held(bytes: &[u8], at: usize, kind: u32) -> GdiObject
    requires { FieldsFit bytes.now at (widths_of kind) }
    ensures { result ≡ object_held kind (bits_of bytes.now) at }
{
    match kind {
        0 => {
            let d = dc_held(bytes, at, 1);
            GdiObject::Dc(d)
        }
        1 => object_as(bytes, at, kind, &BITMAP_WIDTHS),
        3 => object_as(bytes, at, kind, &PEN_WIDTHS),
        _ => object_as(bytes, at, kind, &WORD_WIDTHS),
    }
}

// Reads the created object at bit `at` into the numbers of a slot. Returns where the next begins.
fn read_slot(bytes: &[u8], at: usize, numbers: &mut [u32]) -> usize
    requires at_in_bounds { end_held (bits_of bytes.now) at ≤ length (bits_of bytes.now) }
    requires at_bound { at < 2 ^ 32 }
    requires numbers_len { length numbers.old ≡ slot_size }
    ensures value { result ≡ end_held (bits_of bytes.now) at }
    ensures slot_coded { SlotCoded (slot_held (bits_of bytes.now) at) numbers.new }
{
    let kind = bits::field_at(bytes, at, KIND_BITS);
    let handle = bits::field_at(bytes, at + HANDLE_BIT, 32);
    let fields = at + FIELDS_BIT;
    let object = object_held(bytes, fields, kind);
    encode::put_slot(numbers, Slot { handle, object });
    fields + saved_table::object_bits(kind)
}

// Reads the first n created objects into the numbers of their slots.
fn read_slots(bytes: &[u8], n: u32, numbers: &mut [u32])
    requires n_in_bounds { start_held (bits_of bytes.now) n ≤ length (bits_of bytes.now) }
    requires n_bound { n ≤ 256 }
    requires numbers_len { length numbers.old ≡ record_size }
    ensures { SlotsRead (bits_of bytes.now) n numbers.old numbers.new }
{
    let mut at = OBJECTS_BIT;
    for i in 0..n as usize {
        let p = SLOTS + SLOT * i;
        at = read_slot(bytes, at, &mut numbers[p..p + SLOT]);
    }
}

// Reads the numbers before the slots. Memory lengths, frame counter and the stock bitmap's mark are kept.
fn read_head(bytes: &[u8], numbers: &mut [u32])
    requires in_bounds { 425 ≤ length (bits_of bytes.now) }
    requires numbers_len { length numbers.old ≡ record_size }
    ensures { HeadRead (bits_of bytes.now) numbers.old numbers.new }
{
    let d = dc_held(bytes, SCREEN_BIT, 0);
    encode::put_dc(&mut numbers[SCREEN..SLOTS], d);
    numbers[WIDTH] = bits::field_at(bytes, WIDTH_BIT, 13);
    numbers[HEIGHT] = bits::field_at(bytes, HEIGHT_BIT, 13);
    numbers[NEXT_HANDLE] = bits::field_at(bytes, NEXT_HANDLE_BIT, 32);
    numbers[COUNT] = bits::field_at(bytes, COUNT_BIT, 9);
}

// Reads a table's record into numbers. Memory lengths, frame counter, the stock bitmap's mark and the numbers past the last object
// are kept.
pub fn read_table(bytes: &[u8], numbers: &mut [u32])
    requires bytes_value { complete (bits_of bytes.now) ≡ true }
    requires numbers_len { length numbers.old ≡ record_size }
    requires stock_dirty_place_bound { at numbers.old stock_dirty_place ≤ 1 }
    ensures { Updated numbers.old (held_by (view numbers.old) bytes.now) numbers.new }
{
    read_head(bytes, numbers);
    read_slots(bytes, bits::field_at(bytes, COUNT_BIT, 9), numbers);
}
