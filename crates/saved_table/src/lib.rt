// The fields of a saved table: how many bits each has. specs/ defines the table of a record, and which bytes are a table.
#![tactic(auto)]

ghost use Rattle.std.specs.Prelude.{◌≡◌};
ghost use Rattle.bits.specs.Bits.{total};
ghost use Rattle.saved_table.specs.Table.{widths_of};

// How many bytes the longest table has, that of 256 DCs.
pub const MAX_TABLE: usize = 12_502;

// How many bits each field has: of the head, of a DC, of a bitmap, of a pen, of a brush or font; of a created object the kind and handle.
pub const HEAD_WIDTHS: [u32; 5] = [4, 13, 13, 32, 9];

pub const DC_WIDTHS: [u32; 13] = [1, 32, 32, 32, 32, 32, 32, 32, 32, 32, 1, 32, 32];

pub const BITMAP_WIDTHS: [u32; 3] = [13, 13, 1];

pub const PEN_WIDTHS: [u32; 2] = [32, 32];

pub const WORD_WIDTHS: [u32; 1] = [32];

pub const SLOT_WIDTHS: [u32; 2] = [3, 32];

// How many bits these fields have together.
pub const HEAD_BITS: usize = 71;

pub const DC_BITS: usize = 354;

pub const BITMAP_BITS: usize = 27;

pub const PEN_BITS: usize = 64;

pub const WORD_BITS: usize = 32;

pub const SLOT_BITS: usize = 35;

// Returns how many bits the fields of an object of this kind have.
#[tactic(auto, unfolding(bits::specs::Bits::total))]
pub fn object_bits(kind: u32) -> usize
    ensures { result ≡ total (widths_of kind) }
{
    match kind {
        0 => DC_BITS,
        1 => BITMAP_BITS,
        3 => PEN_BITS,
        _ => WORD_BITS,
    }
}
