// Reads and stores one little-endian word of a memory.
#![tactic(auto)]

ghost use Rattle.std.specs.Prelude.{◌≡◌, ◌<◌, ◌*◌, ◌+◌, ◌/◌, ◌%◌, length, set};
ghost use Rattle.words.specs.Words.{word};

// Returns word i.
#[tactic(auto, unfolding(crate::specs::Words::word))]
pub fn word_at(mem: &[u8], i: usize) -> u16
    requires { 2 * i + 1 < length mem.now }
    ensures { result ≡ word mem.now i }
{
    u16::from_le_bytes([mem[2 * i], mem[2 * i + 1]])
}

// Stores v at word i.
pub fn set_word(mem: &mut [u8], i: usize, v: u16)
    requires { 2 * i + 1 < length mem.old }
    ensures { mem.new ≡ set (set mem.old (2 * i) (v % 256)) (2 * i + 1) (v / 256) }
{
    [mem[2 * i], mem[2 * i + 1]] = v.to_le_bytes();
}
