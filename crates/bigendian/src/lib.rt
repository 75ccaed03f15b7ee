// Numbers in a byte slice, most significant byte first; signed ones are in two's complement. The caller guarantees that the
// bytes are there: it tests the length once, and then reads number after number.
#![tactic(auto)]

ghost use Rattle.std.specs.Prelude.{◌≡◌, ◌+◌, ◌≤◌, length};
ghost use Rattle.bigendian.specs.BigEndian.{be16, be32, signed16, signed32};

// Returns the unsigned number in the two bytes from `at` on.
pub fn read_u16(s: &[u8], at: usize) -> u16
    requires { at + 2 ≤ length s.now }
    ensures { result ≡ be16 s.now at }
{
    u16::from_be_bytes([s[at], s[at + 1]])
}

// Returns the unsigned number in the four bytes from `at` on.
pub fn read_u32(s: &[u8], at: usize) -> u32
    requires { at + 4 ≤ length s.now }
    ensures { result ≡ be32 s.now at }
{
    u32::from_be_bytes([s[at], s[at + 1], s[at + 2], s[at + 3]])
}

// Returns the signed number in the two bytes from `at` on.
pub fn read_i16(s: &[u8], at: usize) -> i32
    requires { at + 2 ≤ length s.now }
    ensures { result ≡ signed16 (be16 s.now at) }
{
    i32::from(read_u16(s, at).cast_signed())
}

// Returns the signed number in the four bytes from `at` on.
pub fn read_i32(s: &[u8], at: usize) -> i32
    requires { at + 4 ≤ length s.now }
    ensures { result ≡ signed32 (be32 s.now at) }
{
    read_u32(s, at).cast_signed()
}
