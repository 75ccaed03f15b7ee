// The CRC-32 of zlib and PNG.
#![tactic(auto)]

ghost use Rattle.std.specs.Prelude.{◌≡◌};
ghost use Rattle.crc32.specs.Crc32.{bit_step, byte_step, crc32};

// The polynomial, lowest power in the highest bit.
const POLYNOMIAL: u32 = 0xEDB8_8320;

// One shift of the register.
#[tactic(auto, unfolding(crate::specs::Crc32::bit_step))]
fn step_bit(c: u32) -> u32
    ensures { result ≡ bit_step c }
{
    (c / 2) ^ (c % 2 * POLYNOMIAL)
}

// Adds a byte to the register, and shifts it eight times.
#[tactic(auto, using(crate::proofs::Steps::one_shift, crate::proofs::Steps::no_shift), unfolding(crate::specs::Crc32::byte_step))]
fn step_byte(c: u32, b: u8) -> u32
    ensures { result ≡ byte_step c b }
{
    let mut register = c ^ u32::from(b);
    for _ in 0u32..8 {
        register = step_bit(register);
    }
    register
}

// The checksum of the bytes.
pub fn crc32(bytes: &[u8]) -> u32
    ensures { result ≡ crc32 bytes.now }
{
    bytes.iter().copied().fold(0xFFFF_FFFF, step_byte) ^ 0xFFFF_FFFF
}
