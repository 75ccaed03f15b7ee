// Ternary raster operations (ROP3). The table byte of a code gives the result bit for each combination of a pattern, a source and a
// destination bit. The other bits of a code have no effect, so there are 256 operations.
#![tactic(auto)]

ghost use Rattle.std.specs.Prelude.{◌≡◌, ℕ, ◌+◌, ◌*◌, ◌<◌};
ghost use Rattle.rop3.specs.Rop3.{bit, table_of, applied, uses_src, uses_dst};
ghost use Rattle.rop3.specs.Inner.{pick};

pub const BLACKNESS: u32 = 0x0000_0042;

pub const NOTSRCERASE: u32 = 0x0011_0000;

pub const NOTSRCCOPY: u32 = 0x0033_0008;

pub const SRCERASE: u32 = 0x0044_0328;

pub const DSTINVERT: u32 = 0x0055_0009;

pub const PATINVERT: u32 = 0x005A_0049;

pub const SRCINVERT: u32 = 0x0066_0046;

pub const SRCAND: u32 = 0x0088_00C6;

pub const MERGEPAINT: u32 = 0x00BB_0226;

pub const MERGECOPY: u32 = 0x00C0_00CA;

pub const SRCCOPY: u32 = 0x00CC_0020;

pub const SRCPAINT: u32 = 0x00EE_0086;

pub const PATCOPY: u32 = 0x00F0_0021;

pub const PATPAINT: u32 = 0x00FB_0A09;

pub const WHITENESS: u32 = 0x00FF_0062;

// The table byte of a code.
pub fn table(rop: u32) -> u8
    ensures { result ≡ table_of rop }
{
    (rop / 65536 % 256) as u8
}

// Whether a code reads the source.
pub fn uses_src(rop: u32) -> bool
    ensures { result ≡ uses_src (table_of rop) }
{
    let t = table(rop);
    (t ^ (t / 4)) & 0x33 != 0
}

// Whether a code reads the destination.
pub fn uses_dst(rop: u32) -> bool
    ensures { result ≡ uses_dst (table_of rop) }
{
    let t = table(rop);
    (t ^ (t / 2)) & 0x55 != 0
}

// A code's result for pattern, source and destination, all 16 bits at once.
pub fn apply(rop: u32, pat: u16, src: u16, dst: u16) -> u16
    ensures { result ≡ applied (table_of rop) pat src dst }
{
    apply_table(table(rop), pat, src, dst)
}

// The same for a table byte, so that a loop takes it from the code once.
pub fn apply_table(table: u8, pat: u16, src: u16, dst: u16) -> u16
    ensures { result ≡ applied table pat src dst }
{
    mux(pat, by_src(table / 16, src, dst), by_src(table, src, dst))
}

// The four entries of a table of S and D.
#[tactic(auto, using(crate::proofs::Bits::bit_digit, crate::proofs::Bits::by_s_lem))]
fn by_src(table: u8, src: u16, dst: u16) -> u16
    ensures { (n : ℕ) → n < 16 → bit result n ≡ bit table (2 * bit src n + bit dst n) }
{
    mux(src, by_dst(table / 4, dst), by_dst(table, dst))
}

// The two entries of a table of D.
#[tactic(auto, using(crate::proofs::Bits::bit_digit, crate::proofs::Bits::spread_bit, crate::proofs::Bits::by_d_lem))]
fn by_dst(table: u8, dst: u16) -> u16
    ensures { (n : ℕ) → n < 16 → bit result n ≡ bit table (bit dst n) }
{
    mux(dst, spread(table / 2 % 2), spread(table % 2))
}

// a where c is 1, and b where it is 0.
#[tactic(auto, using(crate::proofs::Bits::bit_mux))]
fn mux(c: u16, a: u16, b: u16) -> u16
    ensures { (n : ℕ) → bit result n ≡ pick (bit c n) (bit a n) (bit b n) }
{
    b ^ (c & (a ^ b))
}

// A bit sixteen times.
fn spread(b: u8) -> u16
    requires { b < 2 }
    ensures { result ≡ b * 65535 }
{
    u16::from(b) * 65535
}
