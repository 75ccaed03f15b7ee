// Fields of bits in lent bytes, most significant bit first, at any bit. Callers prove that a field lies within the bytes.
#![tactic(auto)]

ghost use Rattle.std.specs.Prelude.{◌++◌, ◌≡◌, ◌+◌, ◌*◌, ◌%◌, ◌≤◌, ◌<◌, ◌^◌, length, drop};
ghost use Rattle.words.specs.Parts.{part, with_part};
ghost use Rattle.bits.specs.Bits.{field, fields, number_of, numbers_in, bits_of, filling, total, equal};
ghost use Rattle.bits.specs.Inner.{FieldFits, FieldsFit};

// Returns the n low bits of v.
fn low_bits(v: u32, n: u32) -> u32
    requires { n < 32 }
    ensures { result ≡ v % 2 ^ n }
{
    v & ((1 << n) - 1)
}

// Returns how many of the n bits from `at` on lie in the byte of the first.
fn share(at: usize, n: u32) -> u32
    ensures { (result ≤ n) × ((at % 8 + result ≤ 8) × (0 < n → 0 < result)) }
{
    n.min(8 - (at % 8) as u32)
}

// Returns the number in the n bits from `at` on, which lie in one byte.
fn bits_at(s: &[u8], at: usize, n: u32) -> u32
    requires { (at < 8 * length s.now) × (at % 8 + n ≤ 8) }
    ensures { result ≡ number_of (part (bits_of s.now) at n) }
{
    let byte = u32::from(s[at / 8]);
    low_bits(byte >> (8 - (at % 8) as u32 - n), n)
}

// Puts the n low bits of v into the n bits from `at` on, which lie in one byte.
fn put_bits(out: &mut [u8], at: usize, n: u32, v: u32)
    requires { (at < 8 * length out.old) × (at % 8 + n ≤ 8) }
    ensures { bits_of out.new ≡ with_part (bits_of out.old) at n (field n v) }
{
    let behind = 8 - (at % 8) as u32 - n;
    let byte = u32::from(out[at / 8]);
    let high = (byte >> behind >> n << n) + low_bits(v, n);
    out[at / 8] = ((high << behind) + low_bits(byte, behind)) as u8;
}

// Returns the number in the n bits from `at` on.
pub fn field_at(s: &[u8], at: usize, n: u32) -> u32
    requires { FieldFits s.now at n }
    ensures { result ≡ number_of (part (bits_of s.now) at n) }
{
    let mut r: u32 = 0;
    let mut k: u32 = 0;
    // Each part ends with its byte, so k grows by different widths.
    while k < n {
        let p = at + k as usize;
        let m = share(p, n - k);
        r = (r << m) + bits_at(s, p, m);
        k += m;
    }
    r
}

// Puts the n low bits of v into the n bits from `at` on.
pub fn put_field(out: &mut [u8], at: usize, n: u32, v: u32)
    requires { FieldFits out.old at n }
    ensures { bits_of out.new ≡ with_part (bits_of out.old) at n (field n v) }
{
    let mut p = at;
    let mut k = n;
    // Each part ends with its byte, so k falls by different widths.
    while 0 < k {
        let m = share(p, k);
        k -= m;
        put_bits(out, p, m, v >> k);
        p += m as usize;
    }
}

// Puts zeros into the bits from `at` to the end of its byte.
pub fn fill_byte(out: &mut [u8], at: usize)
    requires { (at ≤ 8 * length out.old) × (at + 8 < 2 ^ 64) }
    ensures { bits_of out.new ≡ with_part (bits_of out.old) at (filling at) (field (filling at) 0) }
{
    put_field(out, at, ((8 - at % 8) % 8) as u32, 0);
}

// Writes the values one behind the other, each in so many bits, from bit `at` on.
pub fn put_fields(out: &mut [u8], at: usize, widths: &[u32], values: &[u32])
    requires fields_fit { FieldsFit out.old at widths.now }
    requires widths_in_bounds { length widths.now ≤ length values.now }
    ensures { bits_of out.new ≡ with_part (bits_of out.old) at (total widths.now) (fields widths.now values.now) }
{
    let mut p = at;
    for (&n, &value) in widths.iter().zip(values) {
        put_field(out, p, n, value);
        p += n as usize;
    }
}

// Reads fields of these widths, from bit `at` on, into the front of `values`; the rest of `values` is kept.
pub fn read_fields(s: &[u8], at: usize, widths: &[u32], values: &mut [u32])
    requires fields_fit { FieldsFit s.now at widths.now }
    requires widths_in_bounds { length widths.now ≤ length values.old }
    ensures { values.new ≡ numbers_in widths.now (bits_of s.now) at ++ drop (length widths.now) values.old }
{
    let mut p = at;
    for (i, &n) in widths.iter().enumerate() {
        values[i] = field_at(s, p, n);
        p += n as usize;
    }
}

// Returns whether two slices have the same bytes.
#[tactic(auto, using(crate::proofs::Lists::equal_pointwise))]
pub fn is_equal(a: &[u8], b: &[u8]) -> bool
    ensures { result ≡ equal a.now b.now }
{
    a == b
}
