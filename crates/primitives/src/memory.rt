// The memory that surfaces lie in, 153,600 bytes: the surface, what of it is lent, and cases 10 and 18, which set them.
ghost use Rattle.std.specs.Prelude.{◌≡◌, ◌+◌, ◌*◌, ◌≤◌, length, IfSome};
ghost use Rattle.primitives.specs.Cases.{Limited, Served, Sound, Fitting};

use crate::line;
use crate::line::Reply;
use output::Line;

// The words of the memory.
pub const WORDS: usize = 76_800;

// A surface of w * h words, row after row.
#[derive(Clone, Copy)]
pub struct Sides {
    pub w: u32,
    pub h: u32,
}

// The first len bytes, lent as a surface of these sides, whatever they are.
#[derive(Clone, Copy)]
pub struct Lent {
    pub w: u32,
    pub h: u32,
    pub len: usize,
}

// What the cases leave: the surface, which begins the memory, and what the operations are lent.
#[derive(Clone, Copy)]
pub struct State {
    pub surface: Sides,
    pub lent: Lent,
}

// The state before the first case.
pub fn first() -> State
    ensures { Sound result }
{
    surface_lent(Sides { w: 1, h: 1 }, 1)
}

// The state with a surface of n words, lent whole.
fn surface_lent(surface: Sides, n: usize) -> State
    requires { Served surface × (n ≤ 76800) }
    ensures { Sound result }
{
    let lent = Lent {
        w: surface.w,
        h: surface.h,
        len: 2 * n,
    };
    State { surface, lent }
}

// Case 10: a new surface.
pub fn make(c: &[u8], mem: &mut [u8]) -> Option<(Reply, State)>
    requires { length mem.old ≡ 153600 }
    ensures { IfSome result (λ a. Fitting c.now a.0 × Sound a.1) }
{
    if c.len() < 9 {
        return None;
    }
    let sides = read_sides(c, 1);
    let n = words_in(sides);
    if n == 0 || WORDS < n {
        return None;
    }
    Some((new_surface(c, mem, n), surface_lent(sides, n)))
}

// Fills the n words of case 10; its reply.
fn new_surface(c: &[u8], mem: &mut [u8], n: usize) -> Reply
    requires in_bounds { 9 ≤ length c.now }
    requires mem_len { length mem.old ≡ 153600 }
    requires n_bound { n ≤ 76800 }
    ensures { Fitting c.now result }
{
    let seed = bigendian::read_u32(c, 5);
    fill_words(mem, n, seed);
    Reply {
        size: 9,
        line: with_crc(line::start(0x10), mem, 2 * n),
    }
}

// Case 18: other bytes and sides are lent.
pub fn lend(c: &[u8], mem: &[u8], state: State) -> Option<(Reply, State)>
    requires mem_len { length mem.now ≡ 153600 }
    requires sound { Sound state }
    ensures { IfSome result (λ a. Fitting c.now a.0 × Sound a.1) }
{
    if c.len() < 13 {
        return None;
    }
    let w = bigendian::read_u32(c, 1);
    let h = bigendian::read_u32(c, 5);
    let len = bigendian::read_u32(c, 9) as usize;
    if 2 * WORDS < len {
        return None;
    }
    let line = with_crc(line::start(0x18), mem, len);
    let lent = Lent { w, h, len };
    Some((Reply { size: 13, line }, State { lent, ..state }))
}

// The sides of 16 bits each from `at` on. One above 4,096 is read as 0.
pub fn read_sides(c: &[u8], at: usize) -> Sides
    requires { at + 4 ≤ length c.now }
    ensures { Limited result }
{
    let w = side(bigendian::read_u16(c, at));
    let h = side(bigendian::read_u16(c, at + 2));
    Sides { w, h }
}

// A side of at most 4,096, else 0.
fn side(n: u16) -> u32
    ensures { result ≤ 4096 }
{
    if n <= 4096 { n as u32 } else { 0 }
}

// How many words a surface has.
pub fn words_in(sides: Sides) -> usize
    requires { Limited sides }
    ensures { (result ≡ sides.w * sides.h) × (result ≤ 16777216) }
{
    (sides.w as usize) * (sides.h as usize)
}

// The line with the CRC of the first len bytes.
pub fn with_crc(l: Line, mem: &[u8], len: usize) -> Line
    requires len_bound { length l ≤ 30 }
    requires len_in_bounds { len ≤ length mem.now }
    ensures { length result ≡ length l + 9 }
{
    l.space().hex8(crc32::crc32(&mem[..len]))
}

// Fills the first n words: with 0 for the seed 0, else with the generator's words.
pub fn fill_words(mem: &mut [u8], n: usize, seed: u32)
    requires { 2 * n ≤ length mem.old }
{
    if seed == 0 {
        runs::zero_run(mem, 0, n);
    } else {
        generate_words(mem, n, seed);
    }
}

// Fills the first n words with the generator's words from a seed on.
fn generate_words(mem: &mut [u8], n: usize, seed: u32)
    requires { 2 * n ≤ length mem.old }
{
    let mut state = seed;
    for k in 0..n {
        state = step(state);
        words::set_word(mem, k, (state / 65536) as u16);
    }
}

// The generator's next number.
fn step(n: u32) -> u32 {
    (((n as u64) * 1_103_515_245 + 12_345) % 0x1_0000_0000) as u32
}
