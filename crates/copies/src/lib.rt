// Copies runs of words from another memory, or within one. A run is the n words from word d on; the caller guarantees that it lies
// within the memory.
#![tactic(auto)]

ghost use Rattle.std.specs.Prelude.{◌≡◌, ◌≤◌, ◌*◌, ◌+◌, ◌-◌, length};
ghost use Rattle.arithmetic.specs.Interval.{between};
ghost use Rattle.words.specs.Words.{painted, word};

// Copies the words of src from s on to the run of dst.
#[tactic(auto, using(crate::proofs::Copies::copied))]
pub fn copy_run(dst: &mut [u8], src: &[u8], d: usize, s: usize, n: usize)
    requires { (2 * (d + n) ≤ length dst.old) × (2 * (s + n) ≤ length src.now) }
    ensures { dst.new ≡ painted (between d (d + n)) (λ i. word src.now (s + (i - d))) dst.old }
{
    dst[2 * d..2 * (d + n)].copy_from_slice(&src[2 * s..2 * (s + n)]);
}

// Copies the words from s on to the run, both in one memory: the two may overlap, and the words are those before the call.
#[tactic(auto, using(crate::proofs::Copies::moved))]
pub fn move_run(mem: &mut [u8], d: usize, s: usize, n: usize)
    requires { (2 * (d + n) ≤ length mem.old) × (2 * (s + n) ≤ length mem.old) }
    ensures { mem.new ≡ painted (between d (d + n)) (λ i. word mem.old (s + (i - d))) mem.old }
{
    if n <= 4096 {
        move_row(mem, d, s, n);
    } else {
        mem.copy_within(2 * s..2 * (s + n), 2 * d);
    }
}

// move_run for a row of at most 4,096 words, through a buffer: the compiler makes block moves of it. copy_within is a loop in place,
// and takes up to twice as long for long rows.
fn move_row(mem: &mut [u8], d: usize, s: usize, n: usize)
    requires { (n ≤ 4096) × ((2 * (d + n) ≤ length mem.old) × (2 * (s + n) ≤ length mem.old)) }
    ensures { mem.new ≡ painted (between d (d + n)) (λ i. word mem.old (s + (i - d))) mem.old }
{
    let mut row = [0u8; 8192];
    copy_run(&mut row, mem, 0, s, n);
    copy_run(mem, &row, d, 0, n);
}
