// Fills, zeroes and inverts a run of words: the loops over one row under every drawing. A run is the n words from word d on; the
// caller guarantees that it lies within the memory.
#![tactic(auto)]

ghost use Rattle.std.specs.Prelude.{◌≡◌, ◌≤◌, ◌*◌, ◌+◌, ◌-◌, length};
ghost use Rattle.arithmetic.specs.Interval.{between};
ghost use Rattle.words.specs.Words.{painted, word};

// Stores v at each word of the run.
#[tactic(auto, using(crate::proofs::Runs::paint_first, crate::proofs::Runs::paint_next))]
pub fn fill_run(mem: &mut [u8], d: usize, n: usize, v: u16)
    requires { 2 * (d + n) ≤ length mem.old }
    ensures { mem.new ≡ painted (between d (d + n)) (λ _. v) mem.old }
{
    for k in 0..n {
        words::set_word(mem, d + k, v);
    }
}

// Stores 0 at each word of the run.
pub fn zero_run(mem: &mut [u8], d: usize, n: usize)
    requires { 2 * (d + n) ≤ length mem.old }
    ensures { mem.new ≡ painted (between d (d + n)) (λ _. 0) mem.old }
{
    fill_run(mem, d, n, 0);
}

// Inverts each bit of the run.
#[tactic(auto, using(crate::proofs::Runs::paint_first, crate::proofs::Runs::paint_next, crate::proofs::Runs::next_kept))]
pub fn invert_run(mem: &mut [u8], d: usize, n: usize)
    requires { 2 * (d + n) ≤ length mem.old }
    ensures { mem.new ≡ painted (between d (d + n)) (λ i. 65535 - word mem.old i) mem.old }
{
    for i in d..d + n {
        words::set_word(mem, i, !words::word_at(mem, i));
    }
}
