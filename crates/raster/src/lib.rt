// Combines a run of words with a pattern under a raster table, without a source. PATCOPY and DSTINVERT have loops of their own with
// the same result.
#![tactic(auto)]

ghost use Rattle.std.specs.Prelude.{◌≡◌, ◌≤◌, ◌*◌, ◌+◌, length};
ghost use Rattle.arithmetic.specs.Interval.{between};
ghost use Rattle.words.specs.Words.{painted};
ghost use Rattle.raster.specs.Raster.{ropped};

pub const PATCOPY_TABLE: u8 = 0xF0;

const DSTINVERT_TABLE: u8 = 0x55;

// Combines pattern and destination under a table at the n words from d on. The source operand is 0.
#[tactic(auto, using(crate::proofs::Plain::pattern_ropped, crate::proofs::Plain::invert_ropped))]
pub fn rop_run(mem: &mut [u8], d: usize, n: usize, table: u8, pat: u16)
    requires { 2 * (d + n) ≤ length mem.old }
    ensures { mem.new ≡ painted (between d (d + n)) (ropped table pat (λ _. 0) mem.old) mem.old }
{
    match table {
        PATCOPY_TABLE => runs::fill_run(mem, d, n, pat),
        DSTINVERT_TABLE => runs::invert_run(mem, d, n),
        _ => combine_run(mem, d, n, table, pat),
    }
}

// The loop of rop_run for any table.
#[tactic(auto, using(runs::proofs::Runs::paint_first, runs::proofs::Runs::paint_next, runs::proofs::Runs::next_kept))]
fn combine_run(mem: &mut [u8], d: usize, n: usize, table: u8, pat: u16)
    requires { 2 * (d + n) ≤ length mem.old }
    ensures { mem.new ≡ painted (between d (d + n)) (ropped table pat (λ _. 0) mem.old) mem.old }
{
    for i in d..d + n {
        let old = words::word_at(mem, i);
        words::set_word(mem, i, rop3::apply_table(table, pat, 0, old));
    }
}
