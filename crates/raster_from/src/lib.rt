// Combines a run of words with a pattern and a source run under a raster table. The source is in another memory or in the same one.
// SRCCOPY has loops of its own with the same result.
#![tactic(auto)]

ghost use Rattle.std.specs.Prelude.{◌≡◌, ◌≤◌, ◌*◌, ◌+◌, length};
ghost use Rattle.raster_from.specs.Inner.{run_from};

const SRCCOPY_TABLE: u8 = 0xCC;

// Combines pattern, the words of src from s on, and destination under a table at the n words of dst from d on.
#[tactic(auto, using(raster::proofs::Plain::copy_ropped))]
pub fn rop_run_from(dst: &mut [u8], src: &[u8], d: usize, s: usize, n: usize, table: u8, pat: u16)
    requires { (2 * (d + n) ≤ length dst.old) × (2 * (s + n) ≤ length src.now) }
    ensures { dst.new ≡ run_from src.now d s n table pat dst.old }
{
    if table == SRCCOPY_TABLE {
        copies::copy_run(dst, src, d, s, n);
    } else {
        combine_run_from(dst, src, d, s, n, table, pat);
    }
}

// The same with both in one memory: the two may overlap, and the source words are those before the call. A row has at most 4,096
// words.
#[tactic(auto, using(raster::proofs::Plain::copy_ropped))]
pub fn rop_run_within(mem: &mut [u8], d: usize, s: usize, n: usize, table: u8, pat: u16)
    requires { (n ≤ 4096) × ((2 * (d + n) ≤ length mem.old) × (2 * (s + n) ≤ length mem.old)) }
    ensures { mem.new ≡ run_from mem.old d s n table pat mem.old }
{
    if table == SRCCOPY_TABLE {
        copies::move_run(mem, d, s, n);
    } else {
        combine_run_within(mem, d, s, n, table, pat);
    }
}

// The loop of rop_run_from for any table.
#[tactic(auto, using(runs::proofs::Runs::paint_first, runs::proofs::Runs::paint_next, runs::proofs::Runs::next_kept))]
fn combine_run_from(dst: &mut [u8], src: &[u8], d: usize, s: usize, n: usize, table: u8, pat: u16)
    requires { (2 * (d + n) ≤ length dst.old) × (2 * (s + n) ≤ length src.now) }
    ensures { dst.new ≡ run_from src.now d s n table pat dst.old }
{
    for k in 0..n {
        let from = words::word_at(src, s + k);
        let old = words::word_at(dst, d + k);
        words::set_word(dst, d + k, rop3::apply_table(table, pat, from, old));
    }
}

// The loop of rop_run_within for any table: the source row is copied to a buffer first, an array, since the library has no heap.
fn combine_run_within(mem: &mut [u8], d: usize, s: usize, n: usize, table: u8, pat: u16)
    requires { (n ≤ 4096) × ((2 * (d + n) ≤ length mem.old) × (2 * (s + n) ≤ length mem.old)) }
    ensures { mem.new ≡ run_from mem.old d s n table pat mem.old }
{
    let mut row = [0u8; 8192];
    copies::copy_run(&mut row, mem, 0, s, n);
    combine_run_from(mem, &row, d, 0, n, table, pat);
}
