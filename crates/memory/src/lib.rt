// Bytes of a memory zeroed, or removed and the gap closed.
#![tactic(auto)]

ghost use Rattle.std.specs.Prelude.{◌≡◌, ◌+◌, ◌-◌, ◌≤◌, length, drop};
ghost use Rattle.std.proofs.Math.Seq.{paste};
ghost use Rattle.memory.specs.Gap.{closed_up, blanked};

// Zeroes the n bytes from p on.
pub fn zero(mem: &mut [u8], p: usize, n: usize)
    requires { p + n ≤ length mem.old }
    ensures { mem.new ≡ blanked mem.old p n }
{
    mem[p..p + n].fill(0);
}

// Moves the bytes from p + n to end + n down to p.
pub fn move_down(mem: &mut [u8], p: usize, n: usize, end: usize)
    requires { (p ≤ end) × (end + n ≤ length mem.old) }
    ensures { mem.new ≡ paste mem.old p (drop (p + n) mem.old) (end - p) }
{
    mem.copy_within(p + n..end + n, p);
}

// Removes the n bytes from p on: the bytes after them, up to used, move down, and the freed tail is zeroed.
#[tactic(auto, using(crate::proofs::Gap::closed_none, crate::proofs::Gap::moved_filled))]
pub fn close_up(mem: &mut [u8], p: usize, n: usize, used: usize)
    requires { (p + n ≤ used) × (used ≤ length mem.old) }
    ensures { mem.new ≡ closed_up 0 mem.old p n used }
{
    if n == 0 {
        return;
    }
    let end = used - n;
    move_down(mem, p, n, end);
    zero(mem, end, n);
}
