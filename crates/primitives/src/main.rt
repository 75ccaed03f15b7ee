// Runs a list of cases (docs/primitive-cases.md) with the proved functions, and prints an answer to each or the final picture. The
// libraries' contracts say what is drawn; the functions of this program are proved to be safe and to end.
#![tactic(auto)]

mod colors;
mod drawing;
mod line;
mod memory;
mod within;

ghost use Rattle.std.specs.Prelude.{◌≡◌, ◌<◌, length, IfOk, IfSome};
ghost use Rattle.primitives.specs.Cases.{Served, Sound, Fitting};

use harness::LONGEST;
use line::Reply;
use memory::{Sides, State};
use std::io;

// `PRM2`
const MAGIC: u32 = 0x5052_4D32;

// The magic number and the mode.
const HEADER: usize = 5;

// What a script asks for.
#[derive(Clone, Copy)]
enum Mode {
    Answers,
    Picture,
}

// Reads the script and runs it.
fn main(rt: HostRuntime) -> io::Result<()> {
    let mut script = [0u8; LONGEST + 1];
    let n = harness::read_input(&rt, &mut script)?;
    run(&rt, &script[..n])
}

// Runs a whole script.
fn run(rt: &impl Print, s: &[u8]) -> io::Result<()> {
    match mode_of(s) {
        Some(Mode::Answers) => perform(rt, s, true),
        Some(Mode::Picture) => perform(rt, s, false),
        None => print_bad_script(rt),
    }
}

// What the header says, unless it is bad.
fn mode_of(s: &[u8]) -> Option<Mode> {
    if LONGEST < s.len() || s.len() < HEADER || bigendian::read_u32(s, 0) != MAGIC {
        return None;
    }
    match s[4] {
        0 => Some(Mode::Answers),
        1 => Some(Mode::Picture),
        _ => None,
    }
}

// Prints the answers if they are shown, else writes the picture after a script with no bad case.
fn perform(rt: &impl Print, s: &[u8], shown: bool) -> io::Result<()> {
    let mut mem = [0u8; 2 * memory::WORDS];
    match run_cases(rt, s, &mut mem, shown)? {
        Some(surface) if !shown => picture::write(rt, &mem, surface.w, surface.h),
        _ => Ok(()),
    }
}

// Runs case after case, and prints the answers if they are shown. Returns the surface's sides then, unless a case is bad.
fn run_cases(rt: &impl Print, s: &[u8], mem: &mut [u8], shown: bool) -> io::Result<Option<Sides>>
    requires { length mem.old ≡ 153600 }
    ensures { IfOk result (λ ended. IfSome ended (λ sides. Served sides)) }
{
    let mut at = HEADER;
    let mut state = memory::first();
    while at < s.len() {
        let Some((reply, next)) = work_out(&s[at..], mem, state) else {
            print_bad_case(rt)?;
            return Ok(None);
        };
        line::show(rt, reply.line, shown)?;
        state = next;
        at += reply.size;
    }
    Ok(Some(state.surface))
}

// The whole output for a bad script.
fn print_bad_script(rt: &impl Print) -> io::Result<()> {
    rt.write_all(b"bad script\n")
}

// The last line for a script with a bad case.
fn print_bad_case(rt: &impl Print) -> io::Result<()> {
    rt.write_all(b"bad case\n")
}

// The reply to the case at the front of c, and the state after it, unless it is bad.
fn work_out(c: &[u8], mem: &mut [u8], state: State) -> Option<(Reply, State)>
    requires c_nonzero { 0 < length c.now }
    requires mem_len { length mem.old ≡ 153600 }
    requires sound { Sound state }
    ensures { IfSome result (λ a. Fitting c.now a.0 × Sound a.1) }
{
    match c[0] {
        0x10 => memory::make(c, mem),
        0x18 => memory::lend(c, mem, state),
        kind => Some((reply(kind, c, mem, state)?, state)),
    }
}

// The reply to a case that leaves the state as it is, unless it is bad.
fn reply(kind: u8, c: &[u8], mem: &mut [u8], state: State) -> Option<Reply>
    requires mem_len { length mem.old ≡ 153600 }
    requires sound { Sound state }
    ensures { IfSome result (λ r. Fitting c.now r) }
{
    match kind {
        0x00..=0x0F => colors::work_out(kind, c),
        0x13 => within::blit_within(c, mem, state.surface),
        0x19 => within::blit_between(c, mem),
        _ => drawing::work_out(kind, c, mem, state.lent),
    }
}
