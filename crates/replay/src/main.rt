// Performs a call script (docs/call-script.md) with the proved library and prints what happened, or with the argument `ppm` writes
// the panel's picture. The library's contracts say what a call does; the functions of this program are proved to be safe and to end.
#![tactic(auto)]

mod answer;
mod object;
mod session;
mod state;
mod table;

ghost use Rattle.std.specs.Prelude.{◌≤◌};

use harness::LONGEST;
use script::Header;
use std::env::Env;
use std::io;

// The longest panel memory that the program has room for.
const MOST_PANEL: usize = 1_048_576;

// The longest store that the program has room for.
const MOST_STORE: usize = 4_194_304;

// Reads the script, and performs it.
fn main(rt: HostRuntime) -> io::Result<()> {
    let picture = is_picture_asked(&rt);
    let mut script = [0u8; LONGEST + 1];
    let n = harness::read_input(&rt, &mut script)?;
    run(&rt, &script[..n], picture)
}

// Whether the first argument is `ppm`.
fn is_picture_asked(rt: &impl Env) -> bool {
    let mut word = [0u8; 3];
    if rt.arg(1, &mut word).unwrap_or(0) < 3 {
        return false;
    }
    if word[0] != b'p' {
        return false;
    }
    if word[1] != b'p' {
        return false;
    }
    word[2] == b'm'
}

// Performs a whole script.
fn run(rt: &impl Print, s: &[u8], picture: bool) -> io::Result<()> {
    if LONGEST < s.len() {
        return output::empty().text(b"bad script").print(rt);
    }
    match script::read_header(s) {
        None => output::empty().text(b"bad script").print(rt),
        Some(h) => serve(rt, s, h, picture),
    }
}

// Performs a script with this header.
fn serve(rt: &impl Print, s: &[u8], h: Header, picture: bool) -> io::Result<()> {
    if MOST_PANEL < (h.panel_len as usize) {
        return output::empty().text(b"too large").print(rt);
    }
    if MOST_STORE < (h.store_len as usize) {
        return output::empty().text(b"too large").print(rt);
    }
    lend(rt, s, h, picture)
}

// Lends a record's numbers, and memories of the lengths that the header asks for.
fn lend(rt: &impl Print, s: &[u8], h: Header, picture: bool) -> io::Result<()>
    requires { (h.panel_len ≤ 1048576) × (h.store_len ≤ 4194304) }
{
    let mut device = [0u32; numbers::RECORD];
    let mut panel = [0u8; MOST_PANEL];
    let mut store = [0u8; MOST_STORE];
    session::on_parts(rt, s, h, picture, &mut device, &mut panel, &mut store)
}
