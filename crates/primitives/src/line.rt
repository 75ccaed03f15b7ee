// What a case prints.
ghost use Rattle.std.specs.Prelude.{◌≡◌, ◌<◌, length};

use output::Line;
use std::io;

// What a case prints, and its length in the script.
#[derive(Clone, Copy)]
pub struct Reply {
    pub size: usize,
    pub line: Line,
}

// A line that begins with a case's byte.
pub fn start(kind: u8) -> Line
    ensures { length result ≡ 2 }
{
    output::empty().hex2(kind)
}

// Prints the line with its end, if it is shown.
pub fn show(rt: &impl Print, l: Line, shown: bool) -> io::Result<()>
    requires { length l < 160 }
{
    if shown { l.print(rt) } else { Ok(()) }
}
