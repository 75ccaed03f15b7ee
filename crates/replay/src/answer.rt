// A call's line: its byte, its refusal's number, its answer.
ghost use Rattle.std.specs.Prelude.{◌≤◌, length};

use crate::object;
use output::Line;
use plan::Answer;
use refusals::Refusal;
use std::io;

// Prints the line of the call of this byte, if it is shown.
pub fn show(
    rt: &impl Print,
    byte: u8,
    a: Result<Answer, Refusal>,
    requests: bool,
    shown: bool,
) -> io::Result<()> {
    if shown {
        return print(rt, byte, a, requests);
    }
    Ok(())
}

// Prints the line of the call of this byte, with the fields of change requests if they are asked for.
fn print(rt: &impl Print, byte: u8, a: Result<Answer, Refusal>, requests: bool) -> io::Result<()> {
    let l = output::empty()
        .hex2(byte)
        .space()
        .decimal(u64::from(refusal_in(a)));
    if is_answered(byte) {
        add(l.space(), byte, a, requests).print(rt)
    } else {
        l.print(rt)
    }
}

// Whether the call of this byte has an answer: every one but pattern fill, rectangle, panel fill, resize, blit, line and
// load.
fn is_answered(byte: u8) -> bool {
    !matches!(byte, 0x0D | 0x0E | 0x10 | 0x11 | 0x12 | 0x14 | 0x15)
}

// The number of the refusal, 0 if there is none.
fn refusal_in(a: Result<Answer, Refusal>) -> u32 {
    match a {
        Ok(_) => 0,
        Err(refusal) => refusal.number(),
    }
}

// Adds the answer of the call of this byte.
fn add(l: Line, byte: u8, a: Result<Answer, Refusal>, requests: bool) -> Line
    requires { length l ≤ 24 }
    ensures { length result ≤ 140 }
{
    let Ok(answer) = a else {
        return add_zero(l, byte);
    };
    match answer {
        Answer::Handle(handle) => l.hex8(handle),
        Answer::Deleted(done) => l.flag(done),
        Answer::Removed(o) => object::add(l, o, requests),
        Answer::NotRemoved => l.text(b"none"),
        Answer::OldColor(c) => l.hex8(c.0),
        Answer::OldAlign(align) => l.hex8(align),
        Answer::OldMode(transparent) => l.flag(transparent),
        Answer::OldPosition(p) => object::add_position(l, p.x, p.y),
        Answer::Drawn => l,
        Answer::Advance(n) => l.decimal(n as u64),
    }
}

// Adds what the call of this byte answers when it is refused.
fn add_zero(l: Line, byte: u8) -> Line
    requires { length l ≤ 24 }
    ensures { length result ≤ 120 }
{
    match byte {
        0x06 | 0x0C | 0x0F => l.flag(false),
        0x07 => l.text(b"none"),
        0x13 => l.text(b"0 0"),
        _ => l.hex8(0),
    }
}
