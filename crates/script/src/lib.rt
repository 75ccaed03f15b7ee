// A call script's bytes as a header and calls (docs/call-script.md).
#![tactic(auto)]

mod reader;

ghost use Rattle.std.specs.Prelude.{◌++◌, ◌≡◌, ◌≤◌, ◌<◌, ◌+◌, ◌*◌, length, drop};
ghost use Rattle.script.specs.Script.{header_of, units_in, Read};

use color::{Colorref, Rgb565};
use plan::Call;
use reader::Reader;

// `GDI1`
pub const MAGIC: u32 = 0x4744_4931;

// `GDI2`, of scripts with the calls and fields of change requests
pub const REQUESTS_MAGIC: u32 = 0x4744_4932;

// The header's bytes.
pub const HEADER: usize = 21;

// The most units that a text may have.
pub const MAX_UNITS: usize = 70_000;

// The most bytes that a load and the output of a save may have.
pub const MAX_BYTES: usize = 16_384;

#[derive(Clone, Copy, Debug, PartialEq, Eq)]
pub struct Header {
    // Whether the script has the calls and fields of change requests.
    pub requests: bool,
    pub panel_len: u32,
    pub store_len: u32,
    pub width: u32,
    pub height: u32,
    pub fill: u8,
}

// The byte that asks for the state lines. It has no arguments.
pub const LOOK: u8 = 0x7F;

// The entry at a byte of a script: a look, a call with the place of the byte after it, a load with the place and the number of its
// bytes, or a save with the length of its output and the place of the byte after it.
#[derive(Clone, Copy)]
pub enum Entry {
    Look,
    Call(Call, usize),
    Load(usize, usize),
    Save(usize, usize),
}

// The header of a script, unless it is bad.
#[tactic(auto, unfolding(crate::specs::Script::header_of))]
pub fn read_header(s: &[u8]) -> Option<Header>
    ensures { result ≡ header_of s.now }
{
    let mut r = Reader { s, at: 0 };
    let requests = match r.u32()? {
        MAGIC => false,
        REQUESTS_MAGIC => true,
        _ => return None,
    };
    Some(Header {
        requests,
        panel_len: r.u32()?,
        store_len: r.u32()?,
        width: r.u32()?,
        height: r.u32()?,
        fill: r.u8()?,
    })
}

// The look or call at a byte of a script, which has the calls of change requests or has not; none at the end of the script, or if
// the call is bad.
#[tactic(auto, unfolding(crate::specs::Script::script_call, crate::specs::Script::request_call, crate::specs::Script::call_at))]
pub fn read_call(s: &[u8], requests: bool, at: usize) -> Option<Entry>
    requires { at ≤ length s.now }
    ensures { Read s.now requests at result }
{
    let mut r = Reader { s, at };
    let call = match r.u8()? {
        1 => Call::CreateMemoryDc,
        2 => Call::CreateCompatibleBitmap {
            width: r.u32()?,
            height: r.u32()?,
        },
        3 => Call::CreateSolidBrush(Colorref(r.u32()?)),
        4 => Call::CreatePen {
            color: Colorref(r.u32()?),
            width: r.u32()?,
        },
        5 => Call::CreateFont(r.i32()?),
        6 => Call::Delete(r.u32()?),
        7 => Call::Remove(r.u32()?),
        8 => Call::SelectInto {
            dc: r.u32()?,
            object: r.u32()?,
        },
        9 => Call::SetTextColor {
            dc: r.u32()?,
            color: Colorref(r.u32()?),
        },
        10 => Call::SetTextAlign {
            dc: r.u32()?,
            align: r.u32()?,
        },
        11 => Call::SetBkColor {
            dc: r.u32()?,
            color: Colorref(r.u32()?),
        },
        12 => Call::SetBkMode {
            dc: r.u32()?,
            transparent: match r.u32()? {
                0 => false,
                1 => true,
                _ => return None,
            },
        },
        13 => Call::PatternFill {
            dc: r.u32()?,
            area: r.area()?,
            rop: r.u32()?,
        },
        14 => Call::Rectangle {
            dc: r.u32()?,
            area: r.area()?,
        },
        15 => {
            let dc = r.u32()?;
            let at = r.point()?;
            let n = r.count(MAX_UNITS)?;
            r.pass(2 * n)?;
            Call::Text { dc, at }
        }
        16 => Call::PanelFill(Rgb565(u16::try_from(r.u32()?).ok()?)),
        17 => Call::Resize {
            width: r.u32()?,
            height: r.u32()?,
        },
        18 => Call::Blit {
            dc: r.u32()?,
            area: r.area()?,
            src: r.u32()?,
            from: r.point()?,
            rop: r.u32()?,
        },
        19 if requests => Call::MoveTo {
            dc: r.u32()?,
            to: r.point()?,
        },
        20 if requests => Call::LineTo {
            dc: r.u32()?,
            to: r.point()?,
        },
        21 if requests => {
            let n = r.count(MAX_BYTES)?;
            let start = r.pass(n)?;
            return Some(Entry::Load(start, n));
        }
        22 if requests => {
            let n = r.count(MAX_BYTES)?;
            return Some(Entry::Save(n, r.at));
        }
        LOOK => return Some(Entry::Look),
        _ => return None,
    };
    Some(Entry::Call(call, r.at))
}

// Reads the n units from p on into the front of `units`; the rest of `units` is kept.
#[tactic(auto, using(crate::proofs::Units::units_next), unfolding(crate::specs::Script::units_in))]
pub fn read_units(s: &[u8], p: usize, n: usize, units: &mut [u16])
    requires n_in_bounds { p + 2 * n ≤ length s.now }
    requires n_in_bounds_2 { n ≤ length units.old }
    ensures { units.new ≡ units_in s.now p n ++ drop n units.old }
{
    for (k, unit) in units[..n].iter_mut().enumerate() {
        *unit = bigendian::read_u16(s, p + 2 * k);
    }
}
