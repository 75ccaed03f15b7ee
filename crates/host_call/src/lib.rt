// A call as numbers, for hosts in other languages.
#![tactic(auto)]

ghost use Rattle.std.specs.Prelude.{◌≡◌};
ghost use Rattle.host_call.specs.Call.{area_of, at_of, from_of, call_of};

use color::{Colorref, Rgb565};
use plan::{Area, Call, Point};

// A call, by its number in call scripts. Fields that the call does not use are ignored: `a` is a bitmap's or a panel's width, a
// colour, an object's handle, a setting or a raster code, `b` a height or a pen's width; `h` is a font's height too.
#[repr(C)]
#[derive(Clone, Copy, Debug, PartialEq, Eq)]
pub struct HostCall {
    pub call: u32,
    pub dc: u32,
    pub src: u32,
    pub a: u32,
    pub b: u32,
    pub x: i32,
    pub y: i32,
    pub w: i32,
    pub h: i32,
    pub src_x: i32,
    pub src_y: i32,
}

impl HostCall {
    fn area(self) -> Area
        ensures { result ≡ area_of self }
    {
        Area {
            x: self.x,
            y: self.y,
            w: self.w,
            h: self.h,
        }
    }

    fn at(self) -> Point
        ensures { result ≡ at_of self }
    {
        Point {
            x: self.x,
            y: self.y,
        }
    }

    // The point that a blit reads from.
    fn source(self) -> Point
        ensures { result ≡ from_of self }
    {
        Point {
            x: self.src_x,
            y: self.src_y,
        }
    }
}

// Returns the call that the numbers encode, None if they are no call.
#[tactic(auto, unfolding(crate::specs::Call::call_of))]
pub fn call_of(c: HostCall) -> Option<Call>
    ensures { result ≡ call_of c }
{
    let call = match c.call {
        1 => Call::CreateMemoryDc,
        2 => Call::CreateCompatibleBitmap {
            width: c.a,
            height: c.b,
        },
        3 => Call::CreateSolidBrush(Colorref(c.a)),
        4 => Call::CreatePen {
            color: Colorref(c.a),
            width: c.b,
        },
        5 => Call::CreateFont(c.h),
        6 => Call::Delete(c.a),
        7 => Call::Remove(c.a),
        8 => Call::SelectInto {
            dc: c.dc,
            object: c.a,
        },
        9 => Call::SetTextColor {
            dc: c.dc,
            color: Colorref(c.a),
        },
        10 => Call::SetTextAlign {
            dc: c.dc,
            align: c.a,
        },
        11 => Call::SetBkColor {
            dc: c.dc,
            color: Colorref(c.a),
        },
        12 if c.a <= 1 => Call::SetBkMode {
            dc: c.dc,
            transparent: c.a == 1,
        },
        13 => Call::PatternFill {
            dc: c.dc,
            area: c.area(),
            rop: c.a,
        },
        14 => Call::Rectangle {
            dc: c.dc,
            area: c.area(),
        },
        15 => Call::Text {
            dc: c.dc,
            at: c.at(),
        },
        16 => Call::PanelFill(Rgb565(u16::try_from(c.a).ok()?)),
        17 => Call::Resize {
            width: c.a,
            height: c.b,
        },
        18 => Call::Blit {
            dc: c.dc,
            area: c.area(),
            src: c.src,
            from: c.source(),
            rop: c.a,
        },
        19 => Call::MoveTo {
            dc: c.dc,
            to: c.at(),
        },
        20 => Call::LineTo {
            dc: c.dc,
            to: c.at(),
        },
        _ => return None,
    };
    Some(call)
}
