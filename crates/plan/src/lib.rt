// The calls on a device and their answers. specs/ defines what each call does, as a plan that is made without reading any pixel.
#![tactic(auto)]

use color::{Colorref, Rgb565};
use gdi::GdiObject;

// The w by h pixels at x, y.
#[derive(Clone, Copy)]
pub struct Area {
    pub x: i32,
    pub y: i32,
    pub w: i32,
    pub h: i32,
}

#[derive(Clone, Copy)]
pub struct Point {
    pub x: i32,
    pub y: i32,
}

// A call on a device. Handles are numbers, and any number can be passed for one. A text's units are passed beside the call.
#[derive(Clone, Copy)]
pub enum Call {
    CreateMemoryDc,
    CreateCompatibleBitmap {
        width: u32,
        height: u32,
    },
    CreateSolidBrush(Colorref),
    CreatePen {
        color: Colorref,
        width: u32,
    },
    CreateFont(i32),
    Delete(u32),
    Remove(u32),
    SelectInto {
        dc: u32,
        object: u32,
    },
    SetTextColor {
        dc: u32,
        color: Colorref,
    },
    SetTextAlign {
        dc: u32,
        align: u32,
    },
    SetBkColor {
        dc: u32,
        color: Colorref,
    },
    SetBkMode {
        dc: u32,
        transparent: bool,
    },
    PatternFill {
        dc: u32,
        area: Area,
        rop: u32,
    },
    Rectangle {
        dc: u32,
        area: Area,
    },
    Text {
        dc: u32,
        at: Point,
    },
    PanelFill(Rgb565),
    Resize {
        width: u32,
        height: u32,
    },
    Blit {
        dc: u32,
        area: Area,
        src: u32,
        from: Point,
        rop: u32,
    },
    MoveTo {
        dc: u32,
        to: Point,
    },
    LineTo {
        dc: u32,
        to: Point,
    },
}

// What an accepted call answers.
#[derive(Clone, Copy)]
pub enum Answer {
    // The new object's handle; for a selection the handle selected before, or 0 if the call selected nothing.
    Handle(u32),
    // Whether the handle named an object: a created one, now deleted, or a stock object.
    Deleted(bool),
    // The record of the removed object.
    Removed(GdiObject),
    NotRemoved,
    // The setting's old value.
    OldColor(Colorref),
    OldAlign(u32),
    OldMode(bool),
    // The DC's old position.
    OldPosition(Point),
    // The drawing was accepted, even if it covered no pixel.
    Drawn,
    // The text's advance: 6 times its units.
    Advance(u32),
}
