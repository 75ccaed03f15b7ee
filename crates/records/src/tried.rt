// Every call on a record, and what they are refused with.
ghost use Rattle.std.specs.Prelude.{◌≡◌, ◌≤◌, length};
ghost use Rattle.numbers.specs.Layout.{record_size};

use crate::read;
use crate::read::Case;
use color::{Colorref, Rgb565};
use gdi::{GDI_HANDLE_BASE, GDI_SCREEN_DC, STOCK_GRAY_BRUSH};
use plan::{Answer, Area, Call, Point};
use refusals::Refusal;

// The number of tries: each of the twenty calls, and blit with a second code.
const TRIES: u8 = 21;

// The units of the text.
const UNITS: [u16; 3] = [0x52, 0x41, 0x56];

// How all calls refuse a record: with 9, with 8, or with neither; or what went wrong.
pub type Verdict = Result<Option<Refusal>, Fault>;

// A refused call changed something; the calls do not agree.
#[derive(Clone, Copy)]
pub enum Fault {
    Changed,
    Divided,
}

// The CRCs of two memories.
#[derive(Clone, Copy, PartialEq, Eq)]
struct Crcs {
    panel: u32,
    store: u32,
}

// How the calls refuse a record, on memories of the lengths that are lent with it.
pub fn on_memories(numbers: &[u32], case: Case) -> Verdict
    requires numbers_len { length numbers.now ≡ record_size }
    requires panel_lent_bound { (case.panel_lent ≤ 65536) × (case.store_lent ≤ 65536) }
{
    let mut panel = [0u8; read::MOST_LENT];
    let mut store = [0u8; read::MOST_LENT];
    on_parts(numbers, case, &mut panel, &mut store)
}

// The same on the first bytes of longer memories.
fn on_parts(numbers: &[u32], case: Case, panel: &mut [u8], store: &mut [u8]) -> Verdict
    requires numbers_len { length numbers.now ≡ record_size }
    requires panel_lent_in_bounds { (case.panel_lent ≤ length panel.old) × (case.store_lent ≤ length store.old) }
{
    by_all(
        numbers,
        &mut panel[..case.panel_lent],
        &mut store[..case.store_lent],
    )
}

// How the calls refuse a record, each on a copy of it and on fresh memories.
fn by_all(numbers: &[u32], panel: &mut [u8], store: &mut [u8]) -> Verdict
    requires { length numbers.now ≡ record_size }
{
    harness::fill(panel, 0, 1);
    harness::fill(store, 0, 1);
    let was = crcs_of(panel, store);
    let first = by_one(numbers, 0, was, panel, store)?;
    for k in 1u8..TRIES {
        if by_one(numbers, k, was, panel, store)? != first {
            return Err(Fault::Divided);
        }
    }
    Ok(first)
}

// How try k refuses a copy of the record. The filled memories have these CRCs.
fn by_one(numbers: &[u32], k: u8, was: Crcs, panel: &mut [u8], store: &mut [u8]) -> Verdict
    requires { length numbers.now ≡ record_size }
{
    let mut copy = [0u32; numbers::RECORD];
    copy.copy_from_slice(numbers);
    on_copy(numbers, &mut copy, k, was, panel, store)
}

// The same on this copy.
fn on_copy(
    numbers: &[u32],
    copy: &mut [u32],
    k: u8,
    was: Crcs,
    panel: &mut [u8],
    store: &mut [u8],
) -> Verdict
    requires { length copy.old ≡ length numbers.now }
{
    harness::fill(panel, 0, 1);
    harness::fill(store, 0, 1);
    let refusal = common_refusal(perform::perform(copy, call(k), &UNITS, panel, store));
    if refusal.is_none() || was == crcs_of(panel, store) && numbers == copy {
        Ok(refusal)
    } else {
        Err(Fault::Changed)
    }
}

// The CRCs of the memories.
fn crcs_of(panel: &[u8], store: &[u8]) -> Crcs {
    Crcs {
        panel: crc32::crc32(panel),
        store: crc32::crc32(store),
    }
}

// A refusal that all calls share, 8 or 9; none for any other answer.
fn common_refusal(a: Result<Answer, Refusal>) -> Option<Refusal> {
    match a {
        Err(refusal @ (Refusal::Length | Refusal::UnsoundRecord)) => Some(refusal),
        _ => None,
    }
}

// The call of try k.
fn call(k: u8) -> Call {
    let color = Colorref(0x0012_3456);
    match k {
        0 => Call::CreateMemoryDc,
        1 => Call::CreateCompatibleBitmap {
            width: 1,
            height: 1,
        },
        2 => Call::CreateSolidBrush(color),
        3 => Call::CreatePen { color, width: 1 },
        4 => Call::CreateFont(-12),
        5 => Call::Delete(GDI_HANDLE_BASE),
        6 => Call::Remove(GDI_HANDLE_BASE),
        7..=11 => setting_call(k, GDI_SCREEN_DC, color),
        12..=18 => drawing_call(k, GDI_SCREEN_DC, GDI_HANDLE_BASE),
        _ => line_call(k, GDI_SCREEN_DC),
    }
}

// The call of try k, from 7 to 11: those that change a DC.
fn setting_call(k: u8, dc: u32, color: Colorref) -> Call {
    match k {
        7 => Call::SelectInto {
            dc,
            object: STOCK_GRAY_BRUSH,
        },
        8 => Call::SetTextColor { dc, color },
        9 => Call::SetTextAlign { dc, align: 6 },
        10 => Call::SetBkColor { dc, color },
        _ => Call::SetBkMode {
            dc,
            transparent: true,
        },
    }
}

// The call of try k, from 12 to 18: those that draw, on the screen and on what may be a DC of the record.
fn drawing_call(k: u8, dc: u32, other: u32) -> Call {
    let area = Area {
        x: -1,
        y: 0,
        w: 3,
        h: 2,
    };
    let at = Point { x: 0, y: -1 };
    match k {
        12 => Call::PatternFill {
            dc,
            area,
            rop: rop3::PATCOPY,
        },
        13 => Call::Rectangle { dc: other, area },
        14 => Call::Text { dc, at },
        15 => Call::PanelFill(Rgb565(0x1234)),
        16 => Call::Resize {
            width: 1,
            height: 1,
        },
        17 => Call::Blit {
            dc,
            area,
            src: other,
            from: at,
            rop: rop3::SRCCOPY,
        },
        _ => Call::Blit {
            dc: other,
            area,
            src: dc,
            from: at,
            rop: rop3::DSTINVERT,
        },
    }
}

// The call of try k, from 19 on: a move and a line.
fn line_call(k: u8, dc: u32) -> Call {
    let to = Point { x: 1, y: 2 };
    match k {
        19 => Call::MoveTo { dc, to },
        _ => Call::LineTo { dc, to },
    }
}
