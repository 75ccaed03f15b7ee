// Settings of one DC record, lent by `&mut` or by value. The law `setting_meets` speaks of the bodies of the first four: a value is read
// and then written, where `mem::replace` would be a call.
#![tactic(auto)]

ghost use Rattle.std.specs.Prelude.{◌≡◌};
ghost use Rattle.gdi.specs.Updates.{with_text_color, with_text_align, with_bk_color, with_bk_mode};

use color::Colorref;
use gdi::Dc;

// A DC with a new setting, and the old one.
#[derive(Clone, Copy)]
pub struct Change<T> {
    pub dc: Dc,
    pub old: T,
}

// Sets the text colour; returns the old one.
pub fn set_text_color(dc: &mut Dc, color: Colorref) -> Colorref
    ensures { (result ≡ dc.old.text_color) × (dc.new ≡ with_text_color dc.old color) }
{
    let old = dc.text_color;
    dc.text_color = color;
    old
}

// Sets the text alignment; returns the old one.
pub fn set_text_align(dc: &mut Dc, align: u32) -> u32
    ensures { (result ≡ dc.old.text_align) × (dc.new ≡ with_text_align dc.old align) }
{
    let old = dc.text_align;
    dc.text_align = align;
    old
}

// Sets the background colour; returns the old one.
pub fn set_bk_color(dc: &mut Dc, color: Colorref) -> Colorref
    ensures { (result ≡ dc.old.bk_color) × (dc.new ≡ with_bk_color dc.old color) }
{
    let old = dc.bk_color;
    dc.bk_color = color;
    old
}

// Sets the background mode; returns the old one.
pub fn set_bk_mode(dc: &mut Dc, transparent: bool) -> bool
    ensures { (result ≡ dc.old.bk_transparent) × (dc.new ≡ with_bk_mode dc.old transparent) }
{
    let old = dc.bk_transparent;
    dc.bk_transparent = transparent;
    old
}

// set_text_color on a record by value.
pub fn with_text_color(mut dc: Dc, color: Colorref) -> Change<Colorref>
    ensures { (result.old ≡ dc.text_color) × (result.dc ≡ with_text_color dc color) }
{
    let old = set_text_color(&mut dc, color);
    Change { dc, old }
}

// set_text_align on a record by value.
pub fn with_text_align(mut dc: Dc, align: u32) -> Change<u32>
    ensures { (result.old ≡ dc.text_align) × (result.dc ≡ with_text_align dc align) }
{
    let old = set_text_align(&mut dc, align);
    Change { dc, old }
}

// set_bk_color on a record by value.
pub fn with_bk_color(mut dc: Dc, color: Colorref) -> Change<Colorref>
    ensures { (result.old ≡ dc.bk_color) × (result.dc ≡ with_bk_color dc color) }
{
    let old = set_bk_color(&mut dc, color);
    Change { dc, old }
}

// set_bk_mode on a record by value.
pub fn with_bk_mode(mut dc: Dc, transparent: bool) -> Change<bool>
    ensures { (result.old ≡ dc.bk_transparent) × (result.dc ≡ with_bk_mode dc transparent) }
{
    let old = set_bk_mode(&mut dc, transparent);
    Change { dc, old }
}
