// The create calls, on a flat record.
#![tactic(auto)]

ghost use Rattle.std.specs.Prelude.{◌≡◌, true, length};
ghost use Rattle.gdi.specs.declared.GdiObject.TheVariants.{Dc as DcOf, Brush as BrushOf, Pen as PenOf, Font as FontOf};
ghost use Rattle.gdi.specs.Record.{default_dc};
ghost use Rattle.numbers.specs.View.{view};
ghost use Rattle.sound.specs.Sound.{object_fits};
ghost use Rattle.plan.specs.Create.{side_of, create_of, create_bitmap};
ghost use Rattle.ready.proofs.Ready.{Lent};
ghost use Rattle.plan.specs.Answer.{parts_of};
ghost use Rattle.plan.specs.Followed.{Followed, OnStore};

use color::Colorref;
use gdi::{Brush, Font, GdiObject, MAX_OBJECTS, Pen};
use numbers::{COUNT, STORE_LEN};
use plan::Answer;
use refusals::Refusal;
use surface::MAX_SIDE;

// Appends an object to the table and zeroes its pixels. Returns its handle.
#[tactic(auto, using(numbers::proofs::Seen::record_length, numbers::proofs::Seen::store_len_seen))]
fn make(numbers: &mut [u32], store: &mut [u8], object: GdiObject) -> Result<Answer, Refusal>
    requires lent { Lent numbers.old (view numbers.old).panel_len (length store.old) }
    requires object_value { object_fits object ≡ true }
    ensures { OnStore (λ n. Followed (create_of (view n) object) n) numbers store (parts_of result) }
{
    let count = numbers[COUNT] as usize;
    if count >= MAX_OBJECTS {
        return Err(Refusal::TooManyObjects);
    }
    let start = sound::start_of(numbers, count);
    let n = sound::object_bytes(object);
    if start + n > numbers[STORE_LEN] as usize {
        return Err(Refusal::TooShort);
    }
    memory::zero(store, start, n);
    let h = handles::alloc_handle(numbers);
    handles::append(numbers, h, object);
    Ok(Answer::Handle(h))
}

// A side of 0 becomes 1.
fn side_of(n: u32) -> u32
    ensures { result ≡ side_of n }
{
    n.max(1)
}

pub fn create_compatible_bitmap(
    numbers: &mut [u32],
    store: &mut [u8],
    width: u32,
    height: u32,
) -> Result<Answer, Refusal>
    requires { Lent numbers.old (view numbers.old).panel_len (length store.old) }
    ensures { OnStore (λ n. Followed (create_bitmap (view n) width height) n) numbers store (parts_of result) }
{
    if width > MAX_SIDE || height > MAX_SIDE {
        return Err(Refusal::Side);
    }
    let bitmap = gdi::new_bitmap(side_of(width), side_of(height));
    make(numbers, store, GdiObject::Bitmap(bitmap))
}

pub fn create_memory_dc(numbers: &mut [u32], store: &mut [u8]) -> Result<Answer, Refusal>
    requires { Lent numbers.old (view numbers.old).panel_len (length store.old) }
    ensures { OnStore (λ n. Followed (create_of (view n) (DcOf default_dc)) n) numbers store (parts_of result) }
{
    make(numbers, store, GdiObject::Dc(gdi::default_dc()))
}

pub fn create_solid_brush(
    numbers: &mut [u32],
    store: &mut [u8],
    color: Colorref,
) -> Result<Answer, Refusal>
    requires { Lent numbers.old (view numbers.old).panel_len (length store.old) }
    ensures { OnStore (λ n. Followed (create_of (view n) (BrushOf (record { color = color }))) n) numbers store (parts_of result) }
{
    make(numbers, store, GdiObject::Brush(Brush { color }))
}

pub fn create_pen(
    numbers: &mut [u32],
    store: &mut [u8],
    color: Colorref,
    width: u32,
) -> Result<Answer, Refusal>
    requires { Lent numbers.old (view numbers.old).panel_len (length store.old) }
    ensures { OnStore (λ n. Followed (create_of (view n) (PenOf (record { color = color; width = width }))) n) numbers store (parts_of result) }
{
    make(numbers, store, GdiObject::Pen(Pen { color, width }))
}

pub fn create_font(numbers: &mut [u32], store: &mut [u8], height: i32) -> Result<Answer, Refusal>
    requires { Lent numbers.old (view numbers.old).panel_len (length store.old) }
    ensures { OnStore (λ n. Followed (create_of (view n) (FontOf (record { height = height }))) n) numbers store (parts_of result) }
{
    make(numbers, store, GdiObject::Font(Font { height }))
}
