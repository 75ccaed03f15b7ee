// Finds where a surface lies in the two memories, and which surface a DC paints, in a flat record.
#![tactic(auto)]

ghost use Rattle.std.specs.Prelude.{◌≡◌, true, ◌+◌, ◌≤◌, length};
ghost use Rattle.words.specs.Parts.{part};
ghost use Rattle.numbers.specs.Layout.{object_size, slot_size, kind_place, object_place};
ghost use Rattle.numbers.specs.Block.{at, object_of};
ghost use Rattle.numbers.specs.View.{view, is_record};
ghost use Rattle.sound.specs.Sound.{is_sound};
ghost use Rattle.place.specs.Place.{refusal_of, source_refusal_of, place_from, target_found, target_of};
ghost use Rattle.place.specs.Inner.{Located, SiteFound};

use gdi::{Dc, STOCK_DEFAULT_BITMAP, Spot};
use numbers::{BITMAP_HEIGHT, COUNT, HEIGHT, KIND, OBJECT, SLOT, SLOTS, WIDTH};
use refusals::Refusal;

// The two memories that a caller lends.
#[derive(Clone, Copy)]
pub enum Memory {
    Panel,
    Store,
}

// Where a surface lies: the memory, the byte at which its pixels begin, width and height; or nowhere.
#[derive(Clone, Copy)]
pub enum Place {
    Nowhere,
    At(Memory, usize, u32, u32),
}

// The name of a surface: the panel, or the handle of a bitmap, stock or created.
#[derive(Clone, Copy)]
pub enum SurfaceId {
    Panel,
    Bitmap(u32),
}

// Where a surface lies, and the slot of its record if it is a created bitmap.
#[derive(Clone, Copy)]
pub struct Site {
    pub at: Place,
    pub slot: Option<usize>,
}

// The surface that a DC paints, its site, and the DC's record.
#[derive(Clone, Copy)]
pub struct Target {
    pub id: SurfaceId,
    pub site: Site,
    pub dc: Dc,
}

// Why a handle paints no surface: it names no DC, or its DC has none.
#[derive(Clone, Copy, Debug, PartialEq, Eq)]
pub enum NoTarget {
    NoDc,
    NoSurface,
}

// The refusal of a drawing on it.
impl From<NoTarget> for Refusal {
    ghost from_gives = { λ why r. r ≡ refusal_of why };

    fn from(why: NoTarget) -> Refusal {
        match why {
            NoTarget::NoDc => Refusal::NoDc,
            NoTarget::NoSurface => Refusal::NoSurface,
        }
    }
}

impl NoTarget {
    // Returns the refusal of a blit from it.
    pub fn as_source(self) -> Refusal
        ensures { result ≡ source_refusal_of self }
    {
        match self {
            NoTarget::NoDc => Refusal::NoSourceDc,
            NoTarget::NoSurface => Refusal::NoSourceSurface,
        }
    }
}

// Returns the place of the object in the slot at number p, whose pixels begin at byte start of the store.
fn frame(numbers: &[u32], p: usize, start: usize) -> Place
    requires { p + slot_size ≤ length numbers.now }
    ensures { result ≡ place_from (object_of (at numbers.now (p + kind_place)) (part numbers.now (p + object_place) object_size)) start }
{
    if numbers[p + KIND] != 1 {
        return Place::Nowhere;
    }
    Place::At(
        Memory::Store,
        start,
        numbers[p + OBJECT],
        numbers[p + BITMAP_HEIGHT],
    )
}

// Returns where the created bitmap with this handle lies.
fn locate(numbers: &[u32], handle: u32) -> Site
    requires numbers_value { is_record numbers.now ≡ true }
    requires numbers_value_2 { is_sound (view numbers.now) ≡ true }
    ensures { Located (view numbers.now) handle result }
{
    let n = numbers[COUNT] as usize;
    let mut start: usize = 2;
    for i in 0..n {
        let p = SLOTS + SLOT * i;
        if numbers[p] == handle {
            return Site {
                at: frame(numbers, p, start),
                slot: Some(i),
            };
        }
        start += sound::bytes_of(numbers, p);
    }
    untabled(Place::Nowhere)
}

// Returns the site of a surface without a slot.
fn untabled(at: Place) -> Site
    ensures { result ≡ record { at = at; slot = None } }
{
    Site { at, slot: None }
}

// Returns where a surface lies.
pub fn where_is(numbers: &[u32], id: SurfaceId) -> Site
    requires numbers_value { is_record numbers.now ≡ true }
    requires numbers_value_2 { is_sound (view numbers.now) ≡ true }
    ensures { SiteFound (view numbers.now) id result }
{
    match id {
        SurfaceId::Panel => untabled(Place::At(Memory::Panel, 0, numbers[WIDTH], numbers[HEIGHT])),
        SurfaceId::Bitmap(h) => {
            if h == STOCK_DEFAULT_BITMAP {
                return untabled(Place::At(Memory::Store, 0, 1, 1));
            }
            locate(numbers, h)
        }
    }
}

// Returns the surface that a DC paints.
pub fn target_of(numbers: &[u32], dc: u32) -> Result<Target, NoTarget>
    requires numbers_value { is_record numbers.now ≡ true }
    requires numbers_value_2 { is_sound (view numbers.now) ≡ true }
    ensures { result ≡ target_of (view numbers.now) dc }
{
    match lookup::find_dc(numbers, dc) {
        Some((p, d)) => target_at(numbers, p, d),
        None => Err(NoTarget::NoDc),
    }
}

// The same for a DC that was found at p.
pub fn target_at(numbers: &[u32], p: Spot, dc: Dc) -> Result<Target, NoTarget>
    requires numbers_value { is_record numbers.now ≡ true }
    requires numbers_value_2 { is_sound (view numbers.now) ≡ true }
    ensures { result ≡ target_found (view numbers.now) (Some (p, dc)) }
{
    match p {
        Spot::Screen => {
            let id = SurfaceId::Panel;
            let site = where_is(numbers, id);
            Ok(Target { id, site, dc })
        }
        Spot::Created(_) => {
            let Some(handle) = dc.selected_bitmap else {
                return Err(NoTarget::NoSurface);
            };
            let id = SurfaceId::Bitmap(handle);
            let site = where_is(numbers, id);
            match site.at {
                Place::Nowhere => Err(NoTarget::NoSurface),
                Place::At(_, _, _, _) => Ok(Target { id, site, dc }),
            }
        }
    }
}
