// Lends a DC's pixels: the part of the panel memory or of the store that is its surface.
#![tactic(auto)]

ghost use Rattle.std.specs.Prelude.{◌≡◌, length};
ghost use Rattle.paint.specs.Memories.{memories};
ghost use Rattle.pixels.specs.Pixels.{place_of, pixels_of, pointer_at, Found};

use place::{Memory, Place};

// Returns where the pixels of a DC lie; nowhere if a drawing on it would be refused.
pub fn place_of(numbers: &[u32], panel_len: usize, store_len: usize, dc: u32) -> Place
    ensures { Found numbers.now panel_len store_len dc result }
{
    if ready::check(numbers, panel_len, store_len).is_err() {
        return Place::Nowhere;
    }
    match place::target_of(numbers, dc) {
        Ok(target) => target.site.at,
        Err(_) => Place::Nowhere,
    }
}

// Lends a DC's pixels for writing; an empty slice if a drawing on it would be refused with 9, 8, 1 or 2.
pub fn pixels_mut<'a>(
    numbers: &[u32],
    panel: &'a mut [u8],
    store: &'a mut [u8],
    dc: u32,
) -> &'a mut [u8]
    ensures result_value { result.now ≡ pixels_of numbers.now (memories panel.old store.old) dc }
    ensures place { result.ref_ptr ≡ pointer_at panel.entry.ref_ptr store.entry.ref_ptr (place_of numbers.now (length panel.old) (length store.old) dc) }
{
    let at = place_of(numbers, panel.len(), store.len(), dc);
    match at {
        Place::Nowhere => &mut panel[0..0],
        Place::At(m, p, w, h) => {
            let n = 2 * ((w as usize) * (h as usize));
            match m {
                Memory::Panel => &mut panel[p..p + n],
                Memory::Store => &mut store[p..p + n],
            }
        }
    }
}

// The same for reading.
pub fn pixels<'a>(numbers: &[u32], panel: &'a [u8], store: &'a [u8], dc: u32) -> &'a [u8]
    ensures result_value { result.now ≡ pixels_of numbers.now (memories panel.now store.now) dc }
    ensures place { result.ref_ptr ≡ pointer_at panel.entry.ref_ptr store.entry.ref_ptr (place_of numbers.now (length panel.now) (length store.now) dc) }
{
    let at = place_of(numbers, panel.len(), store.len(), dc);
    match at {
        Place::Nowhere => &panel[0..0],
        Place::At(m, p, w, h) => {
            let n = 2 * ((w as usize) * (h as usize));
            match m {
                Memory::Panel => &panel[p..p + n],
                Memory::Store => &store[p..p + n],
            }
        }
    }
}
