// One glyph in ink: only the pixels of its rows' set bits are painted.
#![tactic(auto)]

ghost use Rattle.std.specs.Prelude.{◌≡◌, cond, ◌+◌, ◌*◌, ◌≤◌, ◌<◌, pos, ◌+ℤ◌, length};
ghost use Rattle.words.specs.Words.{painted};
ghost use Rattle.font.specs.Font.{ink_at};
ghost use Rattle.surface.specs.Region.{words_of};
ghost use Rattle.surface.proofs.Accepted.{InOrder};
ghost use Rattle.glyph.specs.Inner.{row_ink, bitmap_ink, Narrow, Shown};

// The coordinates from .. to of a surface's side; the first of them is skip past the start of a glyph.
#[derive(Clone, Copy, Debug, PartialEq, Eq)]
pub struct Stretch {
    pub from: u32,
    pub to: u32,
    pub skip: u32,
}

// Draws the rows of a glyph with its upper left corner at x + dx, y. Their ink is in the first five columns.
pub fn draw_glyph(
    pixels: &mut [u8],
    width: u32,
    height: u32,
    x: i32,
    dx: u32,
    y: i32,
    rows: [u8; 8],
    color: u16,
)
    requires in_order { InOrder width height (length pixels.old) }
    requires narrow { Narrow rows }
    ensures { pixels.new ≡ painted (words_of width (bitmap_ink (x +ℤ pos dx) y rows)) (λ _. color) pixels.old }
{
    let across = cut(x, dx, 5, width);
    let down = cut(y, 0, 8, height);
    let x0 = across.from as usize;
    let n = (across.to - across.from) as usize;
    let skip = across.skip as usize;
    let y0 = down.from as usize;
    let first = down.skip as usize;
    let shown = &rows[first..first + (down.to - down.from) as usize];
    for (k, row) in shown.iter().enumerate() {
        let d = (y0 + k) * width as usize + x0;
        ink_row(pixels, d, n, *row, skip, color);
    }
}

// Returns the coordinates of a side that n coordinates from x + dx on cover.
pub fn cut(x: i32, dx: u32, n: u32, side: u32) -> Stretch
    requires { n ≤ 8 }
    ensures { Shown (x +ℤ pos dx) n side result }
{
    let start = i64::from(x) + i64::from(dx);
    Stretch {
        from: clip::clamp(start, side),
        to: clip::clamp(start + i64::from(n), side),
        skip: clip::clamp(-start, 8),
    }
}

// Stores color at the n words from d on where the row has ink, from its column skip on. A row without ink is skipped; a whole row
// needs no loop.
fn ink_row(pixels: &mut [u8], d: usize, n: usize, row: u8, skip: usize, color: u16)
    requires { (2 * (d + n) ≤ length pixels.old) × (skip + n ≤ 8) }
    ensures { pixels.new ≡ painted (row_ink row skip d n) (λ _. color) pixels.old }
{
    if row == 0 {
        return;
    }
    if n == 5 && skip == 0 {
        ink_run(pixels, d, 5, row, 0, color);
    } else {
        ink_run(pixels, d, n, row, skip, color);
    }
}

// The loop of ink_row.
fn ink_run(pixels: &mut [u8], d: usize, n: usize, row: u8, skip: usize, color: u16)
    requires { (2 * (d + n) ≤ length pixels.old) × (skip + n ≤ 8) }
    ensures { pixels.new ≡ painted (row_ink row skip d n) (λ _. color) pixels.old }
{
    for k in 0..n {
        ink_word(pixels, d + k, row, skip + k, color);
    }
}

// Stores color at word i if the row has ink at its column k. The word is stored in either case, so that no branch depends on it.
fn ink_word(pixels: &mut [u8], i: usize, row: u8, k: usize, color: u16)
    requires { (2 * i + 1 < length pixels.old) × (k < 8) }
    ensures { pixels.new ≡ painted (row_ink row k i 1) (λ _. color) pixels.old }
{
    let old = words::word_at(pixels, i);
    words::set_word(pixels, i, inked_or(row, k, color, old));
}

// Returns color if the row has ink at its column k, else old.
#[tactic(auto, unfolding(font::specs::Font::ink_at))]
fn inked_or(row: u8, k: usize, color: u16, old: u16) -> u16
    requires { k < 8 }
    ensures { result ≡ cond (ink_at row k) color old }
{
    // with a shift of 8 bits the compiled loop takes longer
    if (row as usize >> (7 - k)) % 2 == 1 {
        color
    } else {
        old
    }
}
