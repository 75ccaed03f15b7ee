// The part of a blit that is drawn, and where in the source its pixels are. Coordinates are summed exactly.
#![tactic(auto)]

ghost use Rattle.std.specs.Prelude.{◌≡◌};
ghost use Rattle.clip_blit.specs.Blit.{blit_axis, blit_rect};

// The coordinates from .. to of the destination, drawn from the source's src on.
#[derive(Clone, Copy, Debug, PartialEq, Eq)]
pub struct BlitSpan {
    pub from: u32,
    pub to: u32,
    pub src: u32,
}

// Columns x0 .. x1 and rows y0 .. y1 of the destination, drawn from column src_x0 and row src_y0 of the source on.
#[derive(Clone, Copy, Debug, PartialEq, Eq)]
pub struct BlitRect {
    pub x0: u32,
    pub y0: u32,
    pub x1: u32,
    pub y1: u32,
    pub src_x0: u32,
    pub src_y0: u32,
}

// Clips one axis of a blit from s to d, w long: the coordinates that are drawn, and the source coordinate of the first.
pub fn clip_blit_axis(d: i32, s: i32, w: i32, dst_side: u32, src_side: u32) -> BlitSpan
    ensures { result ≡ blit_axis d s w dst_side src_side }
{
    let cut = clip::clip_axis(s, w, src_side);
    // the destination less the source; both ends of the source's part move by it
    let shift = i64::from(d) - i64::from(s);
    let from = clip::clamp(i64::from(cut.from) + shift, dst_side);
    let to = clip::clamp(i64::from(cut.to) + shift, dst_side);
    if from < to {
        let src = (i64::from(from) - shift) as u32;
        BlitSpan { from, to, src }
    } else {
        BlitSpan {
            from: 0,
            to: 0,
            src: 0,
        }
    }
}

// Clips a blit of a box: the columns and rows that are drawn, and the source coordinates of the first column and row.
// Ten numbers and not a struct for each axis: the signature of this exported function stays.
pub fn clip_blit(
    dx: i32,
    dy: i32,
    sx: i32,
    sy: i32,
    w: i32,
    h: i32,
    dst_w: u32,
    dst_h: u32,
    src_w: u32,
    src_h: u32,
) -> BlitRect
    ensures { result ≡ blit_rect dx dy sx sy w h dst_w dst_h src_w src_h }
{
    let columns = clip_blit_axis(dx, sx, w, dst_w, src_w);
    let rows = clip_blit_axis(dy, sy, h, dst_h, src_h);
    BlitRect {
        x0: columns.from,
        y0: rows.from,
        x1: columns.to,
        y1: rows.to,
        src_x0: columns.src,
        src_y0: rows.src,
    }
}
