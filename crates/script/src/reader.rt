// Reads a script field after field, as long as the bytes are there.
ghost use Rattle.std.specs.Prelude.{◌≡◌, ◌≤◌, ◌+◌, length, slice_index};
ghost use Rattle.bigendian.specs.BigEndian.{be32, signed32};
ghost use Rattle.script.specs.Inner.{ReadsAs, CountReads};
ghost use Rattle.script.specs.Script.{point_at, area_at};

use plan::{Area, Point};

// The bytes of a script from `at` on.
#[derive(Drop)]
pub struct Reader<'a> {
    pub s: &'a [u8],
    pub at: usize,
    ghost inside: { at ≤ length s.now },
}

impl Reader<'_> {
    // Passes n bytes, and returns where they start, if they are there.
    pub fn pass(&mut self, n: usize) -> Option<usize>
        ensures same { self.new.s.now ≡ self.old.s.now }
        ensures read { ReadsAs self.old.s.now self.old.at n self.new.at result self.old.at }
    {
        let start = self.at;
        if self.s.len() - start < n {
            return None;
        }
        self.at += n;
        Some(start)
    }

    // A byte.
    pub fn u8(&mut self) -> Option<u8>
        ensures same { self.new.s.now ≡ self.old.s.now }
        ensures read { ReadsAs self.old.s.now self.old.at 1 self.new.at result (slice_index self.old.s.now self.old.at) }
    {
        let start = self.pass(1)?;
        Some(self.s[start])
    }

    // 32 bits.
    pub fn u32(&mut self) -> Option<u32>
        ensures same { self.new.s.now ≡ self.old.s.now }
        ensures read { ReadsAs self.old.s.now self.old.at 4 self.new.at result (be32 self.old.s.now self.old.at) }
    {
        let start = self.pass(4)?;
        Some(bigendian::read_u32(self.s, start))
    }

    // How many units or bytes there are, if they are at most `most`.
    pub fn count(&mut self, most: usize) -> Option<usize>
        ensures same { self.new.s.now ≡ self.old.s.now }
        ensures read { CountReads self.old.s.now self.old.at most self.new.at result }
    {
        let n = self.u32()? as usize;
        (n <= most).then_some(n)
    }

    // A signed number of 32 bits.
    pub fn i32(&mut self) -> Option<i32>
        ensures same { self.new.s.now ≡ self.old.s.now }
        ensures read { ReadsAs self.old.s.now self.old.at 4 self.new.at result (signed32 (be32 self.old.s.now self.old.at)) }
    {
        let start = self.pass(4)?;
        Some(bigendian::read_i32(self.s, start))
    }

    // The two coordinates of a point.
    #[tactic(auto, unfolding(crate::specs::Script::point_at))]
    pub fn point(&mut self) -> Option<Point>
        ensures same { self.new.s.now ≡ self.old.s.now }
        ensures read { ReadsAs self.old.s.now self.old.at 8 self.new.at result (point_at self.old.s.now self.old.at) }
    {
        Some(Point {
            x: self.i32()?,
            y: self.i32()?,
        })
    }

    // The corner of an area and its sides.
    #[tactic(auto, unfolding(crate::specs::Script::area_at))]
    pub fn area(&mut self) -> Option<Area>
        ensures same { self.new.s.now ≡ self.old.s.now }
        ensures read { ReadsAs self.old.s.now self.old.at 16 self.new.at result (area_at self.old.s.now self.old.at) }
    {
        Some(Area {
            x: self.i32()?,
            y: self.i32()?,
            w: self.i32()?,
            h: self.i32()?,
        })
    }
}
