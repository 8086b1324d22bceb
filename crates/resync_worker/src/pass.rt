ghost use Rattle.std.specs.Prelude.{◌≡◌, ◌<◌, nat_lt, length, get_or, true, false, not, ◌&&◌, is_some, IsNone, IsSome, IfSome, option_map};
ghost use Rattle.dlm_modes.specs.First.{first_such};
ghost use Rattle.mdc_types.specs.Bits.{has_bit};
ghost use Rattle.mdc_types.specs.Geometry.{chunks_of, chunk_of, chunk_end};
ghost use Rattle.mdc_types.specs.Ranges.{holds};
ghost use Rattle.resync_worker.specs.Sectors.{first_chunk_in, place_in, is_edge};
ghost use Rattle.resync_worker.specs.Copying.{passing_of, next_in, first_todo, missing_of, completed_of, begun, filled, copied, settled_of, restarted, uncovered, covering_only};

use crate::Buffer;
use mdc_types::{
    ChunkNo, ChunkSet, Geometry, LegId, Range, Sector, SectorNo, has_leg, with_leg, without_leg,
};
use std::marker::Model;

/// A pass of copying: the chunks that are to be copied, the legs that it covers, the sector that was
/// reached inside a chunk, and at most one sector in a buffer.
///
/// Sets of legs have one bit for each leg. A window is a range of sectors in which nobody writes: chunks
/// are copied that begin in it, in rising order, and each from its first sector on.
///
/// Contracts see the parts, and speak of the pass that they stand for, whose sets are functions of the
/// chunk and of the leg.
#[derive(Drop)]
pub struct Pass {
    geometry: Geometry,
    todo: ChunkSet,
    covered: u8,
    reached: SectorNo,
    buffer: Option<Buffer>,
}

impl Model for Pass {
    ghost use Rattle.resync_worker.specs.Copying.{Copying, IsCopying};

    ghost Value = { Copying };

    ghost view = { λ p. record {
      sizes = p.geometry;
      todo = p.todo;
      covered = p.covered;
      reached = p.reached;
      buffer = p.buffer;
    } };

    ghost invariant = { λ p. IsCopying p.geometry p.todo p.buffer };
}

impl Pass {
    /// A pass over an array of these sizes, which copies the chunks of `todo` and covers `legs`.
    pub fn begin(g: &Geometry, todo: ChunkSet, legs: u8) -> Pass
        requires { length todo ≡ chunks_of g.now }
        ensures pass { passing_of result ≡ begun (λ c. get_or todo c false) (has_bit legs) }
        ensures sizes { result.sizes ≡ g.now }
    {
        Pass {
            geometry: *g,
            todo,
            covered: legs,
            reached: 0,
            buffer: None,
        }
    }

    /// A new pass over the same array in its place, which copies the chunks of `todo` and covers `legs`.
    pub fn again(&mut self, todo: &ChunkSet, legs: u8)
        requires { length todo.now ≡ chunks_of self.old.sizes }
        ensures pass { passing_of self.new ≡ begun (λ c. get_or todo.now c false) (has_bit legs) }
        ensures sizes { self.new.sizes ≡ self.old.sizes }
    {
        self.todo.copy_from(todo);
        self.covered = legs;
        self.restart();
    }

    /// A new pass over the same array in its place, which copies all chunks and covers `legs`.
    #[tactic(auto, using(crate::proofs::CopyingLaws::all_chunks))]
    pub fn again_all(&mut self, legs: u8)
        ensures pass { passing_of self.new ≡ begun (λ c. nat_lt c (chunks_of self.old.sizes)) (has_bit legs) }
        ensures sizes { self.new.sizes ≡ self.old.sizes }
    {
        self.todo.fill();
        self.covered = legs;
        self.restart();
    }

    /// The chunks that weren't copied. Their set's memory serves the next pass.
    pub fn end(self) -> ChunkSet
        ensures value { result ≡ self.todo }
        ensures chunks { length result ≡ chunks_of self.sizes }
    {
        let Pass {
            geometry: _,
            todo,
            covered: _,
            reached: _,
            buffer: _,
        } = self;
        todo
    }

    /// The sector that is copied next in the window. None where no chunk that is to be copied begins in
    /// the window. The window may be any range; where it ends at a multiple of the chunk or at the end of
    /// the room, the sector lies in it.
    pub fn next(&self, window: Range) -> Option<SectorNo>
        ensures value { result ≡ next_in self.now.sizes (passing_of self.now) window }
        ensures range { IfSome result (λ s. s < self.now.sizes.room) }
        ensures window { is_edge self.now.sizes window.hi ≡ true → IfSome result (λ s. holds window.lo window.hi s ≡ true) }
    {
        let c = self.first_chunk_in(window)?;
        Some(self.place_in(c))
    }

    // The first chunk that is to be copied, of those that begin in the window.
    fn first_chunk_in(&self, window: Range) -> Option<ChunkNo>
        ensures value { result ≡ first_chunk_in self.now.sizes (passing_of self.now).todo window.lo window.hi }
        ensures range { IfSome result (λ c. c < chunks_of self.now.sizes) }
        ensures size { 0 < self.now.sizes.chunk }
    {
        let c = self
            .todo
            .first_from(window.lo.div_ceil(self.geometry.chunk()))?;
        if self.geometry.chunk_range(c).lo < window.hi {
            Some(c)
        } else {
            None
        }
    }

    // Where the chunk is copied next.
    fn place_in(&self, c: ChunkNo) -> SectorNo
        requires { c < chunks_of self.now.sizes }
        ensures value { result ≡ place_in self.now.sizes self.now.reached c }
        ensures range { result < self.now.sizes.room }
    {
        let sectors = self.geometry.chunk_range(c);
        if sectors.holds(self.reached) {
            self.reached
        } else {
            sectors.lo
        }
    }

    // The chunk of a sector.
    fn chunk_of(&self, s: SectorNo) -> ChunkNo
        requires { s < self.now.sizes.room }
        ensures value { result ≡ chunk_of self.now.sizes s }
        ensures range { result < chunks_of self.now.sizes }
        ensures within { s < chunk_end self.now.sizes result }
    {
        s / self.geometry.chunk()
    }

    /// The next sector of the window was read from leg `l` with this value, and is in the buffer.
    pub fn copied_in(&mut self, window: Range, v: &Sector, l: LegId)
        requires empty { IsNone self.old.buffer }
        requires next { IsSome (next_in self.old.sizes (passing_of self.old) window) }
        requires leg { l < 8 }
        ensures pass { IfSome (next_in self.old.sizes (passing_of self.old) window) (λ s. passing_of self.new ≡ filled (passing_of self.old) s v.now l) }
        ensures sizes { self.new.sizes ≡ self.old.sizes }
    {
        match self.next(window) {
            Some(sector) => {
                self.buffer = Some(Buffer {
                    sector,
                    value: *v,
                    done: with_leg(0, l),
                });
            }
            None => unreachable!(),
        }
    }

    /// The buffer's value was written to leg `l`. Nothing changes where there is no buffer.
    pub fn copied_out(&mut self, l: LegId)
        requires { l < 8 }
        ensures pass { passing_of self.new ≡ copied (passing_of self.old) l }
        ensures sizes { self.new.sizes ≡ self.old.sizes }
    {
        if let Some(buffer) = self.buffer {
            self.buffer = Some(Buffer {
                done: with_leg(buffer.done, l),
                ..buffer
            });
        }
    }

    /// The least target that doesn't have the buffer's value. None where there is no buffer.
    pub fn missing(&self, targets: u8) -> Option<LegId>
        ensures { result ≡ missing_of (has_bit targets) (passing_of self.now).buffer }
    {
        let buffer = self.buffer?;
        first_missing(targets, buffer.done)
    }

    /// The buffer's sector is settled, and the buffer is empty. Gives the chunk that the sector completes,
    /// which is then no more to be copied. The last chunk may be short. Where there is no buffer nothing
    /// changes, and no chunk is completed.
    pub fn settled(&mut self) -> Option<ChunkNo>
        ensures told { result ≡ completed_of self.old.sizes (passing_of self.old).buffer }
        ensures range { IfSome result (λ c. c < chunks_of self.old.sizes) }
        ensures pass { passing_of self.new ≡ settled_of self.old.sizes (passing_of self.old) (passing_of self.old).buffer }
        ensures sizes { self.new.sizes ≡ self.old.sizes }
    {
        let buffer = self.buffer?;
        let c = self.chunk_of(buffer.sector);
        let past = buffer.sector + 1;
        self.buffer = None;
        if past == self.geometry.chunk_range(c).hi {
            self.todo.remove(c);
            self.reached = 0;
            Some(c)
        } else {
            self.reached = past;
            None
        }
    }

    /// The window has closed. The buffer is dropped, and a chunk that isn't completed begins again at its
    /// first sector in the next window.
    pub fn restart(&mut self)
        ensures pass { passing_of self.new ≡ restarted (passing_of self.old) }
        ensures sizes { self.new.sizes ≡ self.old.sizes }
    {
        self.reached = 0;
        self.buffer = None;
    }

    /// Leg `l` isn't covered any more.
    pub fn uncover(&mut self, l: LegId)
        requires { l < 8 }
        ensures pass { passing_of self.new ≡ uncovered (passing_of self.old) l }
        ensures sizes { self.new.sizes ≡ self.old.sizes }
    {
        self.covered = without_leg(self.covered, l);
    }

    /// Of the covered legs only those of the set stay covered.
    pub fn cover_only(&mut self, legs: u8)
        ensures pass { passing_of self.new ≡ covering_only (passing_of self.old) (has_bit legs) }
        ensures sizes { self.new.sizes ≡ self.old.sizes }
    {
        self.covered &= legs;
    }

    /// Whether the pass covers the leg.
    pub fn covers(&self, l: LegId) -> bool
        requires { l < 8 }
        ensures { result ≡ (passing_of self.now).covered l }
    {
        has_leg(self.covered, l)
    }

    /// The legs that the pass covers.
    pub fn covered(&self) -> u8
        ensures { has_bit result ≡ (passing_of self.now).covered }
    {
        self.covered
    }

    /// The first chunk that is to be copied.
    pub fn left(&self) -> Option<ChunkNo>
        ensures value { result ≡ first_todo self.now.sizes (passing_of self.now) }
        ensures range { IfSome result (λ c. c < chunks_of self.now.sizes) }
    {
        self.todo.first_from(0)
    }

    /// Whether the chunk is to be copied.
    pub fn wants(&self, c: ChunkNo) -> bool
        requires { c < chunks_of self.now.sizes }
        ensures { result ≡ (passing_of self.now).todo c }
    {
        self.todo.has(c)
    }

    /// The sector in the buffer, and its value.
    pub fn buffer(&self) -> Option<(SectorNo, Sector)>
        ensures value { result ≡ option_map (λ b. (b.sector, b.value)) (passing_of self.now).buffer }
        ensures variant { is_some result ≡ is_some (passing_of self.now).buffer }
        ensures range { IfSome result (λ b. b.0 < self.now.sizes.room) }
    {
        match self.buffer {
            Some(buffer) => Some((buffer.sector, buffer.value)),
            None => None,
        }
    }
}

// The least leg that is in the first set and not in the second.
fn first_missing(targets: u8, done: u8) -> Option<LegId>
    ensures { result ≡ first_such (λ l. has_bit targets l && not (has_bit done l)) 0 8 }
{
    for l in 0..8 {
        if has_leg(targets, l) && !has_leg(done, l) {
            return Some(l);
        }
    }
    None
}

#[cfg(test)]
mod tests {
    use super::*;
    use std::alloc::{AllocError, Global};
    use std::process::Abort;
    use std::test::Fail;

    // A pass that copies these chunks and covers leg 2.
    fn pass_over(
        rt: &impl Abort,
        alloc: Global,
        g: &Geometry,
        chunks: &[ChunkNo],
    ) -> Result<Pass, AllocError> {
        let mut todo = ChunkSet::new(alloc, g.chunks())?;
        for c in chunks {
            assert!(rt; *c < todo.chunks());
            todo.add(*c);
        }
        assert!(rt; todo.chunks() == g.chunks());
        Ok(Pass::begin(g, todo, 0b100))
    }

    // Copies the next sector of the window: the sector, and the chunk that it completes.
    fn copy(
        rt: &impl Abort,
        pass: &mut Pass,
        window: Range,
    ) -> Option<(SectorNo, Option<ChunkNo>)> {
        let s = pass.next(window)?;
        assert!(rt; pass.buffer().is_none());
        pass.copied_in(window, &Sector::ZERO, 0);
        assert_eq!(rt; pass.buffer(), Some((s, Sector::ZERO)));
        Some((s, pass.settled()))
    }

    #[test]
    fn sectors_in_turn(rt: HostRuntime) -> Result<(), Fail> {
        // Chunks of 4 sectors, the last of which has 2. The room is larger than the array.
        let g = Geometry::grown(2, 6, 10, 4)?;
        let mut pass = pass_over(&rt, rt.alloc(), &g, &[0, 2])?;
        for (lo, hi, wanted) in [
            (4, 8, None),
            (0, 0, None),
            (0, 4, Some((0, None))),
            (0, 10, Some((1, None))),
            (0, 4, Some((2, None))),
            (0, 4, Some((3, Some(0)))),
            (0, 8, None),
            (0, 10, Some((8, None))),
            (8, 10, Some((9, Some(2)))),
            (0, 10, None),
        ] {
            assert_eq!(rt;
                copy(&rt, &mut pass, Range { lo, hi }),
                wanted,
                "from {lo} up to {hi}"
            );
        }
        assert_eq!(rt; pass.left(), None);
        Ok(())
    }

    #[test]
    fn chunks_of_one_sector(rt: HostRuntime) -> Result<(), Fail> {
        let g = Geometry::new(2, 3, 1)?;
        let mut pass = pass_over(&rt, rt.alloc(), &g, &[1, 2])?;
        for (lo, hi, wanted) in [
            (0, 3, Some((1, Some(1)))),
            (0, 3, Some((2, Some(2)))),
            (0, 3, None),
        ] {
            assert_eq!(rt; copy(&rt, &mut pass, Range { lo, hi }), wanted);
        }
        Ok(())
    }

    #[test]
    fn restart_in_a_chunk(rt: HostRuntime) -> Result<(), Fail> {
        let g = Geometry::new(2, 16, 4)?;
        let window = Range { lo: 4, hi: 12 };
        let mut pass = pass_over(&rt, rt.alloc(), &g, &[2])?;
        assert_eq!(rt; copy(&rt, &mut pass, window), Some((8, None)));
        assert_eq!(rt; copy(&rt, &mut pass, window), Some((9, None)));
        assert_eq!(rt; pass.next(window), Some(10));
        pass.restart();
        assert_eq!(rt; pass.next(window), Some(8));
        assert_eq!(rt; (pass.left(), pass.covers(2)), (Some(2), true));
        pass.cover_only(0b110);
        assert_eq!(rt; pass.covered(), 0b100);
        pass.uncover(2);
        assert_eq!(rt; pass.covered(), 0);
        assert_eq!(rt; pass.end().first_from(0), Some(2));
        Ok(())
    }

    #[test]
    fn missing_legs(rt: HostRuntime) -> Result<(), Fail> {
        let g = Geometry::new(4, 16, 4)?;
        let window = Range { lo: 0, hi: 16 };
        let mut pass = pass_over(&rt, rt.alloc(), &g, &[3])?;
        // Without a buffer nothing is missing, and nothing becomes of it.
        pass.copied_out(1);
        assert_eq!(rt; (pass.missing(0b1011), pass.settled()), (None, None));
        assert!(rt; pass.buffer().is_none() && pass.next(window).is_some());
        pass.copied_in(window, &Sector::ZERO, 1);
        for (l, missing) in [(1, Some(0)), (0, Some(3)), (3, None)] {
            pass.copied_out(l);
            assert_eq!(rt; pass.missing(0b1011), missing, "after leg {l}");
        }
        Ok(())
    }
}
