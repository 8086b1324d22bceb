ghost use Rattle.std.specs.Prelude.{◌≡◌, ◌<◌, ◌≤◌, ◌+◌, true, false, if◌then◌else◌};
ghost use Rattle.mdc_types.specs.Geometry.{IsGeometry, geometry_of, chunk_size_test, chunks_of, pages_of, page_of, chunk_of, chunk_start, chunk_end, nodes_of, data_offset, slot_pages, page_sector, length_of, most_chunks};

use crate::{ChunkNo, NodeId, PageNo, Range, SectorNo};
use std::marker::Model;
use thiserror::Error;

/// Why there is no such geometry: the first bound that is passed.
#[derive(Clone, Copy, PartialEq, Eq, Debug, Error)]
pub enum GeomError {
    #[error("the number of legs is not from 2 to 8")]
    Legs,
    #[error("the number of sectors is not from 1 to 131072")]
    Sectors,
    #[error("the room is below the number of sectors or over 131072")]
    Room,
    #[error("the chunk is no power of two from 1 to 1024")]
    Chunk,
    #[error("there are more chunks than bits")]
    Bits,
}

/// The sizes of an array, in sectors of 512 bytes.
#[derive(Clone, Copy)]
pub struct Geometry {
    legs: u8,
    sectors: u32,
    room: u32,
    chunk: u32,
    second: bool,
}

impl Model for Geometry {
    ghost use Rattle.mdc_types.specs.Geometry.{Sizes, IsGeometry};

    ghost Value = { Sizes };

    ghost view = { λ g. record { legs = g.legs; sectors = g.sectors; room = g.room; chunk = g.chunk; second = g.second } };

    ghost invariant = { λ g. IsGeometry (record { legs = g.legs; sectors = g.sectors; room = g.room; chunk = g.chunk; second = g.second }) };

    ghost inverse = { λ v. record { legs = v.legs; sectors = v.sectors; room = v.room; chunk = v.chunk; second = v.second } };
}

fn is_chunk_size(chunk: u32) -> bool
    ensures { result ≡ chunk_size_test chunk }
{
    matches!(chunk, 1 | 2 | 4 | 8 | 16 | 32 | 64 | 128 | 256 | 512 | 1024)
}

impl Geometry {
    /// An array of image version 1 whose room is its size: 2 to 8 legs, 1 to 131,072 sectors, a chunk
    /// of a power of two up to 1,024 sectors, and at most 30,720 chunks.
    pub fn new(legs: u8, sectors: u32, chunk: u32) -> Result<Geometry, GeomError>
        ensures { result ≡ geometry_of legs sectors sectors chunk false }
    {
        Geometry::checked(legs, sectors, sectors, chunk, false)
    }

    /// An array of image version 1 on legs of this room, up to which it may grow. The chunks are those
    /// of the room.
    pub fn grown(legs: u8, sectors: u32, room: u32, chunk: u32) -> Result<Geometry, GeomError>
        ensures { result ≡ geometry_of legs sectors room chunk false }
    {
        Geometry::checked(legs, sectors, room, chunk, false)
    }

    /// The same of image version 2, which has sixteen slots and at most 63,488 chunks.
    pub fn second(legs: u8, sectors: u32, room: u32, chunk: u32) -> Result<Geometry, GeomError>
        ensures { result ≡ geometry_of legs sectors room chunk true }
    {
        Geometry::checked(legs, sectors, room, chunk, true)
    }

    fn checked(
        legs: u8,
        sectors: u32,
        room: u32,
        chunk: u32,
        second: bool,
    ) -> Result<Geometry, GeomError>
        ensures { result ≡ geometry_of legs sectors room chunk second }
    {
        if legs < 2 || 8 < legs {
            return Err(GeomError::Legs);
        }
        if sectors < 1 || 131_072 < sectors {
            return Err(GeomError::Sectors);
        }
        if room < sectors || 131_072 < room {
            return Err(GeomError::Room);
        }
        if !is_chunk_size(chunk) {
            return Err(GeomError::Chunk);
        }
        let most = if second { 63_488 } else { 30_720 };
        if most < room.div_ceil(chunk) {
            return Err(GeomError::Bits);
        }
        Ok(Geometry {
            legs,
            sectors,
            room,
            chunk,
            second,
        })
    }

    /// The number of legs, 2 to 8.
    pub fn legs(&self) -> u8
        ensures value { result ≡ self.now.legs }
        ensures range { (2 ≤ result) × (result ≤ 8) }
    {
        self.legs
    }

    /// The number of data sectors of the array, 1 to 131,072.
    pub fn sectors(&self) -> u32
        ensures value { result ≡ self.now.sectors }
        ensures range { (1 ≤ result) × (result ≤ self.now.room) }
    {
        self.sectors
    }

    /// The number of data sectors that each leg has room for, up to 131,072.
    pub fn room(&self) -> u32
        ensures value { result ≡ self.now.room }
        ensures range { (1 ≤ result) × (result ≤ 131072) }
        ensures sound { IsGeometry self.now }
    {
        self.room
    }

    /// The number of sectors of a chunk, a power of two up to 1,024.
    pub fn chunk(&self) -> u32
        ensures value { result ≡ self.now.chunk }
        ensures range { (1 ≤ result) × (result ≤ 1024) }
    {
        self.chunk
    }

    /// The image version, 1 or 2.
    pub fn version(&self) -> u8
        ensures { result ≡ (if self.now.second then 2 else 1) }
    {
        if self.second { 2 } else { 1 }
    }

    /// The number of nodes that there may be, and of bitmap slots: 8 or 16.
    pub fn nodes(&self) -> u8
        ensures { result ≡ nodes_of self.now }
    {
        if self.second { 16 } else { 8 }
    }

    /// The chunk of a sector.
    pub fn chunk_of(&self, s: SectorNo) -> ChunkNo
        ensures { result ≡ chunk_of self.now s }
    {
        s / self.chunk
    }

    /// The number of chunks of the room, up to 30,720 or 63,488.
    pub fn chunks(&self) -> u32
        ensures value { result ≡ chunks_of self.now }
        ensures range { (1 ≤ result) × (result ≤ most_chunks self.now) }
    {
        self.room.div_ceil(self.chunk)
    }

    /// The sectors of a chunk. The last chunk may be short.
    pub fn chunk_range(&self, c: ChunkNo) -> Range
        requires { c < chunks_of self.now }
        ensures lo { result.lo ≡ chunk_start self.now c }
        ensures hi { result.hi ≡ chunk_end self.now c }
    {
        let lo = c * self.chunk;
        Range {
            lo,
            hi: (lo + self.chunk).min(self.room),
        }
    }

    /// The number of pages of a slot that are in use.
    pub fn pages(&self) -> u32
        ensures { result ≡ pages_of self.now }
    {
        let chunks = self.chunks();
        if chunks <= 2048 {
            1
        } else {
            1 + (chunks - 2048).div_ceil(4096)
        }
    }

    /// The page of a slot that has the chunk's bit.
    pub fn page_of(&self, c: ChunkNo) -> PageNo
        ensures { result ≡ page_of c }
    {
        if c < 2048 { 0 } else { 1 + (c - 2048) / 4096 }
    }

    /// The sector of a leg where data sector 0 lies: 80 or 272.
    pub fn data_offset(&self) -> u32
        ensures { result ≡ data_offset self.now }
    {
        if self.second { 272 } else { 80 }
    }

    /// The number of pages that a slot has room for: 8 or 16.
    pub fn slot_pages(&self) -> u32
        ensures { result ≡ slot_pages self.now }
    {
        if self.second { 16 } else { 8 }
    }

    /// The sector of a leg that has this page of a node's slot.
    pub fn page_sector(&self, n: NodeId, p: PageNo) -> u32
        requires node { n < nodes_of self.now }
        requires page { p < slot_pages self.now }
        ensures value { result ≡ page_sector self.now n p }
        ensures range { result < data_offset self.now }
    {
        16 + self.slot_pages() * n as u32 + p
    }

    /// The number of sectors of a leg.
    pub fn length(&self) -> u32
        ensures { result ≡ length_of self.now }
    {
        self.data_offset() + self.room
    }
}

#[cfg(test)]
mod tests {
    use super::*;
    use std::test::Fail;

    // Legs, sectors, room, chunk and whether the image version is 2; the chunks and pages, or the error.
    const SIZES: [(u8, u32, u32, u32, bool, Result<(u32, u32), GeomError>); 19] = [
        (2, 16, 16, 4, false, Ok((4, 1))),
        (8, 131_072, 131_072, 8, false, Ok((16_384, 5))),
        (2, 16, 131_072, 8, false, Ok((16_384, 5))),
        (2, 131_072, 131_072, 4, false, Err(GeomError::Bits)),
        (2, 131_072, 131_072, 4, true, Ok((32_768, 9))),
        (2, 131_072, 131_072, 2, true, Err(GeomError::Bits)),
        (1, 16, 16, 4, false, Err(GeomError::Legs)),
        (9, 16, 16, 4, false, Err(GeomError::Legs)),
        (2, 0, 0, 4, false, Err(GeomError::Sectors)),
        (2, 131_073, 131_073, 8, false, Err(GeomError::Sectors)),
        (2, 16, 15, 4, false, Err(GeomError::Room)),
        (2, 16, 131_073, 8, false, Err(GeomError::Room)),
        (2, 16, 16, 3, false, Err(GeomError::Chunk)),
        (2, 16, 16, 2048, false, Err(GeomError::Chunk)),
        // From here on one bound more is met in each line.
        (1, 131_073, 5, 3, false, Err(GeomError::Legs)),
        (2, 131_073, 5, 3, false, Err(GeomError::Sectors)),
        (2, 131_072, 5, 3, false, Err(GeomError::Room)),
        (2, 131_072, 131_072, 3, false, Err(GeomError::Chunk)),
        (2, 131_072, 131_072, 1, false, Err(GeomError::Bits)),
    ];

    fn geometry(
        legs: u8,
        sectors: u32,
        room: u32,
        chunk: u32,
        second: bool,
    ) -> Result<Geometry, GeomError> {
        if second {
            Geometry::second(legs, sectors, room, chunk)
        } else if room == sectors {
            Geometry::new(legs, sectors, chunk)
        } else {
            Geometry::grown(legs, sectors, room, chunk)
        }
    }

    #[test]
    fn bounds(rt: HostRuntime) {
        for (line, (legs, sectors, room, chunk, second, wanted)) in SIZES.iter().enumerate() {
            let found = geometry(*legs, *sectors, *room, *chunk, *second);
            assert_eq!(rt;
                found.map(|g| (g.chunks(), g.pages())),
                *wanted,
                "line {line}"
            );
        }
    }

    #[test]
    fn places(rt: HostRuntime) -> Result<(), Fail> {
        let first = Geometry::new(2, 10, 4)?;
        let second = Geometry::second(2, 10, 12, 4)?;
        for (c, page) in [(2047, 0), (2048, 1), (6143, 1), (6144, 2)] {
            assert_eq!(rt; first.page_of(c), page, "chunk {c}");
        }
        for (n, p, sector) in [(0, 0, 16), (1, 0, 24), (0, 7, 23), (7, 7, 79)] {
            assert!(rt; n < first.nodes() && p < first.slot_pages());
            assert_eq!(rt; first.page_sector(n, p), sector, "page {p} of node {n}");
        }
        for (n, p, sector) in [(0, 0, 16), (1, 0, 32), (0, 15, 31), (15, 15, 271)] {
            assert!(rt; n < second.nodes() && p < second.slot_pages());
            assert_eq!(rt; second.page_sector(n, p), sector, "page {p} of node {n}");
        }
        assert_eq!(rt;
            (first.version(), first.data_offset(), first.length()),
            (1, 80, 90)
        );
        assert_eq!(rt;
            (second.version(), second.data_offset(), second.length()),
            (2, 272, 284)
        );
        assert!(rt; 2 < first.chunks() && 2 < second.chunks());
        assert_eq!(rt; first.chunk_of(9), 2);
        assert_eq!(rt; first.chunk_range(1), Range { lo: 4, hi: 8 });
        assert_eq!(rt; first.chunk_range(2), Range { lo: 8, hi: 10 });
        assert_eq!(rt; second.chunk_range(2), Range { lo: 8, hi: 12 });
        Ok(())
    }
}
