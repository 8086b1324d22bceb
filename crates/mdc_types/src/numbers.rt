ghost use Rattle.std.specs.Prelude.{◌≡◌};
ghost use Rattle.mdc_types.specs.Ranges.{holds};

/// A node of the cluster: 0 to 7 in image version 1, 0 to 15 in version 2. It is also the number of
/// the node's bitmap slot.
pub type NodeId = u8;

/// A leg of the mirror, 0 to 7: its device number and its place in the roles.
pub type LegId = u8;

/// A data sector, from 0.
pub type SectorNo = u32;

/// A chunk of the write-intent bitmap, from 0.
pub type ChunkNo = u32;

/// A page of a bitmap slot, from 0.
pub type PageNo = u32;

/// A write of one node. They count from 0 and go on after the node's death.
pub type WriteNo = u32;

/// A read of one node. They count from 0 and go on after the node's death.
pub type ReadNo = u32;

/// A sector: 512 bytes.
#[derive(Clone, Copy, PartialEq, Eq, Debug)]
pub struct Sector {
    pub bytes: [u8; 512],
}

impl Sector {
    /// 512 zero bytes.
    pub const ZERO: Sector = Sector { bytes: [0; 512] };
}

/// The sectors from `lo` up to `hi`, which is the first past them. It is empty where they are equal.
#[derive(Clone, Copy, PartialEq, Eq, Debug)]
pub struct Range {
    pub lo: SectorNo,
    pub hi: SectorNo,
}

impl Range {
    /// Whether the sector is in the range.
    pub fn holds(&self, s: SectorNo) -> bool
        ensures { result ≡ holds self.now.lo self.now.hi s }
    {
        self.lo <= s && s < self.hi
    }
}
