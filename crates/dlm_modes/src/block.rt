/// The value block of a lock resource: 64 bytes.
#[derive(Clone, Copy, PartialEq, Eq, Debug)]
pub struct Block {
    pub bytes: [u8; 64],
}

impl Block {
    /// What a resource's block holds before anything was written to it.
    pub const ZERO: Block = Block { bytes: [0; 64] };
}
