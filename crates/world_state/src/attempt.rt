use md_superblock::ArrayState;

/// What a joining node has of a leg's superblock.
#[derive(Clone, Copy)]
pub enum Attempt {
    /// The leg wasn't tried.
    Untried,
    /// It was tried, and has no superblock of this array, or couldn't be read.
    Unread,
    /// Its superblock says this.
    Loaded(ArrayState),
}
