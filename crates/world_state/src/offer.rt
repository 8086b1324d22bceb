use mdc_types::{Roles, Wish};

/// What a sender's round is to say.
#[derive(Clone, Copy)]
pub struct Offer {
    pub wish: Wish,
    /// The proposed roles.
    pub roles: Roles,
    /// The proposed size in sectors.
    pub size: u32,
    /// The events number that was drawn, where the wish changes the superblock.
    pub events: u64,
    /// The legs on which the proposed superblock stands, one bit each.
    pub written: u8,
}
