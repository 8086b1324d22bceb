//! The superblock of a leg: one sector of 512 bytes, read and written exactly.
//!
//! The layout is that of md's superblock of version 1.2 (`include/uapi/linux/raid/md_p.h`): each field
//! stands where it does there. The values that are allowed, the rule for the device uuid and the
//! number of a rebuilding leg are this project's own. All numbers are unsigned and little endian, and
//! a byte that no field has is 0:
//!
//! | offset | size | field | allowed |
//! |---|---|---|---|
//! | 0 | 4 | magic | 0xa92b4efc |
//! | 4 | 4 | major version | 1 |
//! | 8 | 4 | feature map | 1 |
//! | 16 | 16 | array uuid | any |
//! | 32 | 32 | name | 1 to 31 ASCII letters, digits or `_`, then zeros |
//! | 72 | 4 | level | 1 |
//! | 80 | 8 | size in sectors | 1 to 131,072 |
//! | 92 | 4 | raid disks | 2 to 8 |
//! | 96 | 4 | bitmap offset in sectors from the superblock | 8 |
//! | 128 | 8 | data offset | 80 in image version 1, 272 in version 2 |
//! | 136 | 8 | data size: the room | from the size to 131,072 |
//! | 144 | 8 | superblock offset | 8 |
//! | 160 | 4 | device number | below raid disks |
//! | 168 | 16 | device uuid | the array uuid, its last byte replaced by the device number |
//! | 200 | 8 | events | 1 to 2^63 |
//! | 216 | 4 | checksum | that of [`sum_of`] |
//! | 220 | 4 | max_dev | 8 |
//! | 256 | 16 | eight roles of 16 bits | those of `Role::code` |
//!
//! Devices from raid disks on are spare, and at least one device works.
#![tactic(auto)]

mod faults;
mod fields;
mod identity;
mod laws;
mod layout;
mod names;
mod place;
mod reading;
mod roles;
mod superblock;
#[cfg(test)]
mod tests;
mod writing;

pub use faults::{Field, SuperFault};
pub use identity::{ArrayState, Identity};
pub use laws::{
    faults_are_exact, one_spelling, one_value, sectors_say_the_state, sectors_say_their_superblock,
    states_are_read_again, superblocks_are_spelled, what_is_written_is_read,
};
pub use layout::sum_of;
pub use names::is_name;
pub use reading::read_super;
pub use superblock::Super;
pub use writing::write_super;
