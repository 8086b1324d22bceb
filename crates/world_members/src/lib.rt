//! The rows of the table for members and receivers.
#![tactic(auto)]

mod changes;
mod joining;
mod leaving;
mod newest;
mod paths;
mod processing;
mod ranges;
mod receiving;
mod tables;

pub use joining::{join, load, may_join, may_load, may_up, up};
pub use leaving::{die, leave, may_die, may_leave};
pub use newest::first_untried;
pub use paths::{cut, may_cut, may_mend, mend};
pub use processing::{may_processed, processed};
pub use receiving::{drop_message, may_drop_message, may_resume, may_take, resume, take};
