//! The plain history of a trace: the writes and reads of each sector with their values, and no legs,
//! locks or views.
#![tactic(auto)]

ghost use Rattle.plain_history.specs.Open.{OpenWritesAreCandidates};
ghost use Rattle.plain_history.specs.Seen.{FinishedWritesAreSeen};

mod asked;
mod checks;
mod plain;
mod values;

pub use asked::{AskedRead, AskedWrite};
pub use checks::{Checked, check, fits, is_within};
pub use plain::{Plain, PlainEnd};

/// After the end of a write, each later read of its sector in a legal trace gives that write's value, or
/// the value of a write that started after that end.
pub fn finished_writes_are_seen()
    ensures { FinishedWritesAreSeen }
{}

/// A read may give the value of each write that is open: one that started, and whose sector no end and no
/// settle decided since.
pub fn open_writes_are_candidates()
    ensures { OpenWritesAreCandidates }
{}
