//! Whatever fails, each write that is open has its intent marked on every leg that anyone may read,
//! and copying never meets a write: along every run of the machine over legs that tell their
//! contents, from an opening whose intents are marked.
#![tactic(auto)]

ghost use Rattle.laws_writes.specs.Laws.{HeadersAreSound, RunsCopyAlone, RunsCopyFreely};
ghost use Rattle.laws_writes.specs.Laws.{RunsHoldBits, RunsHoldWindows, RunsHoldWrites};
ghost use Rattle.laws_writes.specs.Laws.{RunsKeepTheIntent, RunsWriteLegally};

/// At the opening of a header no two legs differ, and none is faulty.
pub fn headers_are_sound()
    ensures { HeadersAreSound }
{}

/// At each place of each run, of each sector with two candidates: one slot of a node that is live,
/// or whose recovery is awaited, marks the sector's chunk on each leg that may be read.
pub fn runs_keep_the_intent()
    ensures { RunsKeepTheIntent }
{}

/// At each place of each run a leg on which a write in flight is done has its value, and no two
/// writes in flight are of one sector.
pub fn runs_hold_writes()
    ensures { RunsHoldWrites }
{}

/// At each place of each run each bit that a node takes to stand on a leg stands there, and a node
/// has in its set the chunk of each of its writes in flight, and each chunk that it is to copy.
pub fn runs_hold_bits()
    ensures { RunsHoldBits }
{}

/// At each place of each run an open window is in the list of each node that is up, and no write in
/// flight lies in it; and so it is with a range whose round is granted.
pub fn runs_hold_windows()
    ensures { RunsHoldWindows }
{}

/// At each place of each run one node at most holds `resync`, and no other has a pass, an open
/// window, a buffer or an open recovery.
pub fn runs_copy_alone()
    ensures { RunsCopyAlone }
{}

/// In each run each write is asked where no other is live of its sector, and ends after its start,
/// while it is live.
pub fn runs_write_legally()
    ensures { RunsWriteLegally }
{}

/// At each place of each run the sector that is copied lies in the window that its node has open,
/// and no write in flight is of it.
pub fn runs_copy_freely()
    ensures { RunsCopyFreely }
{}
