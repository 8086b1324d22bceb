//! What a leg that is read holds may be read, and what a leg missed is marked where it will be
//! found, until it is copied: along every run of the machine over legs that tell their contents,
//! from an opening where what legs lack is marked. So each run is a legal history.
#![tactic(auto)]

ghost use Rattle.laws_recovery.specs.Laws.{RunsAddAgain, RunsAreLegal, RunsMarkWhatIsMissed};
ghost use Rattle.laws_recovery.specs.Laws.{RunsRebuild, RunsRecover, RunsServeNoStaleLeg};

/// At each place of each run a leg that an up node reads from, or that a current superblock calls
/// working, holds one of the candidates at each sector of the room.
pub fn runs_serve_no_stale_leg()
    ensures { RunsServeNoStaleLeg }
{}

/// At each place of each run, where an up node's roles or a current superblock call a leg faulty
/// and it holds none of the candidates of a sector: one slot marks the sector's chunk on each leg
/// that may be read.
pub fn runs_mark_what_is_missed()
    ensures { RunsMarkWhatIsMissed }
{}

/// In each run each read gives a candidate of its sector and was asked before, each sector is
/// settled to a candidate, and each write is asked where no other is live of its sector, and ends
/// after its start, while it is live.
pub fn runs_are_legal()
    ensures { RunsAreLegal }
{}

/// At each place of each run, of a leg that a pass covers: it holds a candidate at each sector
/// that was settled of the chunk that is being copied, and at each sector of a chunk that isn't to
/// be copied any more, unless a slot that waits for its recovery marks the chunk on each leg that
/// may be read, or an open recovery has found it. A leg that is to work holds one at each sector,
/// from the offer on. What is in a pass's buffer is a candidate of its sector.
pub fn runs_rebuild()
    ensures { RunsRebuild }
{}

/// At each place of each run, of a leg that is added again and a sector at which it is stale: one
/// slot marks the chunk on each leg that works by the roles that were agreed on last. The chunk was
/// gathered; or the slot's page with it is still to be gathered; or the slot waits for its
/// recovery, and marks it on each leg that is written by these roles too; or an open recovery has
/// found it, and its node is to copy it.
pub fn runs_add_again()
    ensures { RunsAddAgain }
{}

/// At each place of each run the slot of an open recovery waits for it, and the node is its heir.
/// Each chunk that the recovery has found is in its node's set and is to be copied, or each of its
/// sectors was settled since the recovery began.
pub fn runs_recover()
    ensures { RunsRecover }
{}
