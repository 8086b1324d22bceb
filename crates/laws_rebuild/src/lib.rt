//! What a pass has settled stands on the legs that it covers, in completed chunks as in those that
//! are begun: along every run of the machine over legs that tell their contents, from an opening
//! where what legs lack is marked.
#![tactic(auto)]

ghost use Rattle.laws_rebuild.specs.Laws.{RunsHoldWhatIsSettled, RunsRebuildLegs};

/// At each place of each run a leg that a pass covers holds a candidate at each sector that its
/// node settled in that pass. At a sector that was settled in the window that is open it holds the
/// same as each leg that may be read.
pub fn runs_hold_what_is_settled()
    ensures { RunsHoldWhatIsSettled }
{}

/// At each place of each run, of a leg that a pass covers: each up node writes it, or doesn't know
/// yet that all know what became of it. It holds a candidate at each sector that was settled in the
/// open window; and at each sector of a chunk that isn't to be copied any more, unless the pass
/// didn't settle it, and a slot that waits for its recovery marks the chunk on each leg that may be
/// read, or an open recovery has found it. A leg that is to work holds one at each sector of the
/// room, from the offer on.
pub fn runs_rebuild_legs()
    ensures { RunsRebuildLegs }
{}
