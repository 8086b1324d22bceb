//! Slots of dead nodes that wait for their recovery: what each has to say still, and its heirs, along
//! every run of the machine over legs that tell their contents; and what holds where the recovery
//! ends; and what is read meanwhile.
#![tactic(auto)]

ghost use Rattle.laws_pending.specs.Heirs.{RunsKeepHeirs};
ghost use Rattle.laws_pending.specs.Laws.{RunsRecoverEqual};
ghost use Rattle.laws_pending.specs.Reads.{RunsReadAlike, RunsReadTheFirstLeg};

/// At each place of each run where a node may end its recovery of a slot, and at each sector of a
/// chunk that it has found there, or that the slot had marked on each leg that could be read when it
/// became pending last: all legs that the node reads from hold the same. Or a write of the sector
/// started since the slot is pending, and nothing decided the sector after that start.
pub fn runs_recover_equal()
    ensures { RunsRecoverEqual }
{}

/// At each place of each run at which some slot is pending: a read that gives a value is from the
/// least leg that works for its node. So reads aren't balanced while a recovery is awaited.
pub fn runs_read_the_first_leg()
    ensures { RunsReadTheFirstLeg }
{}

/// In each run two reads of one sector give the same value, each at a place at which some slot is
/// pending, if the same legs work for the node of the first there as for that of the second, and
/// no entry between them sends the sector to a leg, of a write or of a copy. So up nodes agree on
/// what they read while the legs differ.
pub fn runs_read_alike()
    ensures { RunsReadAlike }
{}

/// At each place of each run, of a slot that waits for its recovery, and of a chunk that a recovery of
/// it had found when it wrote one of its pages clean, or tried to, since the slot is pending: some
/// slot of its line of heirs marks the chunk on each leg that may be read, or each sector of the chunk
/// was settled since. And where a node died in a recovery, it is the heir of the slot that it
/// recovered as long as its own slot is pending.
pub fn runs_keep_heirs()
    ensures { RunsKeepHeirs }
{}
