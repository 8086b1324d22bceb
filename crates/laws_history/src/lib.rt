//! What every run of the machine has at its places, whatever its events are.
#![tactic(auto)]

ghost use Rattle.laws_history.specs.Laws.{LegsKeepTelling, RunsHavePlaces};

/// A run up to any of its places is a run, and so is the rest.
#[tactic(auto, using(crate::proofs::Places::runs_cut))]
pub fn runs_have_places()
    ensures { RunsHavePlaces }
{}

/// No event changes whether a leg tells what it has.
#[tactic(auto, using(crate::proofs::Places::legs_tell))]
pub fn legs_keep_telling()
    ensures { LegsKeepTelling }
{}
