ghost use Rattle.leg_failure.specs.Withdrawals.{TakersHaveLegs};
ghost use Rattle.leg_failure.specs.LegsLeft.{LosersHaveLegs, ProposersHaveLegs, ChangesKeepWorking, FinishersHaveLegs, LegsAreFound, RolesAreFound};

/// Whatever a node lost, it has a leg to read from after it took roles that call a leg working.
pub fn takers_have_legs()
    ensures { TakersHaveLegs }
{}

/// A node that has a leg to read from has one after it lost a leg that isn't its last.
pub fn losers_have_legs()
    ensures { LosersHaveLegs }
{}

/// A node that has a leg to read from proposes roles that call one working.
pub fn proposers_have_legs()
    ensures { ProposersHaveLegs }
{}

/// Where the role of a leg that isn't working changes, each working leg stays so.
pub fn changes_keep_working()
    ensures { ChangesKeepWorking }
{}

/// A node that finishes a round has a leg to read from, whatever it lost since it proposed the roles, if
/// it has one just before.
pub fn finishers_have_legs()
    ensures { FinishersHaveLegs }
{}

/// A view has a leg to read from exactly where its least working leg is found.
pub fn legs_are_found()
    ensures { LegsAreFound }
{}

/// Roles call one of the eight legs working exactly where some leg works by them.
pub fn roles_are_found()
    ensures { RolesAreFound }
{}
