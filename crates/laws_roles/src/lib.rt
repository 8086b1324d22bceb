//! Who may be read, along every run of the machine, whichever transfers fail and whoever dies in a
//! round: a leg that anyone reads is one that everyone writes, or knows to be lost. Where the legs
//! tell their contents, since a node that comes in takes the roles that it reads there.
#![tactic(auto)]

ghost use Rattle.laws_roles.specs.Laws.{RunsAreShut, RunsHaveRoles, RunsHaveSuperblocks};
ghost use Rattle.laws_roles.specs.Laws.{RunsFitAdditions, RunsKeepTheSize, RunsLeaveALeg};

/// At each place of each run, also in the midst of a round and after a broken one: a leg that an
/// up node doesn't write, and whose loss is acknowledged there, is read by nobody.
pub fn runs_are_shut()
    ensures { RunsAreShut }
{}

/// At each place of each run, of the roles of the last whole round of the superblock: each leg
/// that a node which is in, or a current superblock, calls working is one that they want written.
/// A leg that may be read, or that a pass covers, is a target of each up node, or unacked there.
/// An up node gives a leg that isn't unacked there the role that they give it, and has these roles
/// where nothing is unacked.
pub fn runs_have_roles()
    ensures { RunsHaveRoles }
{}

/// At each place of each run each leg has a superblock of the array, superblocks of one events
/// number say the same, and a superblock at least as new as the last whole round stands on some
/// leg and on each leg that is read. A node that is loaded and not yet up reads legs that one
/// calls working.
pub fn runs_have_superblocks()
    ensures { RunsHaveSuperblocks }
{}

/// No node that is in, and no superblock of the last whole round, takes the array to be smaller
/// than an up node was ever sure that it is; and each request that is accepted names a sector that
/// its node is sure of.
pub fn runs_keep_the_size()
    ensures { RunsKeepTheSize }
{}

/// At each place of each run, whether legs tell their contents or not, a leg is left to read from:
/// to each node that is in, by the roles of each offer, and by those of each superblock that
/// stands on a leg.
pub fn runs_leave_a_leg()
    ensures { RunsLeaveALeg }
{}

/// At each place of each run a node with an addition is up and has the roles of the last whole
/// round of the superblock. By these the leg that it announced is a spare, one that it removes or
/// adds again is faulty, and one that was added again rebuilds; so does each leg that a pass
/// covers.
pub fn runs_fit_additions()
    ensures { RunsFitAdditions }
{}
