ghost use Rattle.dlm_space.specs.Sound.{CallsAreSound};
ghost use Rattle.dlm_space.specs.Orderly.{LocksAreOrderly};
ghost use Rattle.dlm_space.specs.Releasing.{LettingGoReleases};

/// After every list of accepted calls, a node holds what the last grant or conversion to it gave,
/// until its release or death; any two holders of a resource agree; those wait that asked and were not
/// served since; the block is the value of the last immediate conversion or release from PW or EX that
/// gave one, at first 64 zero bytes; and it is valid unless a holder of PW or EX died after that. Each
/// grant served the first waiting conversion, else the first waiting request, in order of asking, and
/// handed out the block exactly where that conversion, or one from NL, reads it. `ask_now` handed it
/// out exactly where it was valid, and no other call hands it out.
pub fn calls_are_sound()
    ensures { CallsAreSound }
{}

/// After every list of accepted calls each lock is orderly: nodes are below 16, holders agree, a node
/// waits once at most in each queue, one whose conversion waits holds the resource, and one whose
/// request waits holds nothing.
pub fn locks_are_orderly()
    ensures { LocksAreOrderly }
{}

/// From orderly locks on, the releases without a value of all that a node holds are accepted one after
/// another, and lead to what `release_all` leaves.
pub fn letting_go_releases()
    ensures { LettingGoReleases }
{}
