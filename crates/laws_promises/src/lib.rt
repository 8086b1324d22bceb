//! What the mirror promises, in one law of all runs of the machine.
#![tactic(auto)]

ghost use Rattle.laws_promises.specs.Laws.{HeadersKeepTheirPromises, RunsKeepTheirPromises};

use laws_locks::{calls_are_made, open_rounds_go_on, rounds_follow};

/// Each run from an opening, whatever its events are, whichever transfers fail and whoever dies:
/// its calls on the locks are accepted calls of a lock space, any two holders of which agree; its
/// rounds are message rounds, which nobody takes for whole where the sender died; an open round
/// can go on; and each node that is in has a leg to read from.
///
/// Where the legs tell their contents, a leg that is given up is read by nobody, and each leg has
/// a superblock of the array, and pages of slots that are in the grammar.
///
/// Where besides what legs lack is marked at the opening, the reads and writes of each sector are
/// one legal history: a read gives the value of the last write that ended, or of one that is open
/// still. And at each place of the run: no leg that may be read is stale, a sector that isn't
/// decided has its intent marked, and so has what a faulty leg missed; a leg isn't made to work
/// before it has a value to be read everywhere; where a recovery may end, all that it found, or that
/// its slot had marked when it became pending, is equal on all legs, save under later open writes;
/// and no node falls behind a size that an up node was sure of.
pub fn runs_keep_their_promises()
    ensures { RunsKeepTheirPromises }
{
    calls_are_made();
    rounds_follow();
    open_rounds_go_on();
}

/// Each run from the opening of a header, over legs that tell their contents, has all of this:
/// such an opening is sound.
pub fn headers_keep_their_promises()
    ensures { HeadersKeepTheirPromises }
{}
