//! What the mirror's code needs to run at all, along every run of the machine: its numbers are in
//! range, a leg is left to each node that is in, and a published message is read as it was said.
#![tactic(auto)]

ghost use Rattle.laws_sound.specs.Laws.{MessagesAreRead, OffersAreWritten, TransfersAreOnLegs};
ghost use Rattle.laws_sound.specs.Laws.{RunsAreCounted, RunsAreInRange, RunsKeepALeg};

/// At each place of each run all numbers are in range. Of the legs: a leg past the array's is a
/// spare in every view and offer, sizes are at least one where a node is in and lie within the
/// room, and events numbers rise from 1 to 2^63. Of what is in flight: sixteen writes and reads a
/// node at most, by number, of sectors of the room, and as many live writes in a chunk as its
/// bitmap counts; who isn't up, or has published that it leaves, has none. Of windows, suspended
/// ranges, passes, gatherings and recoveries: they lie within the room and the slots.
pub fn runs_are_in_range()
    ensures { RunsAreInRange }
{}

/// At each place of each run a node that is in reads from some leg, and what it offers calls
/// working each leg that works there, and so some leg.
pub fn runs_keep_a_leg()
    ensures { RunsKeepALeg }
{}

/// At each place of each run what a node offers is a message of it; where it is published, the
/// block of `message` is read as just that; and a receiver that isn't idle has heard the message
/// in the block.
pub fn messages_are_read()
    ensures { MessagesAreRead }
{}

/// Along each run a node was asked no more writes and reads than there are entries.
pub fn runs_are_counted()
    ensures { RunsAreCounted }
{}

/// At each place of each run a superblock that a node offers can be written to each leg of the
/// array.
pub fn offers_are_written()
    ensures { OffersAreWritten }
{}

/// At each place of each run the transfer of each event that is accepted there is with a leg of
/// the array, and of one of that leg's sectors.
pub fn transfers_are_on_legs()
    ensures { TransfersAreOnLegs }
{}
