//! The other locks of the mirror.
ghost use Rattle.laws_locks.specs.Laws.{NothingIsBlocked, OnlyUpNodesWork, OtherLocksHold};

/// At each place of each run: a node holds PW
/// on a slot's bitmap lock exactly where the slot is its own and it is live, or it recovers the
/// slot, and nobody else holds or asks anything there. Who recovers a slot has `resync` EX, so it
/// is one node at most; the slot is pending, and a pending slot's node is out, and so another.
/// `resync` EX is held and asked just as the node's copying says, and a node that isn't up, or
/// that offers to leave unclean, has nothing there. A loaded node holds CR on `no-new-dev`, an up
/// node CR or nothing or, while it has the token and has published nothing, EX, and then nobody
/// else holds anything there.
pub fn other_locks_hold()
    ensures { OtherLocksHold }
{}

/// At each such place no lock call that an accepted row makes at once is refused: PW on its
/// bitmap of a node that joins, and on a dead node's of one that recovers it; CR on `ack` and on
/// `no-new-dev` of who comes in, on `message` of who takes, on `ack` of who resumes, and on `no-
/// new-dev` of who processes and has nothing there; EX there of who locks the device; and the
/// conversions of a publish, and of EX on `no-new-dev` where a round is given up. And who is granted
/// a lock of the rounds is in the phase that asks it.
pub fn nothing_is_blocked()
    ensures { NothingIsBlocked }
{}

/// At each such place a node that isn't up has no write and no read in flight, copies and
/// recovers nothing, and has no chunk in its set and none to copy. And a node that has published
/// that it leaves unclean has nothing in flight.
pub fn only_up_nodes_work()
    ensures { OnlyUpNodesWork }
{}
