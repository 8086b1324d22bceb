ghost use Rattle.msg_rounds.specs.Made.{RoundsMakeCalls};

/// What each call of a round does to the locks is what a short list of calls on the lock space does,
/// each of which is accepted in its turn wherever the node has the locks that its phases name.
pub fn rounds_make_calls()
    ensures { RoundsMakeCalls }
{}
