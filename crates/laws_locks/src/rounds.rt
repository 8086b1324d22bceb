//! The message rounds of the mirror's runs.
ghost use Rattle.laws_locks.specs.Going.{OpenRoundsGoOn};
ghost use Rattle.laws_locks.specs.Laws.{RoundsFollow};

use laws_rounds::told_rounds_go_on;

/// Each run of the mirror follows the message rounds: the rounds' events of its entries are
/// accepted in their turn, and lead to the phases and the three locks that the mirror then has.
/// So all that holds of message rounds holds of it: who takes gets the last message, who finishes
/// was the sender of the last message and all others that were up have processed it once, who
/// resumes is told rightly whether the round is whole. Since each node is told of its grant at
/// once, an open round can go on, and each event that brings it nearer to its end lowers a rank
/// that its phases give. And so the phases of its nodes say what they hold and ask on `token`,
/// `message` and `ack`; one node at most has the token; who sends doesn't receive; a loaded node
/// offers `meta` alone; and the block of `message` is that of the offer that is published.
pub fn rounds_follow()
    ensures { RoundsFollow }
{
    told_rounds_go_on();
}

/// At each place of each run, while a sender is published or granted, or a receiver isn't idle:
/// one of these is accepted: a grant of `ack`, a grant of a conversion on `message`, `finish`,
/// `take`, `processed`, `resume`, `drop`; or a live receiver's `processed` is refused for a write
/// alone that it has in flight in the range that it hears of. Each step by one of these events
/// lowers the rank of the rounds, which is never more than 8 for each live node. So after no more
/// than that many of them no round is open, if nothing else happens. That any of them is ever done,
/// or a write ever ends, isn't claimed.
pub fn open_rounds_go_on()
    ensures { OpenRoundsGoOn }
{}
