//! That an open round can go on.
ghost use Rattle.laws_rounds.specs.Going.{RoundsGoOn};
ghost use Rattle.laws_rounds.specs.News.{RoundsAreTold, ToldRoundsGoOn};

/// After every list of accepted events: while a message is published and its round isn't finished, or
/// some receiver isn't idle, one of these can be done: a grant of `ack`, a grant of a conversion on
/// `message`, `ack_granted`, `finish`, `take`, `processed`, `resume`, `drop`. Each of them lowers the
/// rank, which is never more than 8 for each live node. So after no more than that many of them alone
/// no round is open. That any of them is ever done isn't claimed.
pub fn rounds_go_on()
    ensures { RoundsGoOn }
{}

/// After every list of accepted events: a granted node may be told of it at once. Where each is, from
/// the opening on, none waits for such news.
pub fn rounds_are_told()
    ensures { RoundsAreTold }
{}

/// Where no grant waits for its news, the same as `rounds_go_on` for events that tell of a grant at
/// once, with a rank of the phases alone: 2 for a published sender and 1 for a granted one; of a
/// receiver 3, 2 and 1 for taken, waiting and ready, and 4 where an idle one holds `ack` CR beside
/// another node's published sender.
pub fn told_rounds_go_on()
    ensures { ToldRoundsGoOn }
{}
