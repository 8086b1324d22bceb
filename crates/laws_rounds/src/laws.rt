//! What holds over every list of accepted events of message rounds.
ghost use Rattle.laws_rounds.specs.Sound.{RoundsAreSound};

/// After every list of accepted events: each node that took a message got the sender and the block of
/// the last one. Each that finished its round was the sender of the last message, and each node that
/// was up at its publish, but the sender, and is up at its finish took it once and then processed it
/// once. Each that resumed had taken the last message, and was told that the round is broken exactly
/// where the sender died after its publish and before its finish. No node took a message twice, and each
/// took them in the order of their publishes. And what the calls of a sender and a receiver ask of the
/// locks `token`, `message` and `ack` holds wherever they are made.
pub fn rounds_are_sound()
    ensures { RoundsAreSound }
{}
