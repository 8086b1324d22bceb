//! What holds over every list of calls of a spread lock space.
ghost use Rattle.laws_wire.specs.First.{ReportsComeFirst};
ghost use Rattle.laws_wire.specs.Fresh.{BlocksAreTold};
ghost use Rattle.laws_wire.specs.Sound.{WiresAreSound};

/// After every list of accepted calls, whichever masters died and in whatever order the links delivered:
///
/// - The local modes of any two live nodes agree, on each resource.
/// - The calls that a master made on a resource since it took it over are accepted calls of one lock
///   space, so all that is said of a lock space holds of them. A serve answers what the lock space
///   answers, but that the block isn't told as valid before a holder of PW or EX wrote it.
/// - Each grant serves the ask, or the conversion that waits, that its node made last and that isn't
///   answered, and each Granted that is taken answers it. So each is answered at most once.
/// - What a master's calls gave a live node whose report isn't on its way agrees with no more than what
///   the node holds, where nothing held counts as NL.
/// - A master serves a resource only once no report on it of a live node is on its way.
pub fn wires_are_sound()
    ensures { WiresAreSound }
{}

/// After every list of accepted calls a serve answers what the lock space of its master's calls
/// answers, but that the block isn't told as valid where the resource was taken over from a master
/// that died, and none of the calls that its master made since then gave the block a value from PW
/// or EX.
pub fn blocks_are_told()
    ensures { BlocksAreTold }
{}

/// After every list of accepted calls, while the report of a live node is on its way to a
/// resource's master, the master has made no call of that node on the resource since it took it
/// over. So of each node the master's calls begin with those that its report tells.
pub fn reports_come_first()
    ensures { ReportsComeFirst }
{}
