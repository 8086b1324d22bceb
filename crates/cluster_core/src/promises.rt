ghost use Rattle.cluster_core.specs.Promises.{KeepsPromises};

use crate::world::World;
use laws_promises::{headers_keep_their_promises, runs_keep_their_promises};
use leg_store::LegDev;

impl<L: LegDev> World<L> {
    /// What holds of every world, whatever was done with it, whichever transfers failed and whoever
    /// died. Any two holders of a lock agree, message rounds are sound, and an open one can go on.
    ///
    /// Where the legs tell their contents, a leg that is given up is read by nobody. Where besides
    /// the opening is sound, as that of a header is, the reads and writes are one legal history, no
    /// leg that may be read is stale, what isn't decided and what a leg missed is marked, a leg
    /// works only once it has all, and recoveries end with legs that are equal.
    pub fn promises(&self)
        ensures { KeepsPromises self.now }
    {
        self.history();
        runs_keep_their_promises();
        headers_keep_their_promises();
    }
}
