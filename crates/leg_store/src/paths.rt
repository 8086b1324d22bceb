ghost use Rattle.std.specs.Prelude.{◌≡◌, length, slice_set, ◌<◌};
ghost use Rattle.leg_store.specs.Paths.{path_open, all_open, cut_path, mend_path};

use mdc_types::{LegId, NodeId};
use std::marker::Model;

/// Which nodes have a path to which legs: sixteen nodes, eight legs.
///
/// Contracts see it as `path_open`: whether the path from a node to a leg is open.
#[derive(Drop)]
pub struct PathTable {
    cut: [[bool; 8]; 16],
}

impl Model for PathTable {
    ghost use Rattle.leg_store.specs.Paths.{Paths};

    ghost Value = { Paths };

    ghost view = { λ paths. paths.cut };
}

fn set_flag(flags: &mut [bool; 8], l: LegId, flag: bool)
    requires { l < 8 }
    ensures flags { flags.new ≡ slice_set flags.old l flag }
    ensures legs { length flags.old ≡ 8 }
{
    flags[l as usize] = flag;
}

impl PathTable {
    /// The table of all paths, which are open.
    pub fn new() -> PathTable
        ensures { path_open result ≡ all_open }
    {
        PathTable {
            cut: [[false; 8]; 16],
        }
    }

    /// Cuts the path from the node to the leg. The other paths stay.
    pub fn cut(&mut self, n: NodeId, l: LegId)
        requires node { n < 16 }
        requires leg { l < 8 }
        ensures { path_open self.new ≡ cut_path (path_open self.old) n l }
    {
        set_flag(&mut self.cut[n as usize], l, true);
    }

    /// Opens the path from the node to the leg. The other paths stay.
    pub fn mend(&mut self, n: NodeId, l: LegId)
        requires node { n < 16 }
        requires leg { l < 8 }
        ensures { path_open self.new ≡ mend_path (path_open self.old) n l }
    {
        set_flag(&mut self.cut[n as usize], l, false);
    }

    /// Whether the path from the node to the leg is open.
    pub fn open(&self, n: NodeId, l: LegId) -> bool
        requires node { n < 16 }
        requires leg { l < 8 }
        ensures { result ≡ path_open self.now n l }
    {
        !self.cut[n as usize][l as usize]
    }
}

#[cfg(test)]
mod tests {
    use super::*;

    #[test]
    fn cuts_and_mends(rt: HostRuntime) {
        let mut paths = PathTable::new();
        assert!(rt; paths.open(15, 7));
        paths.cut(15, 7);
        paths.cut(3, 7);
        assert!(rt; !paths.open(15, 7) && !paths.open(3, 7));
        assert!(rt; paths.open(15, 6) && paths.open(14, 7));
        paths.mend(15, 7);
        assert!(rt; paths.open(15, 7) && !paths.open(3, 7));
    }
}
