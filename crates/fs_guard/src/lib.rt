//! The guard of a clustered file system: at most one live write of a sector, over all nodes.
#![tactic(auto)]

ghost use Rattle.std.specs.Prelude.{◌≡◌, ◌<◌, ◌≤◌, ◌↔◌, [], ◌∷◌, ◌++◌, length, Some, None, IsTrue, MatchResult, OnOk, OnErr};
ghost use Rattle.fs_guard.specs.Writers.{writer, holder, without, without_node, AreApart, holders_of, begun, ended, died};

use arrayvec::ArrayVec;
use mdc_types::{NodeId, SectorNo};
use std::marker::Model;

/// A node with a live write of a sector.
#[derive(Clone, Copy, PartialEq, Eq, Debug, Default)]
pub struct Writer {
    pub sector: SectorNo,
    pub node: NodeId,
}

/// This node has a live write of the sector.
#[derive(Clone, Copy, PartialEq, Eq, Debug)]
pub struct InFlight(pub NodeId);

/// The most live writes that a guard holds.
pub const MOST: usize = 256;

/// The live writes of all nodes: at most one of a sector, and at most `MOST` in all. No call takes memory.
///
/// Contracts see the list of the writers, in the order in which their writes began, and speak also of
/// the function from sectors to nodes that it stands for.
#[derive(Drop)]
pub struct Guard {
    writers: ArrayVec<Writer, MOST>,
}

impl Model for Guard {
    ghost use Rattle.std.specs.Prelude.{List, ◌≤◌, length};
    ghost use Rattle.fs_guard.specs.declared.Writer.{Writer};
    ghost use Rattle.fs_guard.specs.declared.TheConstants.{MOST};
    ghost use Rattle.fs_guard.specs.Writers.{AreApart};

    ghost Value = { List Writer };

    ghost view = { λ g. g.writers.items };

    ghost invariant = { λ g. AreApart g.writers.items × (length g.writers.items ≤ MOST) };
}

fn holder(writers: &[Writer], s: SectorNo) -> Option<NodeId>
    ensures { result ≡ holder s writers.now }
{
    for w in writers {
        if w.sector == s {
            return Some(w.node);
        }
    }
    None
}

impl Guard {
    /// No live write.
    pub fn new() -> Guard
        ensures { result ≡ [] }
    {
        Guard {
            writers: ArrayVec::new(),
        }
    }

    /// Whether there is no room for one more.
    pub fn is_full(&self) -> bool
        ensures full { IsTrue result ↔ length self.now ≡ MOST }
        ensures most { length self.now ≤ MOST }
    {
        self.writers.is_full()
    }

    /// The node with a live write of the sector, if there is one.
    pub fn holder(&self, s: SectorNo) -> Option<NodeId>
        ensures node { result ≡ holder s self.now }
        ensures apart { AreApart self.now }
    {
        holder(&self.writers, s)
    }

    /// The node begins a write of the sector. It is `InFlight` exactly where a node has a live write of
    /// it, and then nothing changes. Room is needed only where no node has one.
    pub fn begin(&mut self, s: SectorNo, n: NodeId) -> Result<(), InFlight>
        requires { holder s self.old ≡ None → length self.old < MOST }
        ensures free { MatchResult result (λ _. holder s self.old ≡ None) (λ e. holder s self.old ≡ Some e.0) }
        ensures ok { OnOk result (self.new ≡ self.old ++ writer s n ∷ []) }
        ensures holders { OnOk result (holders_of self.new ≡ begun (holders_of self.old) s n) }
        ensures err { OnErr result (self.new ≡ self.old) }
    {
        if let Some(m) = self.holder(s) {
            return Err(InFlight(m));
        }
        self.writers.push(Writer { sector: s, node: n });
        Ok(())
    }

    /// The node's write of the sector has ended. Nothing changes where it has none.
    pub fn end(&mut self, s: SectorNo, n: NodeId)
        ensures writers { self.new ≡ without s n self.old }
        ensures holders { holders_of self.new ≡ ended (holders_of self.old) s n }
    {
        self.writers.retain(|w| w.sector != s || w.node != n);
    }

    /// The node has died, and with it all its writes.
    pub fn die(&mut self, n: NodeId)
        ensures writers { self.new ≡ without_node n self.old }
        ensures holders { holders_of self.new ≡ died (holders_of self.old) n }
    {
        self.writers.retain(|w| w.node != n);
    }
}

#[cfg(test)]
mod tests {
    use super::*;

    #[derive(Clone, Copy)]
    enum Call {
        Begin(SectorNo, NodeId),
        End(SectorNo, NodeId),
        Die(NodeId),
    }

    #[test]
    fn calls(rt: HostRuntime) {
        let mut guard = Guard::new();
        // A call, its error, and then the holders of sectors 5 and 6.
        for (call, error, five, six) in [
            (Call::Begin(5, 0), None, Some(0), None),
            (Call::Begin(6, 1), None, Some(0), Some(1)),
            (Call::Begin(5, 1), Some(InFlight(0)), Some(0), Some(1)),
            (Call::Begin(5, 0), Some(InFlight(0)), Some(0), Some(1)),
            (Call::End(6, 0), None, Some(0), Some(1)),
            (Call::End(5, 0), None, None, Some(1)),
            (Call::Begin(5, 2), None, Some(2), Some(1)),
            (Call::Die(1), None, Some(2), None),
        ] {
            assert!(rt; !guard.is_full());
            let was = match call {
                Call::Begin(s, n) => guard.begin(s, n).err(),
                Call::End(s, n) => {
                    guard.end(s, n);
                    None
                }
                Call::Die(n) => {
                    guard.die(n);
                    None
                }
            };
            assert_eq!(rt; was, error);
            assert_eq!(rt; guard.holder(5), five);
            assert_eq!(rt; guard.holder(6), six);
        }
    }
}
