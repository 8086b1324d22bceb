//! The suspend list of a node: the ranges that the cluster's nodes are resyncing, in which writes wait.
//!
//! After the suspend list of Linux md-cluster (`Documentation/driver-api/md/md-cluster.rst`): each
//! node that resyncs announces a range by RESYNCING, which replaces the one that it announced before,
//! and a write into a suspended range waits. No call takes memory.
#![tactic(auto)]

ghost use Rattle.std.specs.Prelude.{◌≡◌, ◌<◌, None, IfSome};
ghost use Rattle.dlm_modes.specs.Points.{with_at};
ghost use Rattle.suspend_ranges.specs.Suspended.{none_suspended, ranges_of, entry_of, suspends, covering};

use mdc_types::{NodeId, Range, SectorNo};
use std::marker::Model;

/// Ranges of sectors that are suspended, at most one for each of sixteen owners.
///
/// A range is kept as it was put. One that holds no sector isn't kept: to put it is to drop the owner.
///
/// Contracts see the list of the ranges by owner, and speak of the function from owners to ranges that
/// it stands for.
#[derive(Clone, Copy)]
pub struct SuspendList {
    ranges: [Option<Range>; 16],
}

impl Model for SuspendList {
    ghost use Rattle.std.specs.Prelude.{List, Option};
    ghost use Rattle.mdc_types.specs.declared.numbers.Range.{Range};

    ghost Value = { List (Option Range) };

    ghost view = { λ l. l.ranges };

    ghost inverse = { λ ranges. record { ranges = ranges } };
}

impl SuspendList {
    /// Nothing is suspended.
    pub fn new() -> SuspendList
        ensures { ranges_of result ≡ none_suspended }
    {
        SuspendList { ranges: [None; 16] }
    }

    /// Suspends the range for the owner, in place of the owner's former one. An empty range drops the
    /// owner.
    pub fn put(&mut self, owner: NodeId, r: Range)
        requires { owner < 16 }
        ensures { ranges_of self.new ≡ with_at (ranges_of self.old) owner (entry_of r) }
    {
        self.ranges[owner as usize] = if r.lo < r.hi { Some(r) } else { None };
    }

    /// Suspends nothing for the owner any more.
    pub fn drop_owner(&mut self, owner: NodeId)
        requires { owner < 16 }
        ensures { ranges_of self.new ≡ with_at (ranges_of self.old) owner None }
    {
        self.ranges[owner as usize] = None;
    }

    /// The owner's range, as it was put.
    pub fn range(&self, owner: NodeId) -> Option<Range>
        requires { owner < 16 }
        ensures { result ≡ ranges_of self.now owner }
    {
        self.ranges[owner as usize]
    }

    /// The least owner whose range holds the sector. None where no range does.
    pub fn covers(&self, s: SectorNo) -> Option<NodeId>
        ensures least { result ≡ covering (ranges_of self.now) s }
        ensures node { IfSome result (λ owner. owner < 16) }
    {
        for owner in 0..16 {
            if self.suspends(owner, s) {
                return Some(owner);
            }
        }
        None
    }

    // Whether the owner's range holds the sector.
    fn suspends(&self, owner: NodeId, s: SectorNo) -> bool
        requires { owner < 16 }
        ensures { result ≡ suspends s (ranges_of self.now owner) }
    {
        match self.ranges[owner as usize] {
            Some(r) => r.holds(s),
            None => false,
        }
    }
}

impl Default for SuspendList {
    ghost is_default = { λ l. ranges_of l ≡ none_suspended };

    fn default() -> SuspendList {
        SuspendList::new()
    }
}

#[cfg(test)]
mod tests {
    use super::*;

    #[derive(Clone, Copy)]
    enum Call {
        Put(NodeId, SectorNo, SectorNo),
        Drop(NodeId),
    }

    #[test]
    fn least_owners(rt: HostRuntime) {
        let mut list = SuspendList::default();
        // A call, and then the least owners at sectors 7, 8, 15 and 16.
        for (call, owners) in [
            (Call::Put(3, 8, 16), [None, Some(3), Some(3), None]),
            (Call::Put(15, 0, 9), [Some(15), Some(3), Some(3), None]),
            (Call::Put(0, 16, 16), [Some(15), Some(3), Some(3), None]),
            (Call::Put(0, 15, 17), [Some(15), Some(3), Some(0), Some(0)]),
            (Call::Put(3, 16, 24), [Some(15), Some(15), Some(0), Some(0)]),
            (Call::Drop(0), [Some(15), Some(15), None, Some(3)]),
            (Call::Drop(0), [Some(15), Some(15), None, Some(3)]),
            (Call::Put(15, 0, 0), [None, None, None, Some(3)]),
        ] {
            match call {
                Call::Put(owner, lo, hi) => {
                    assert!(rt; owner < 16);
                    let r = Range { lo, hi };
                    list.put(owner, r);
                    assert_eq!(rt; list.range(owner), if lo == hi { None } else { Some(r) });
                }
                Call::Drop(owner) => {
                    assert!(rt; owner < 16);
                    list.drop_owner(owner);
                    assert_eq!(rt; list.range(owner), None);
                }
            }
            for (s, owner) in [7, 8, 15, 16].iter().zip(owners) {
                assert_eq!(rt; list.covers(*s), owner, "sector {s}");
            }
        }
    }
}
