ghost use Rattle.std.specs.Prelude.{◌≡◌, ◌%◌, ◌<◌, ◌≤◌, ◌==◌, ◌&&◌, false, Some, None, not, if◌then◌else◌, length, slice_set};
ghost use Rattle.dlm_modes.specs.Points.{with_at};
ghost use Rattle.lock_wire.specs.Parts.{ward_of, wards_of, live_of};
ghost use Rattle.lock_wire.specs.Machine.{no_ward, first_ward, heirs_ward};

use mdc_types::NodeId;
use std::marker::Model;

// Who cares for a resource.
#[derive(Clone, Copy)]
pub struct Ward {
    pub master: NodeId,
    // By node: its report to this master isn't taken.
    pub awaited: [bool; 16],
    // This master took it over, and no holder of PW or EX wrote the block since.
    pub stale: bool,
    // By holder: the asker that the master's last Called named to it, since it served last.
    pub called: [Option<NodeId>; 16],
}

// Who cares for each resource.
#[derive(Drop)]
pub struct Wards {
    wards: [Ward; 21],
}

impl Model for Wards {
    ghost use Rattle.std.specs.Prelude.{List};
    ghost use Rattle.lock_wire.specs.Parts.{AreInRange};
    ghost use Rattle.lock_wire.specs.declared.ward.Ward.{Ward};

    ghost Value = { List Ward };

    ghost view = { λ w. w.wards };

    ghost invariant = { λ w. AreInRange w.wards };
}

fn put_flag(flags: &mut [bool; 16], n: NodeId, flag: bool)
    requires { n < 16 }
    ensures flags { flags.new ≡ slice_set flags.old n flag }
    ensures nodes { length flags.old ≡ 16 }
{
    flags[n as usize] = flag;
}

fn put_caller(callers: &mut [Option<NodeId>; 16], n: NodeId, caller: Option<NodeId>)
    requires { n < 16 }
    ensures callers { callers.new ≡ slice_set callers.old n caller }
    ensures nodes { length callers.old ≡ 16 }
{
    callers[n as usize] = caller;
}

// Of the node whose number is that of the resource, modulo the number of nodes.
fn first(nodes: u8, res: usize) -> Ward
    requires { 1 ≤ nodes }
    ensures ward { ward_of result ≡ record no_ward { master = res % nodes } }
    ensures master { result.master ≡ res % nodes }
{
    Ward {
        master: (res % nodes as usize) as NodeId,
        awaited: [false; 16],
        stale: false,
        called: [None; 16],
    }
}

// After the death of a node whose resources another takes over.
fn after_death(ward: &Ward, dead: NodeId, m: NodeId, live: &[bool; 16]) -> Ward
    ensures ward { ward_of result ≡ (if ward.now.master == dead then heirs_ward (live_of live.now) m
        else ward_of ward.now) }
    ensures master { result.master ≡ (if ward.now.master == dead then m else ward.now.master) }
{
    if ward.master == dead {
        Ward {
            master: m,
            awaited: *live,
            stale: true,
            called: [None; 16],
        }
    } else {
        *ward
    }
}

impl Wards {
    // The master is the number modulo that of the nodes.
    pub fn new(nodes: u8) -> Wards
        requires least { 1 ≤ nodes }
        requires most { nodes ≤ 16 }
        ensures { wards_of result ≡ first_ward nodes }
    {
        let mut wards = [first(nodes, 0); 21];
        for r in 0..21 {
            wards[r] = first(nodes, r);
        }
        Wards { wards }
    }

    pub fn master(&self, res: usize) -> NodeId
        requires { res < 21 }
        ensures master { result ≡ (wards_of self.now res).master }
        ensures range { result < 16 }
    {
        self.wards[res].master
    }

    pub fn is_stale(&self, res: usize) -> bool
        requires { res < 21 }
        ensures { result ≡ (wards_of self.now res).stale }
    {
        self.wards[res].stale
    }

    // Whether the node's report isn't taken.
    pub fn awaits(&self, res: usize, n: NodeId) -> bool
        requires res { res < 21 }
        requires node { n < 16 }
        ensures { result ≡ (wards_of self.now res).awaited n }
    {
        self.wards[res].awaited[n as usize]
    }

    // The asker that was named last to the node.
    pub fn called(&self, res: usize, n: NodeId) -> Option<NodeId>
        requires res { res < 21 }
        requires node { n < 16 }
        ensures { result ≡ (wards_of self.now res).called n }
    {
        self.wards[res].called[n as usize]
    }

    // The node's report is taken.
    pub fn take_report(&mut self, res: usize, n: NodeId)
        requires res { res < 21 }
        requires node { n < 16 }
        ensures { let old = wards_of self.old in wards_of self.new
            ≡ with_at old res (record (old res) { awaited = with_at (old res).awaited n false }) }
    {
        put_flag(&mut self.wards[res].awaited, n, false);
    }

    // Where a value was written to the block it isn't stale any more.
    pub fn freshen(&mut self, res: usize, written: bool)
        requires { res < 21 }
        ensures { let old = wards_of self.old in wards_of self.new
            ≡ with_at old res (record (old res) { stale = (old res).stale && not written }) }
    {
        self.wards[res].stale = self.wards[res].stale && !written;
    }

    // The asker is named to the node.
    pub fn call(&mut self, res: usize, n: NodeId, asker: NodeId)
        requires res { res < 21 }
        requires node { n < 16 }
        ensures { let old = wards_of self.old in wards_of self.new
            ≡ with_at old res (record (old res) { called = with_at (old res).called n (Some asker) }) }
    {
        put_caller(&mut self.wards[res].called, n, Some(asker));
    }

    // Who was named to whom is forgotten.
    pub fn forget(&mut self, res: usize)
        requires { res < 21 }
        ensures { let old = wards_of self.old in wards_of self.new
            ≡ with_at old res (record (old res) { called = λ n. None }) }
    {
        self.wards[res].called = [None; 16];
    }

    // A node takes over all resources of a dead one, and awaits the reports of the live ones.
    pub fn take_over(&mut self, dead: NodeId, m: NodeId, live: &[bool; 16])
        requires dead { dead < 16 }
        requires master { m < 16 }
        ensures { let old = wards_of self.old in wards_of self.new
            ≡ (λ r. if (old r).master == dead then heirs_ward (live_of live.now) m else old r) }
    {
        for ward in &mut self.wards {
            *ward = after_death(ward, dead, m, live);
        }
    }
}
