// What the tables keep of one node.
use disk_addition::Addition;
use mdc_types::Range;
use node_recovery::Recovery;
use resync_worker::Pass;
use slot_gathering::Gathering;

/// The lock under which a node copies.
#[derive(Clone, Copy)]
pub enum Turn {
    NotAsked,
    Asked,
    Held,
}

/// A node's copying. While no pass is begun, the pass is there for its memory alone.
#[derive(Drop)]
pub struct NodeCopy {
    pub turn: Turn,
    pub begun: bool,
    pub pass: Pass,
    pub window: Option<Range>,
}

/// A node's recovery. While none is begun, it is there for its memory alone.
#[derive(Drop)]
pub struct NodeRecovery {
    pub begun: bool,
    pub recovery: Recovery,
}

/// What a node knows of a device on its way, and what it gathered for a leg that is added again.
#[derive(Drop)]
pub struct NodeAdding {
    pub addition: Addition,
    pub gathering: Gathering,
}
