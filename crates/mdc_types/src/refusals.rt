use crate::{ChunkNo, LegId, NodeId, PageNo, ReadNo, Res, Role, SectorNo, WriteNo};
use dlm_modes::Mode;

/// The part of a node that a phase word speaks of.
#[derive(Clone, Copy, PartialEq, Eq, Debug)]
pub enum Part {
    State,
    Sender,
    Receiver,
    Copy,
    Recovery,
    Addition,
}

/// A phase of one part of a node.
#[derive(Clone, Copy)]
pub enum Word {
    Out,
    Joining,
    Loaded,
    Up,
    Idle,
    TokenAsked,
    TokenHeld,
    MessageAsked,
    MessageHeld,
    Offered,
    Published,
    Granted,
    Taken,
    Waiting,
    Ready,
    /// Printed as `none`.
    Nothing,
    Asked,
    Held,
    Pass,
    Window,
    Buffer,
    Open,
    Announced,
    Removing,
    ReAdd,
    Again,
}

/// The guard of an event that fails, with its values.
#[derive(Clone, Copy)]
pub enum Refusal {
    /// There is no such node.
    NoNode(NodeId),
    /// The node died and its slot is pending.
    Fenced(NodeId),
    /// The node isn't live and isn't fenced.
    NotUp(NodeId),
    /// There is no such leg.
    NoLeg(LegId),
    /// That part of the node has that phase, and the event asks another.
    NotPhase(Part, Word),
    /// There is no such sector; or the range that begins there is empty, unaligned or too long.
    NoSector(SectorNo),
    NoPage(PageNo),
    NoChunk(ChunkNo),
    /// The node has no such live write.
    NoWrite(WriteNo),
    /// The node has no such live read.
    NoRead(ReadNo),
    /// Nothing is asked on the resource.
    NothingAsked(Res),
    /// That holder disagrees with the head of the queue.
    NotGrantable { holder: NodeId, mode: Mode },
    /// That other node holds `no-new-dev`.
    Blocked(NodeId),
    /// The node's receiver isn't idle.
    ReceiverBusy(Word),
    /// The head of the queue on `ack` doesn't disagree with this node's lock.
    NotCalled,
    /// The message's sender has died.
    SenderGone(NodeId),
    /// The message's sender lives.
    SenderLive(NodeId),
    /// The lock that was asked isn't granted yet.
    NotGranted(Res),
    /// The node is live.
    SlotLive(NodeId),
    /// The node's slot is pending and it isn't fenced.
    SlotPending(NodeId),
    /// That slot isn't pending.
    NotPending(NodeId),
    /// The slot's heir is pending itself.
    HeirPending(NodeId),
    /// The joining node didn't try that leg.
    NotLoaded(LegId),
    /// The greatest events number that was read is below the last completed one.
    Stale { read: u64, completed: u64 },
    /// No working leg was read, and that one is the first.
    Missing(LegId),
    /// What the event is for isn't there.
    NotNeeded,
    /// The first leg whose loss the others haven't acknowledged.
    Unacked(LegId),
    /// The leg has that role in the node's view, and the event asks another.
    NotRole(LegId, Role),
    /// The pass hasn't covered the leg.
    NotCopied(LegId),
    /// That slot is pending.
    Pending(NodeId),
    /// The node's path to the leg is cut.
    PathCut(LegId),
    /// That own write, in the range or chunk, is in flight.
    Draining(WriteNo),
    /// That own read is in flight.
    Reading(ReadNo),
    /// The bit of that chunk is set.
    Unclean(ChunkNo),
    /// A page on that target isn't fresh.
    PageOld(LegId),
    /// The leg is no target, by the node's view or by the proposed roles.
    NotTarget(LegId),
    /// The leg doesn't work, by the node's view.
    NotWorking(LegId),
    /// The first leg that the event wants written and that isn't.
    NotWritten(LegId),
    /// The first leg that the event wants read and that isn't.
    NotRead(LegId),
    /// A bit that the event asks doesn't surely stand on that target.
    BitMissing(LegId),
    /// That node's range covers the sector.
    Suspended(NodeId),
    /// That node has a live write of the sector.
    InFlight(NodeId),
    /// Sixteen are in flight at the node.
    Full(NodeId),
    /// That chunk is to be copied.
    Needed(ChunkNo),
    /// The leg is faulty or rebuilding.
    Degraded(LegId),
    /// The window from that sector is open.
    Window(SectorNo),
    /// There is nothing to copy, or no page left to gather.
    NothingLeft,
    /// The greatest events number drawn is that one, which is the last.
    NoEvents(u64),
    /// The size isn't over the node's own or is over the room.
    NoSize(u32),
    /// There is no such extent.
    NoExtent(u32),
    /// The node holds less on that extent than the event asks.
    NotHolding(u32),
    /// The report of that node isn't taken yet.
    Rebuilding(NodeId),
    /// The link has no packet.
    LinkEmpty { from: NodeId, to: NodeId },
    /// The lock is asked, and not held yet.
    Waiting,
}
