ghost use Rattle.std.specs.Prelude.{◌≡◌};
ghost use Rattle.mdc_types.specs.declared.events.Event.TheVariants.{Grant};
ghost use Rattle.mdc_types.specs.declared.resources.Res.TheVariants.{Token};

use crate::{ChunkNo, LegId, NodeId, PageNo, Range, ReadNo, Res, Sector, SectorNo, WriteNo};

/// What a round is to say.
#[derive(Clone, Copy)]
pub enum Wish {
    /// The roles as the node sees them.
    Meta,
    /// The same, and the leg becomes a spare.
    Spare(LegId),
    /// The same, and the leg becomes rebuilding.
    Rebuild(LegId),
    /// The same, and the leg becomes working.
    Work(LegId),
    /// The node copies this range, and writes there wait. The empty range ends it.
    Range(Range),
    NewDisk(LegId),
    Remove(LegId),
    ReAdd(LegId),
    /// The node leaves with bits in its slot.
    Unclean,
    /// The array gets this many sectors.
    Grow(u32),
}

/// An event of the cluster. Each is given with its line, where scripts have one for it.
#[derive(Clone, Copy)]
pub enum Event {
    /// `cut n l`: the path from the node to the leg is cut.
    Cut(NodeId, LegId),
    /// `mend n l`: the path is open again.
    Mend(NodeId, LegId),
    /// `die n`: the node dies.
    Die(NodeId),
    /// `grant res`: the head of the resource's queue gets its lock.
    Grant(Res),
    /// `join n`: the node begins to come in.
    Join(NodeId),
    /// `load n l`: it reads the leg's superblock.
    Load(NodeId, LegId),
    /// `up n`: it takes the roles of the superblocks that it read.
    Up(NodeId),
    /// `leave n`: the node leaves with a clean slot.
    Leave(NodeId),
    /// `token n`: it asks the token.
    AskToken(NodeId),
    /// `message n`: it asks the message lock.
    AskMessage(NodeId),
    /// `offer n wish`: it says what its round is for.
    Offer(NodeId, Wish),
    /// `sb n l`: it writes the offered superblock to the leg.
    WriteSuper(NodeId, LegId),
    /// `publish n`: it publishes the message and calls the receivers.
    Publish(NodeId),
    /// `finish n`: the round is over.
    FinishRound(NodeId),
    /// `quit n`: it gives the round up.
    Quit(NodeId),
    /// `take n`: the receiver takes the message.
    Take(NodeId),
    /// `processed n`: the receiver has done what the message says.
    Processed(NodeId),
    /// `resume n`: the receiver is idle again.
    Resume(NodeId),
    /// `drop n`: the receiver drops the message of a dead sender.
    DropMessage(NodeId),
    /// `w n s v`: the node is asked to write the value to the sector.
    AskWrite(NodeId, SectorNo, Sector),
    /// `bit n p l`: it writes a page of its bitmap slot to the leg.
    WritePage(NodeId, PageNo, LegId),
    /// `out n k l`: it writes the value of its write to the leg.
    Out(NodeId, WriteNo, LegId),
    /// `ok n k`: its write ends, written to all legs.
    EndWrite(NodeId, WriteNo),
    /// `break n k`: its write ends, and not all legs have it.
    BreakWrite(NodeId, WriteNo),
    /// `r n s`: the node is asked to read the sector.
    AskRead(NodeId, SectorNo),
    /// `in n k`: it reads from a leg for its read.
    In(NodeId, ReadNo),
    /// `clear n c`: the chunk leaves its bitmap.
    Clear(NodeId, ChunkNo),
    /// `resync n`: it asks the lock under which it copies.
    AskResync(NodeId),
    /// `gather n`: it reads the next page of the slots for a leg that is added again.
    Gather(NodeId),
    /// `pass n own`: it begins to copy the chunks that it needs.
    PassOwn(NodeId),
    /// `pass n full`: it begins to copy all chunks.
    PassFull(NodeId),
    /// `pass n again l`: it begins to copy the gathered chunks to the leg.
    PassAgain(NodeId, LegId),
    /// `ci n`: it reads the next sector to copy.
    CopyIn(NodeId),
    /// `co n l`: it writes that sector to the leg.
    CopyOut(NodeId, LegId),
    /// `settle n`: the sector is equal on all legs.
    Settle(NodeId),
    /// `done n`: the pass ends.
    EndPass(NodeId),
    /// `rec n d`: it begins to recover the slot of a dead node.
    Recover(NodeId, NodeId),
    /// `slotin n p l`: it reads a page of the dead slot from the leg.
    SlotIn(NodeId, PageNo, LegId),
    /// `slotout n p l`: it writes a clean page of the dead slot to the leg.
    SlotOut(NodeId, PageNo, LegId),
    /// `recovered n`: the recovery ends.
    Recovered(NodeId),
    /// `lockdev n`: it locks out new devices.
    LockDevice(NodeId),
}

impl Default for Event {
    ghost is_default = { λ e. e ≡ Grant Token };

    /// `grant token`, which fills a place that no event has yet.
    fn default() -> Event {
        Event::Grant(Res::Token)
    }
}
