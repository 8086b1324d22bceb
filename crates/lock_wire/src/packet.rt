ghost use Rattle.std.specs.Prelude.{◌≡◌};
ghost use Rattle.lock_wire.specs.Packets.{kind_of};

use crate::Local;
use dlm_modes::{Block, Mode};
use dlm_space::Granted;
use mdc_types::NodeId;

/// What goes over a link. The first three go from a node to the master of the resource, which is
/// below 21, `Granted` and `Called` from a master to a node.
#[derive(Clone, Copy)]
pub enum Packet {
    Ask(usize, Mode),
    /// With the value that is given.
    Convert(usize, Mode, Option<Block>),
    Release(usize, Option<Block>),
    Granted(usize, Granted),
    /// That node asks for a mode that disagrees with what the receiver holds.
    Called(usize, NodeId),
    /// To a new master: the local states on the resources whose master died, by resource.
    Report([Option<Local>; 21]),
}

/// The kind of a packet.
#[derive(Clone, Copy, PartialEq, Eq, Debug)]
pub enum Taken {
    Ask,
    Convert,
    Release,
    Granted,
    Called,
    Report,
}

impl Packet {
    /// Its kind.
    pub fn kind(&self) -> Taken
        ensures { result ≡ kind_of self.now }
    {
        match self {
            Packet::Ask(_, _) => Taken::Ask,
            Packet::Convert(_, _, _) => Taken::Convert,
            Packet::Release(_, _) => Taken::Release,
            Packet::Granted(_, _) => Taken::Granted,
            Packet::Called(_, _) => Taken::Called,
            Packet::Report(_) => Taken::Report,
        }
    }
}
