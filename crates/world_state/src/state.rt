ghost use Rattle.std.specs.Prelude.{◌≡◌, ◌<◌};

use crate::{Attempt, Offer};
use cluster_msgs::Msg;
use dlm_space::Space;
use leg_failure::View;
use leg_store::PathTable;
use md_superblock::Identity;
use mdc_types::NodeState;
use msg_rounds::{Receiver, Sender};
use node_bits::Bitmaps;
use node_copies::{Additions, Copies, Recoveries};
use node_member::Record;
use node_requests::Requests;
use std::marker::Model;
use suspend_ranges::SuspendList;

/// The state without the legs: one table for each attribute, by node.
///
/// Contracts see the tables as plain data, and speak of the machine's core that they stand for.
#[derive(Drop)]
pub struct CoreState {
    pub identity: Identity,
    pub states: [NodeState; 16],
    pub views: [View; 16],
    /// By node and leg: the sector of the node's last transfer of data.
    pub heads: [[u32; 8]; 16],
    pub requests: Requests,
    pub space: Space,
    pub senders: [Sender; 16],
    pub offers: [Option<Offer>; 16],
    pub receivers: [Receiver; 16],
    /// The message that a receiver took.
    pub heard: [Option<Msg>; 16],
    /// By joining node and leg.
    pub tried: Vec<[Attempt; 8]>,
    pub members: Record,
    pub paths: PathTable,
    pub bitmaps: Bitmaps,
    pub suspended: [SuspendList; 16],
    pub copies: Copies,
    pub recoveries: Recoveries,
    pub additions: Additions,
}

impl Model for CoreState {
    ghost use Rattle.world_state.specs.Kept.{Kept, IsWhole};

    ghost Value = { Kept };

    ghost view = { λ c. record {
      identity = c.identity;
      states = c.states;
      views = c.views;
      heads = c.heads;
      requests = c.requests;
      space = c.space;
      senders = c.senders;
      offers = c.offers;
      receivers = c.receivers;
      heard = c.heard;
      tried = c.tried.items;
      members = c.members;
      paths = c.paths;
      bitmaps = c.bitmaps;
      suspended = c.suspended;
      copies = c.copies;
      recoveries = c.recoveries;
      additions = c.additions;
    } };

    ghost invariant = { λ c. IsWhole (record {
      identity = c.identity;
      states = c.states;
      views = c.views;
      heads = c.heads;
      requests = c.requests;
      space = c.space;
      senders = c.senders;
      offers = c.offers;
      receivers = c.receivers;
      heard = c.heard;
      tried = c.tried.items;
      members = c.members;
      paths = c.paths;
      bitmaps = c.bitmaps;
      suspended = c.suspended;
      copies = c.copies;
      recoveries = c.recoveries;
      additions = c.additions;
    }) };
}
