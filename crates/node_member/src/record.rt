ghost use Rattle.std.specs.Prelude.{◌≡◌, ◌<◌, ◌^◌, true, is_none, IfSome, OnOk, OnErr};
ghost use Rattle.std.specs.Result.{result_err};
ghost use Rattle.dlm_modes.specs.Points.{with_at};
ghost use Rattle.mdc_types.specs.Bits.{has_bit};
ghost use Rattle.node_member.specs.Members.{new_members, fenced, join_refusal, die_refusal, begin_refusal, fresh_refusal, first_pending, first_to_begin, joined, left, died, begun, ended, drawn_one, completed_at};
ghost use Rattle.node_member.specs.Parts.{members_of};

use crate::MemberError;
use mdc_types::{NodeId, has_node, with_node, without_node};
use std::marker::Model;

/// The member record. A refused call changes nothing.
///
/// A live node's slot becomes pending when it dies or leaves unclean. It stays so until another node
/// has recovered it, and a dead node is fenced until then. The heir of a slot is the node that began its
/// recovery last: only where the heir's own slot isn't pending may another node begin.
///
/// Contracts see the record's parts, and speak of the members that they stand for.
#[derive(Drop)]
pub struct Record {
    live: u16,
    pending: u16,
    dead: u16,
    heirs: [Option<NodeId>; 16],
    drawn: u64,
    completed: u64,
}

impl Model for Record {
    ghost use Rattle.node_member.specs.Parts.{Parts, AreHeirs};

    ghost Value = { Parts };

    ghost view = { λ r. record {
      live = r.live;
      pending = r.pending;
      dead = r.dead;
      heirs = r.heirs;
      drawn = r.drawn;
      completed = r.completed;
    } };

    ghost invariant = { λ r. AreHeirs r.heirs };
}

// The set with the node in it where it is marked, else without it.
fn marked(set: u16, n: NodeId, mark: bool) -> u16
    requires { n < 16 }
    ensures { has_bit result ≡ with_at (has_bit set) n mark }
{
    if mark {
        with_node(set, n)
    } else {
        without_node(set, n)
    }
}

impl Record {
    /// A record of these live nodes and pending slots, one bit each, the lowest for node 0. Nobody is
    /// dead, no slot has an heir, and the number is both the greatest drawn and the last completed one.
    pub fn new(live: u16, pending: u16, events: u64) -> Record
        ensures { members_of result ≡ new_members live pending events }
    {
        Record {
            live,
            pending,
            dead: 0,
            heirs: [None; 16],
            drawn: events,
            completed: events,
        }
    }

    /// Whether the node is live.
    pub fn live(&self, n: NodeId) -> bool
        requires { n < 16 }
        ensures { result ≡ (members_of self.now).live n }
    {
        has_node(self.live, n)
    }

    /// Whether the node's slot waits for its recovery.
    pub fn pending(&self, n: NodeId) -> bool
        requires { n < 16 }
        ensures { result ≡ (members_of self.now).pending n }
    {
        has_node(self.pending, n)
    }

    /// Whether the node died, and its slot isn't recovered yet.
    pub fn dead(&self, n: NodeId) -> bool
        requires { n < 16 }
        ensures { result ≡ (members_of self.now).dead n }
    {
        has_node(self.dead, n)
    }

    /// Whether the node is dead and its slot pending.
    pub fn fenced(&self, n: NodeId) -> bool
        requires { n < 16 }
        ensures { result ≡ fenced (members_of self.now) n }
    {
        self.dead(n) && self.pending(n)
    }

    /// The node that began the slot's recovery last. None where nobody did since it became pending.
    pub fn heir(&self, d: NodeId) -> Option<NodeId>
        requires { d < 16 }
        ensures heir { result ≡ (members_of self.now).heir d }
        ensures node { IfSome result (λ h. h < 16) }
    {
        self.heirs[d as usize]
    }

    /// The greatest events number that was drawn.
    pub fn drawn(&self) -> u64
        ensures { result ≡ (members_of self.now).drawn }
    {
        self.drawn
    }

    /// The last completed events number.
    pub fn completed(&self) -> u64
        ensures { result ≡ (members_of self.now).completed }
    {
        self.completed
    }

    /// Draws the next events number: one more than the greatest drawn so far.
    pub fn draw(&mut self) -> u64
        requires { (members_of self.old).drawn < 2 ^ 63 }
        ensures next { result ≡ (members_of self.new).drawn }
        ensures drawn { members_of self.new ≡ drawn_one (members_of self.old) }
    {
        let next = self.drawn + 1;
        self.drawn = next;
        next
    }

    /// The round of this events number is completed.
    pub fn complete(&mut self, events: u64)
        ensures { members_of self.new ≡ completed_at (members_of self.old) events }
    {
        self.completed = events;
    }

    /// Whether the node may join: `Fenced`, then `SlotLive`, then `SlotPending`.
    pub fn may_join(&self, n: NodeId) -> Result<(), MemberError>
        requires { n < 16 }
        ensures { result_err result ≡ join_refusal (members_of self.now) n }
    {
        if self.fenced(n) {
            return Err(MemberError::Fenced(n));
        }
        if self.live(n) {
            return Err(MemberError::SlotLive(n));
        }
        if self.pending(n) {
            return Err(MemberError::SlotPending(n));
        }
        Ok(())
    }

    /// The node joins: it is live. `Fenced` where it died and its slot is pending, then `SlotLive` where
    /// it is live, then `SlotPending` where its slot is pending.
    pub fn join(&mut self, n: NodeId) -> Result<(), MemberError>
        requires { n < 16 }
        ensures refused { result_err result ≡ join_refusal (members_of self.old) n }
        ensures ok { OnOk result (members_of self.new ≡ joined (members_of self.old) n) }
        ensures err { OnErr result (self.new ≡ self.old) }
    {
        self.may_join(n)?;
        self.live = marked(self.live, n, true);
        Ok(())
    }

    /// The live node leaves. Its slot is pending exactly where it leaves unclean.
    pub fn leave(&mut self, n: NodeId, clean: bool)
        requires node { n < 16 }
        requires live { (members_of self.old).live n ≡ true }
        ensures { members_of self.new ≡ left (members_of self.old) n clean }
    {
        self.live = marked(self.live, n, false);
        self.pending = marked(self.pending, n, !clean);
    }

    /// Whether the node may die: `Fenced`, then `NotUp`.
    pub fn may_die(&self, n: NodeId) -> Result<(), MemberError>
        requires { n < 16 }
        ensures { result_err result ≡ die_refusal (members_of self.now) n }
    {
        if self.fenced(n) {
            return Err(MemberError::Fenced(n));
        }
        if !self.live(n) {
            return Err(MemberError::NotUp(n));
        }
        Ok(())
    }

    /// The node dies: it isn't live, it is dead, and its slot is pending. `Fenced` where it died before
    /// and its slot is pending, then `NotUp` where it isn't live.
    pub fn die(&mut self, n: NodeId) -> Result<(), MemberError>
        requires { n < 16 }
        ensures refused { result_err result ≡ die_refusal (members_of self.old) n }
        ensures ok { OnOk result (members_of self.new ≡ died (members_of self.old) n) }
        ensures err { OnErr result (self.new ≡ self.old) }
    {
        self.may_die(n)?;
        self.live = marked(self.live, n, false);
        self.pending = marked(self.pending, n, true);
        self.dead = marked(self.dead, n, true);
        Ok(())
    }

    /// Whether a recovery of the slot may begin: `NotPending`, then `HeirPending`.
    pub fn may_begin(&self, d: NodeId) -> Result<(), MemberError>
        requires { d < 16 }
        ensures { result_err result ≡ begin_refusal (members_of self.now) d }
    {
        if !self.pending(d) {
            return Err(MemberError::NotPending(d));
        }
        if let Some(h) = self.heir(d)
            && self.pending(h)
        {
            return Err(MemberError::HeirPending(h));
        }
        Ok(())
    }

    /// The least pending slot.
    pub fn first_pending(&self) -> Option<NodeId>
        ensures slot { result ≡ first_pending (members_of self.now) }
        ensures node { IfSome result (λ d. d < 16) }
    {
        for d in 0..16 {
            if self.pending(d) {
                return Some(d);
            }
        }
        None
    }

    /// The least slot whose recovery may begin.
    pub fn first_to_begin(&self) -> Option<NodeId>
        ensures slot { result ≡ first_to_begin (members_of self.now) }
        ensures node { IfSome result (λ d. d < 16) }
    {
        for d in 0..16 {
            if self.can_begin(d) {
                return Some(d);
            }
        }
        None
    }

    fn can_begin(&self, d: NodeId) -> bool
        requires { d < 16 }
        ensures { result ≡ is_none (begin_refusal (members_of self.now) d) }
    {
        self.may_begin(d).is_ok()
    }

    /// Node `n` begins the recovery of slot `d`, and is its heir. `NotPending` where the slot isn't
    /// pending, then `HeirPending` with the slot's heir where the heir's own slot is pending.
    pub fn begin(&mut self, n: NodeId, d: NodeId) -> Result<(), MemberError>
        requires node { n < 16 }
        requires slot { d < 16 }
        ensures refused { result_err result ≡ begin_refusal (members_of self.old) d }
        ensures ok { OnOk result (members_of self.new ≡ begun (members_of self.old) n d) }
        ensures err { OnErr result (self.new ≡ self.old) }
    {
        self.may_begin(d)?;
        self.heirs[d as usize] = Some(n);
        Ok(())
    }

    /// The recovery of the pending slot has ended: it isn't pending, its node isn't dead, and it has no
    /// heir.
    pub fn recovered(&mut self, d: NodeId)
        requires slot { d < 16 }
        requires pending { (members_of self.old).pending d ≡ true }
        ensures { members_of self.new ≡ ended (members_of self.old) d }
    {
        self.pending = marked(self.pending, d, false);
        self.dead = marked(self.dead, d, false);
        self.heirs[d as usize] = None;
    }

    /// Whether a superblock of this events number is no older than the last completed round. `Stale`
    /// where the number is below the last completed one.
    pub fn fresh(&self, read: u64) -> Result<(), MemberError>
        ensures { result_err result ≡ fresh_refusal (members_of self.now) read }
    {
        if read < self.completed {
            return Err(MemberError::Stale {
                read,
                completed: self.completed,
            });
        }
        Ok(())
    }
}
