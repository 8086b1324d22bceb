ghost use Rattle.std.specs.Prelude.{◌≡◌, ◌<◌, ◌≤◌, ◌+◌, ◌++◌, ◌∷◌, [], IfOk, IfSome, IfErr, OnOk, OnErr, Some, None, ◌==◌, if◌then◌else◌};
ghost use Rattle.std.specs.Option.{option_map};
ghost use Rattle.std.specs.Result.{result_err};
ghost use Rattle.dlm_space.specs.Locks.{grant_refusal, grant_answer};
ghost use Rattle.lock_wire.specs.Locals as locals;
ghost use Rattle.lock_wire.specs.Packets.{IsOfResource, most_calls, first, rest, kind_of};
ghost use Rattle.lock_wire.specs.Machine.{with_cell, master_of, sent, with_table, entered, asking, converts, releases, convert_writes, release_writes, told, opened, no_node, node_refusal, ask_refusal_at, convert_refusal_at, release_refusal_at, deliver_refusal, serve_refusal, IsAnswered, first_awaited, is_awaited, with_local, asked_of, converted_of, answer_from, released_of, calls_out, then_calls, taken_report, reported_one, reported, received, named, delivered, serve_answer, served, heir, report_of, without_node, states_below, taken_over, died_of, holds_of, written};
ghost use Rattle.lock_wire.specs.Parts.{wire_of, calls_one, reports_below, granting};

use crate::links::Links;
use crate::locals::Locals;
use crate::tables::Tables;
use crate::ward::Wards;
use crate::{Local, Packet, Taken, WireEnd};
use dlm_modes::{Block, Mode, weaker};
use dlm_space::{Converted, Granted, LockError};
use mdc_types::{NodeId, Refusal};
use std::alloc::{AllocError, Global};
use std::marker::Model;

/// A lock space spread over up to sixteen nodes: their local states, the links between them, and
/// the tables of the masters. A call that fails changes nothing.
///
/// Every number of a node may be given: `Refusal::NoNode` names one that isn't below the number
/// of nodes, and `Refusal::Fenced` a dead one, before all else. Resources are below 21. All
/// memory that a call needs is taken before it does anything.
#[derive(Drop)]
pub struct Wire {
    nodes: u8,
    live: [bool; 16],
    locals: Locals,
    links: Links,
    tables: Tables,
    wards: Wards,
}

impl Model for Wire {
    ghost use Rattle.std.specs.Prelude.{◌≤◌};
    ghost use Rattle.lock_wire.specs.Parts.{Parts};

    ghost Value = { Parts };

    ghost view = { λ w. record {
      nodes = w.nodes;
      live = w.live;
      locals = w.locals;
      links = w.links;
      tables = w.tables;
      wards = w.wards;
    } };

    ghost invariant = { λ w. w.nodes ≤ 16 };
}

impl Wire {
    /// So many nodes, 1 to 16, all live, with nothing asked or held. The master of a resource is
    /// its number modulo that of the nodes.
    pub fn open(alloc: Global, nodes: u8) -> Result<Wire, AllocError>
        requires least { 1 ≤ nodes }
        requires most { nodes ≤ 16 }
        ensures { IfOk result (λ w. wire_of w ≡ opened nodes) }
    {
        let mut live = [false; 16];
        for n in 0..nodes {
            live[n as usize] = true;
        }
        Ok(Wire {
            nodes,
            live,
            locals: Locals::new(),
            links: Links::new(alloc),
            tables: Tables::new(alloc)?,
            wards: Wards::new(nodes),
        })
    }

    fn known(&self, n: NodeId) -> Result<(), WireEnd>
        ensures refused { result_err result ≡ node_refusal (wire_of self.now) n }
        ensures range { IfOk result (λ u. n < 16) }
    {
        if n >= self.nodes {
            return Err(WireEnd::Refused(Refusal::NoNode(n)));
        }
        if !self.live[n as usize] {
            return Err(WireEnd::Refused(Refusal::Fenced(n)));
        }
        Ok(())
    }

    // Room for so many more packets.
    fn room(&mut self, count: usize) -> Result<(), WireEnd>
        ensures end { IfErr result (λ e. e ≡ WireEnd.Memory) }
        ensures same { wire_of self.new ≡ wire_of self.old }
        ensures room { OnOk result (count ≤ self.new.links.room) }
        ensures err { OnErr result (wire_of self.new ≡ wire_of self.old) }
    {
        match self.links.reserve(count) {
            Ok(()) => Ok(()),
            Err(_) => Err(WireEnd::Memory),
        }
    }

    // The node's local state changes, and a packet tells the master.
    fn say(&mut self, n: NodeId, res: usize, state: Local, packet: Packet)
        requires node { n < 16 }
        requires res { res < 21 }
        requires packet { IsOfResource packet }
        requires room { 0 < self.old.links.room }
        ensures { let old = wire_of self.old in wire_of self.new
            ≡ sent (with_local old n res state) n (master_of old res) packet }
    {
        self.locals.set(n, res, state);
        let master = self.wards.master(res);
        self.links.send(n, master, packet);
    }

    /// The node asks for the mode, by an Ask to the master. `NotFree` where its local state isn't
    /// free.
    pub fn ask(&mut self, n: NodeId, res: usize, mode: Mode) -> Result<(), WireEnd>
        requires { res < 21 }
        ensures refused { IsAnswered (ask_refusal_at (wire_of self.old) n res) result }
        ensures ok { OnOk result (wire_of self.new ≡ asked_of (wire_of self.old) n res mode) }
        ensures err { OnErr result (wire_of self.new ≡ wire_of self.old) }
    {
        self.known(n)?;
        self.locals.get(n, res).may_ask()?;
        self.room(1)?;
        self.say(n, res, Local::Asking(mode), Packet::Ask(res, mode));
        Ok(())
    }

    /// The node converts what it holds to the mode, by a Convert with the value to the master. A
    /// weaker mode, or the same, is held at once. `NotHeld` where it holds nothing,
    /// `AlreadyAsked` where a conversion of it waits.
    pub fn convert(
        &mut self,
        n: NodeId,
        res: usize,
        mode: Mode,
        value: Option<Block>,
    ) -> Result<Converted, WireEnd>
        requires { res < 21 }
        ensures refused { IsAnswered (convert_refusal_at (wire_of self.old) n res) result }
        ensures answer { IfOk result (λ c. Some c ≡ answer_from ((wire_of self.old).local n res) mode) }
        ensures ok { OnOk result (wire_of self.new ≡ converted_of (wire_of self.old) n res mode value) }
        ensures err { OnErr result (wire_of self.new ≡ wire_of self.old) }
    {
        self.known(n)?;
        let from = self.locals.get(n, res).may_convert()?;
        self.room(1)?;
        self.say(
            n,
            res,
            Local::converting(from, mode),
            Packet::Convert(res, mode, value),
        );
        Ok(converting_answer(from, mode))
    }

    /// The node lets go of what it holds, by a Release with the value to the master. `NotHeld`
    /// where it holds and asks nothing, `Refusal::Waiting` where it asks or converts.
    pub fn release(&mut self, n: NodeId, res: usize, value: Option<Block>) -> Result<(), WireEnd>
        requires { res < 21 }
        ensures refused { IsAnswered (release_refusal_at (wire_of self.old) n res) result }
        ensures ok { OnOk result (wire_of self.new ≡ released_of (wire_of self.old) n res value) }
        ensures err { OnErr result (wire_of self.new ≡ wire_of self.old) }
    {
        self.known(n)?;
        self.locals.get(n, res).may_release()?;
        self.room(1)?;
        self.say(n, res, Local::Free, Packet::Release(res, value));
        Ok(())
    }

    fn is_live(&self, n: NodeId) -> bool
        requires { n < 16 }
        ensures { result ≡ (wire_of self.now).live n }
    {
        self.live[n as usize]
    }

    // Whether the node lives, and its report on the resource isn't taken.
    fn is_awaited(&self, res: usize, n: NodeId) -> bool
        requires res { res < 21 }
        requires node { n < 16 }
        ensures { result ≡ is_awaited (wire_of self.now) res n }
    {
        self.is_live(n) && self.wards.awaits(res, n)
    }

    // The least live node whose report on the resource isn't taken.
    fn first_awaited(&self, res: usize) -> Option<NodeId>
        requires { res < 21 }
        ensures { result ≡ first_awaited (wire_of self.now) res }
    {
        for n in 0..16 {
            if self.is_awaited(res, n) {
                return Some(n);
            }
        }
        None
    }

    // Whom the master is to name to the node: the asker at the head, where that disagrees with
    // what the node holds, and wasn't the one named last.
    fn named(&self, m: NodeId, res: usize, n: NodeId) -> Option<NodeId>
        requires master { m < 16 }
        requires res { res < 21 }
        requires node { n < 16 }
        ensures { result ≡ named (wire_of self.now) m res n }
    {
        let asker = self.tables.caller(m, n, res)?;
        if self.wards.called(res, n) == Some(asker) {
            return None;
        }
        Some(asker)
    }

    fn call_one(&mut self, m: NodeId, res: usize, n: NodeId)
        requires master { m < 16 }
        requires res { res < 21 }
        requires node { n < 16 }
        requires room { 0 < self.old.links.room }
        ensures wire { wire_of self.new ≡ calls_one (wire_of self.old) m res n }
        ensures room { self.old.links.room ≤ self.new.links.room + 1 }
    {
        if let Some(asker) = self.named(m, res, n) {
            self.wards.call(res, n, asker);
            self.links.send(m, n, Packet::Called(res, asker));
        }
    }

    // The master names the asker at the head to each holder that disagrees with it.
    fn call_out(&mut self, m: NodeId, res: usize)
        requires master { m < 16 }
        requires res { res < 21 }
        requires room { 16 ≤ self.old.links.room }
        ensures wire { wire_of self.new ≡ calls_out (wire_of self.old) m res }
        ensures room { self.old.links.room ≤ self.new.links.room + 16 }
    {
        for n in 0..16 {
            self.call_one(m, res, n);
        }
    }

    // The same, unless a report on the resource is awaited.
    fn call_unless(&mut self, m: NodeId, res: usize)
        requires master { m < 16 }
        requires res { res < 21 }
        requires room { 16 ≤ self.old.links.room }
        ensures wire { wire_of self.new ≡ then_calls (wire_of self.old) m res }
        ensures room { self.old.links.room ≤ self.new.links.room + 16 }
    {
        match self.first_awaited(res) {
            None => self.call_out(m, res),
            Some(_) => {}
        }
    }

    fn enter(&mut self, m: NodeId, n: NodeId, res: usize, state: Local)
        requires master { m < 16 }
        requires node { n < 16 }
        requires res { res < 21 }
        ensures wire { let old = wire_of self.old in wire_of self.new
            ≡ taken_report (with_table old m res (entered (old.table m res) n state)) res n }
        ensures room { self.new.links ≡ self.old.links }
    {
        self.tables.enter(m, n, res, state);
        self.wards.take_report(res, n);
    }

    // The master enters what the node reports of its lock on one resource.
    fn take_state(&mut self, m: NodeId, n: NodeId, res: usize, state: Option<Local>)
        requires master { m < 16 }
        requires node { n < 16 }
        requires res { res < 21 }
        requires room { 16 ≤ self.old.links.room }
        ensures wire { wire_of self.new ≡ reported_one (wire_of self.old) n m res state }
        ensures room { self.old.links.room ≤ self.new.links.room + 16 }
    {
        if let Some(state) = state {
            self.enter(m, n, res, state);
            self.call_unless(m, res);
        }
    }

    fn take_report(&mut self, m: NodeId, n: NodeId, states: &[Option<Local>; 21])
        requires master { m < 16 }
        requires node { n < 16 }
        requires room { 336 ≤ self.old.links.room }
        ensures { wire_of self.new ≡ reported (wire_of self.old) n m states.now 21 }
    {
        for res in 0..21 {
            self.take_state(m, n, res, states[res]);
        }
    }

    // The calls of the master on its table.

    fn hear_ask(&mut self, m: NodeId, n: NodeId, res: usize, mode: Mode)
        requires master { m < 16 }
        requires node { n < 16 }
        requires res { res < 21 }
        ensures wire { let old = wire_of self.old in wire_of self.new
            ≡ with_table old m res (asking (old.table m res) n mode) }
        ensures room { self.new.links ≡ self.old.links }
    {
        self.tables.ask(m, n, res, mode);
    }

    fn hear_convert(&mut self, m: NodeId, n: NodeId, res: usize, mode: Mode, value: Option<Block>)
        requires master { m < 16 }
        requires node { n < 16 }
        requires res { res < 21 }
        ensures wire { let old = wire_of self.old in let lock = old.table m res in wire_of self.new
            ≡ with_table (written old res (convert_writes lock n mode value)) m res
            (converts lock n mode value) }
        ensures room { self.new.links ≡ self.old.links }
    {
        let writes = self.tables.convert(m, n, res, mode, value);
        self.wards.freshen(res, writes);
    }

    fn hear_release(&mut self, m: NodeId, n: NodeId, res: usize, value: Option<Block>)
        requires master { m < 16 }
        requires node { n < 16 }
        requires res { res < 21 }
        ensures wire { let old = wire_of self.old in let lock = old.table m res in wire_of self.new
            ≡ with_table (written old res (release_writes lock n value)) m res (releases lock n value) }
        ensures room { self.new.links ≡ self.old.links }
    {
        let writes = self.tables.release(m, n, res, value);
        self.wards.freshen(res, writes);
    }

    fn hold(&mut self, n: NodeId, res: usize, mode: Mode)
        requires node { n < 16 }
        requires res { res < 21 }
        ensures { wire_of self.new ≡ with_local (wire_of self.old) n res (Local.Held mode) }
    {
        self.locals.set(n, res, Local::Held(mode));
    }

    fn take_packet(&mut self, from: NodeId, to: NodeId, packet: Packet)
        requires from { from < 16 }
        requires to { to < 16 }
        requires range { IsOfResource packet }
        requires room { most_calls packet ≤ self.old.links.room }
        ensures { wire_of self.new ≡ received (wire_of self.old) from to (Some packet) }
    {
        match packet {
            Packet::Ask(res, mode) => {
                self.hear_ask(to, from, res, mode);
                self.call_unless(to, res);
            }
            Packet::Convert(res, mode, value) => {
                self.hear_convert(to, from, res, mode, value);
                self.call_unless(to, res);
            }
            Packet::Release(res, value) => {
                self.hear_release(to, from, res, value);
                self.call_unless(to, res);
            }
            Packet::Granted(res, granted) => self.hold(to, res, granted.mode),
            Packet::Called(_, _) => {}
            Packet::Report(states) => self.take_report(to, from, &states),
        }
    }

    // The first packet is off the link.
    fn take_off(&mut self, from: NodeId, to: NodeId)
        ensures wire { let old = wire_of self.old in wire_of self.new
            ≡ record old { link = with_cell old.link from to (rest (old.link from to)) } }
        ensures room { self.old.links.room ≤ self.new.links.room }
    {
        self.links.take(from, to);
    }

    /// The second node takes the first packet on the link from the first node, and says its kind.
    /// A master makes the call of an Ask, a Convert or a Release on its table, enters what a
    /// Report says, and names a new asker to the holders in its way; a node holds what a Granted
    /// gives it. After NoNode and Fenced of the first node and then of the second,
    /// `Refusal::LinkEmpty` where the link has no packet.
    pub fn deliver(&mut self, from: NodeId, to: NodeId) -> Result<Taken, WireEnd>
        ensures refused { IsAnswered (deliver_refusal (wire_of self.old) from to) result }
        ensures kind { IfOk result (λ k. Some k ≡ option_map kind_of (first ((wire_of self.old).link from to))) }
        ensures ok { OnOk result (wire_of self.new ≡ delivered (wire_of self.old) from to) }
        ensures err { OnErr result (wire_of self.new ≡ wire_of self.old) }
    {
        self.known(from)?;
        self.known(to)?;
        let Some(packet) = self.links.first(from, to) else {
            return Err(WireEnd::Refused(Refusal::LinkEmpty { from, to }));
        };
        self.room(most_calls(&packet))?;
        self.take_off(from, to);
        self.take_packet(from, to, packet);
        Ok(packet.kind())
    }

    // The master serves the head, tells the node, and forgets whom it named to whom.
    fn grant(&mut self, m: NodeId, res: usize) -> Result<Granted, LockError>
        requires master { m < 16 }
        requires res { res < 21 }
        requires room { 0 < self.old.links.room }
        ensures refused { result_err result ≡ grant_refusal ((wire_of self.old).table m res) }
        ensures answer { let old = wire_of self.old in IfOk result (λ g. Some g
            ≡ option_map (told (old.ward res).stale) (grant_answer (old.table m res))) }
        ensures ok { IfOk result (λ g. wire_of self.new ≡ granting (wire_of self.old) m res g) }
        ensures err { OnErr result (wire_of self.new ≡ wire_of self.old) }
        ensures room { self.old.links.room ≤ self.new.links.room + 1 }
    {
        let granted = self.tables.grant(m, res)?;
        let told = Granted {
            valid: granted.valid && !self.wards.is_stale(res),
            ..granted
        };
        self.wards.forget(res);
        self.links.send(m, told.node, Packet::Granted(res, told));
        Ok(told)
    }

    /// The master of the resource serves the head of its queues, sends a Granted to it, and names
    /// the next asker to the holders in its way. `Refusal::NotUp` where the master is dead, as
    /// all nodes then are; `Refusal::Rebuilding` with the least live node whose report it hasn't
    /// taken; then `NothingAsked` and `NotGrantable` as `Space::grant`. The block is told as
    /// valid only where the table has it so and, after a change of masters, a holder of PW or EX
    /// wrote it since.
    pub fn serve(&mut self, res: usize) -> Result<Granted, WireEnd>
        requires { res < 21 }
        ensures refused { IsAnswered (serve_refusal (wire_of self.old) res) result }
        ensures answer { IfOk result (λ g. Some g ≡ serve_answer (wire_of self.old) res) }
        ensures ok { OnOk result (wire_of self.new ≡ served (wire_of self.old) res) }
        ensures err { OnErr result (wire_of self.new ≡ wire_of self.old) }
    {
        let m = self.wards.master(res);
        if !self.is_live(m) {
            return Err(WireEnd::Refused(Refusal::NotUp(m)));
        }
        if let Some(n) = self.first_awaited(res) {
            return Err(WireEnd::Refused(Refusal::Rebuilding(n)));
        }
        self.room(17)?;
        let told = match self.grant(m, res) {
            Ok(told) => told,
            Err(e) => return Err(WireEnd::Lock(e)),
        };
        self.call_out(m, res);
        Ok(told)
    }

    // The least live node.
    fn first_live(&self) -> Option<NodeId>
        ensures least { result ≡ heir (wire_of self.now) }
        ensures range { IfSome result (λ n. n < 16) }
    {
        for n in 0..16 {
            if self.is_live(n) {
                return Some(n);
            }
        }
        None
    }

    // The node is gone, with its packets, its local states, and its entries in all tables.
    fn remove(&mut self, n: NodeId)
        requires { n < 16 }
        ensures wire { wire_of self.new ≡ without_node (wire_of self.old) n }
        ensures room { self.old.links.room ≤ self.new.links.room }
    {
        self.live[n as usize] = false;
        self.locals.clear(n);
        self.links.drop_node(n);
        self.tables.die(n);
    }

    fn state(&self, dead: NodeId, n: NodeId, res: usize) -> Option<Local>
        requires node { n < 16 }
        requires res { res < 21 }
        ensures { let w = wire_of self.now in result
            ≡ (if master_of w res == dead then Some (w.local n res) else None) }
    {
        if self.wards.master(res) == dead {
            Some(self.locals.get(n, res))
        } else {
            None
        }
    }

    // What the node reports of the resources of the dead master.
    fn states(&self, dead: NodeId, n: NodeId) -> [Option<Local>; 21]
        requires { n < 16 }
        ensures { result ≡ states_below (wire_of self.now) dead n 21 }
    {
        let mut states = [None; 21];
        for res in 0..21 {
            states[res] = self.state(dead, n, res);
        }
        states
    }

    // The node reports to the new master.
    fn report(&mut self, dead: NodeId, n: NodeId, m: NodeId)
        requires node { n < 16 }
        requires room { 0 < self.old.links.room }
        ensures wire { let old = wire_of self.old in wire_of self.new
            ≡ record old { link = with_cell old.link n m (old.link n m ++ report_of old dead n ∷ []) } }
        ensures room { self.new.links.room + 1 ≡ self.old.links.room }
    {
        let states = self.states(dead, n);
        self.links.send(n, m, Packet::Report(states));
    }

    // Each live node reports to the new master.
    fn report_all(&mut self, dead: NodeId, m: NodeId)
        requires { 16 ≤ self.old.links.room }
        ensures { wire_of self.new ≡ reports_below (wire_of self.old) dead m 16 }
    {
        for n in 0..16 {
            if self.is_live(n) {
                self.report(dead, n, m);
            }
        }
    }

    // The new master takes over.
    fn take_over(&mut self, dead: NodeId, m: NodeId)
        requires dead { dead < 16 }
        requires master { m < 16 }
        requires room { 16 ≤ self.old.links.room }
        ensures { wire_of self.new ≡ taken_over (wire_of self.old) dead (Some m) }
    {
        self.report_all(dead, m);
        self.wards.take_over(dead, m, &self.live);
    }

    /// The node dies. The packets on its links go, and each master drops what it held and asked.
    /// The least live node becomes the master of its resources, with empty tables and blocks that
    /// aren't valid, and each live node, that one too, reports its local states of these to it.
    pub fn die(&mut self, n: NodeId) -> Result<(), WireEnd>
        ensures refused { IsAnswered (node_refusal (wire_of self.old) n) result }
        ensures ok { OnOk result (wire_of self.new ≡ died_of (wire_of self.old) n) }
        ensures err { OnErr result (wire_of self.new ≡ wire_of self.old) }
    {
        self.known(n)?;
        self.room(16)?;
        self.remove(n);
        if let Some(m) = self.first_live() {
            self.take_over(n, m);
        }
        Ok(())
    }

    /// What the node holds: the local mode, of a conversion that waits the one from which it
    /// goes. None where it is dead or there is no such node.
    pub fn holds(&self, n: NodeId, res: usize) -> Option<Mode>
        requires { res < 21 }
        ensures { result ≡ holds_of (wire_of self.now) n res }
    {
        if n < self.nodes && self.live[n as usize] {
            self.locals.get(n, res).held()
        } else {
            None
        }
    }
}

// How many Calleds may follow a packet: one to each node, for each resource of which it speaks.
fn most_calls(packet: &Packet) -> usize
    ensures { result ≡ most_calls packet.now }
{
    match packet {
        Packet::Report(_) => 336,
        _ => 16,
    }
}

// Whether the conversion is taken at once.
fn converting_answer(from: Mode, to: Mode) -> Converted
    ensures { result ≡ locals.converting_answer from to }
{
    if weaker(from, to) {
        Converted::Now
    } else {
        Converted::Queued
    }
}
