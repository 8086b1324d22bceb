ghost use Rattle.std.specs.Prelude.{◌≡◌, ◌<◌, ℕ, IfOk, OnOk, OnErr, Some, unwrap_or};
ghost use Rattle.std.specs.Result.{result_err};
ghost use Rattle.dlm_modes.specs.Points.{with_at};
ghost use Rattle.dlm_modes.specs.declared.mode.Mode.TheVariants.{NL};
ghost use Rattle.dlm_space.specs.Locks.{new_locks, is_writer, all_died, granted, grant_refusal, grant_answer};
ghost use Rattle.dlm_space.specs.Parts.{locks_of};
ghost use Rattle.lock_wire.specs.Parts.{tables_of};
ghost use Rattle.lock_wire.specs.Machine.{with_cell, asking, asking_now, converts, releases, entered, convert_writes, release_writes, caller_of};

use crate::Local;
use dlm_modes::{Block, Mode};
use dlm_space::{Converted, Granted, LockError, Space};
use mdc_types::NodeId;
use std::alloc::{AllocError, Global};
use std::marker::Model;

// The tables of sixteen nodes. Of its own resources each keeps the locks as their master.
#[derive(Drop)]
pub struct Tables {
    spaces: Vec<Space>,
}

impl Model for Tables {
    ghost use Rattle.std.specs.Prelude.{◌≡◌, List, length};
    ghost use Rattle.dlm_space.specs.Parts.{Part};

    ghost Value = { List (List Part) };

    ghost view = { λ t. t.spaces.items };

    ghost invariant = { λ t. length t.spaces.items ≡ 16 };
}

fn is_writer(mode: Option<Mode>) -> bool
    ensures { result ≡ is_writer (unwrap_or mode NL) }
{
    matches!(mode, Some(Mode::PW | Mode::EX))
}

// The calls of a master on its table. Where the table refuses one nothing changes.

fn ask(space: &mut Space, n: NodeId, res: usize, mode: Mode)
    requires node { n < 16 }
    requires res { res < 21 }
    ensures { let old = locks_of space.old in locks_of space.new
        ≡ with_at old res (asking (old res) n mode) }
{
    let _ = space.ask(n, res, mode);
}

fn ask_now(space: &mut Space, n: NodeId, res: usize, mode: Mode)
    requires node { n < 16 }
    requires res { res < 21 }
    ensures { let old = locks_of space.old in locks_of space.new
        ≡ with_at old res (asking_now (old res) n mode) }
{
    let _ = space.ask_now(n, res, mode);
}

// It says whether the value was written to the block.
fn convert(space: &mut Space, n: NodeId, res: usize, mode: Mode, value: Option<Block>) -> bool
    requires node { n < 16 }
    requires res { res < 21 }
    ensures writes { result ≡ convert_writes (locks_of space.old res) n mode value }
    ensures lock { let old = locks_of space.old in locks_of space.new
        ≡ with_at old res (converts (old res) n mode value) }
{
    let from = space.holder(res, n);
    match space.convert(n, res, mode, value) {
        Ok(Converted::Now) => value.is_some() && is_writer(from),
        _ => false,
    }
}

// It says whether the value was written to the block.
fn release(space: &mut Space, n: NodeId, res: usize, value: Option<Block>) -> bool
    requires node { n < 16 }
    requires res { res < 21 }
    ensures writes { result ≡ release_writes (locks_of space.old res) n value }
    ensures lock { let old = locks_of space.old in locks_of space.new
        ≡ with_at old res (releases (old res) n value) }
{
    let from = space.holder(res, n);
    let _ = space.release(n, res, value);
    value.is_some() && is_writer(from)
}

// What the node reports of its own lock.
fn enter(space: &mut Space, n: NodeId, res: usize, state: Local)
    requires node { n < 16 }
    requires res { res < 21 }
    ensures { let old = locks_of space.old in locks_of space.new
        ≡ with_at old res (entered (old res) n state) }
{
    match state {
        Local::Free => {}
        Local::Asking(to) => ask(space, n, res, to),
        Local::Held(mode) => ask_now(space, n, res, mode),
        Local::Converting(from, to) => {
            ask_now(space, n, res, from);
            let _ = convert(space, n, res, to, None);
        }
    }
}

fn die_all(spaces: &mut [Space], n: NodeId)
    requires { n < 16 }
    ensures { tables_of spaces.new ≡ (λ m. all_died (tables_of spaces.old m) n) }
{
    for space in spaces {
        space.die(n);
    }
}

impl Tables {
    // All are empty.
    pub fn new(alloc: Global) -> Result<Tables, AllocError>
        ensures { IfOk result (λ t. tables_of t ≡ (λ m. new_locks)) }
    {
        let mut spaces = Vec::new(alloc);
        for _k in 0..16usize {
            spaces.push(Space::new())?;
        }
        Ok(Tables { spaces })
    }

    // The node asks.
    pub fn ask(&mut self, m: NodeId, n: NodeId, res: usize, mode: Mode)
        requires master { m < 16 }
        requires node { n < 16 }
        requires res { res < 21 }
        ensures { let old = tables_of self.old in tables_of self.new
            ≡ with_cell old m res (asking (old m res) n mode) }
    {
        ask(&mut self.spaces[m as usize], n, res, mode);
    }

    // The node converts. It says whether the value was written to the block.
    pub fn convert(
        &mut self,
        m: NodeId,
        n: NodeId,
        res: usize,
        mode: Mode,
        value: Option<Block>,
    ) -> bool
        requires master { m < 16 }
        requires node { n < 16 }
        requires res { res < 21 }
        ensures writes { result ≡ convert_writes (tables_of self.old m res) n mode value }
        ensures table { let old = tables_of self.old in tables_of self.new
            ≡ with_cell old m res (converts (old m res) n mode value) }
    {
        convert(&mut self.spaces[m as usize], n, res, mode, value)
    }

    // The node releases. It says whether the value was written to the block.
    pub fn release(&mut self, m: NodeId, n: NodeId, res: usize, value: Option<Block>) -> bool
        requires master { m < 16 }
        requires node { n < 16 }
        requires res { res < 21 }
        ensures writes { result ≡ release_writes (tables_of self.old m res) n value }
        ensures table { let old = tables_of self.old in tables_of self.new
            ≡ with_cell old m res (releases (old m res) n value) }
    {
        release(&mut self.spaces[m as usize], n, res, value)
    }

    // Enters what the node reports of its own lock.
    pub fn enter(&mut self, m: NodeId, n: NodeId, res: usize, state: Local)
        requires master { m < 16 }
        requires node { n < 16 }
        requires res { res < 21 }
        ensures { let old = tables_of self.old in tables_of self.new
            ≡ with_cell old m res (entered (old m res) n state) }
    {
        enter(&mut self.spaces[m as usize], n, res, state);
    }

    // Serves the head.
    pub fn grant(&mut self, m: NodeId, res: usize) -> Result<Granted, LockError>
        requires master { m < 16 }
        requires res { res < 21 }
        ensures refused { result_err result ≡ grant_refusal (tables_of self.old m res) }
        ensures answer { IfOk result (λ g. Some g ≡ grant_answer (tables_of self.old m res)) }
        ensures ok { let old = tables_of self.old in OnOk result (tables_of self.new
            ≡ with_cell old m res (granted (old m res))) }
        ensures err { OnErr result (self.new ≡ self.old) }
    {
        self.spaces[m as usize].grant(res)
    }

    // The node is gone from all tables.
    pub fn die(&mut self, n: NodeId)
        requires { n < 16 }
        ensures { tables_of self.new ≡ (λ m. all_died (tables_of self.old m) n) }
    {
        die_all(&mut self.spaces, n);
    }

    // The asker at the head whose mode disagrees with what the node holds.
    pub fn caller(&self, m: NodeId, n: NodeId, res: usize) -> Option<NodeId>
        requires master { m < 16 }
        requires node { n < 16 }
        requires res { res < 21 }
        ensures { result ≡ caller_of (tables_of self.now m res) n }
    {
        self.spaces[m as usize].calls(n, res)
    }
}
