ghost use Rattle.std.specs.Prelude.{◌≡◌, ◌<◌, ℕ, IfOk, IfSome, OnOk, OnErr, Some};
ghost use Rattle.std.specs.Option.{option_map};
ghost use Rattle.std.specs.Result.{result_err};
ghost use Rattle.dlm_space.specs.Queues.{head};
ghost use Rattle.dlm_modes.specs.Points.{with_at};
ghost use Rattle.dlm_space.specs.Locks.{new_locks, ask_refusal, ask_now_refusal, convert_refusal, convert_now_refusal, grant_refusal, release_refusal, asked, asked_now, converted, converted_now, granted, released, all_let_go, all_died, valid_block, convert_answer, grant_answer, caller, blocker};
ghost use Rattle.dlm_space.specs.Parts.{locks_of};

use crate::resource::Resource;
use crate::{Converted, Granted, LockError};
use dlm_modes::{Block, Mode};
use std::array;
use std::marker::Model;

/// A lock space: twenty-one resources, for sixteen nodes. A refused call changes nothing.
///
/// Each resource has holders, a queue of conversions and a queue of requests, each first in first
/// out, and a value block of 64 bytes with a mark of its validity. Conversions are served before
/// requests.
///
/// Contracts see the list of the resources' parts, and speak of the locks that they stand for.
#[derive(Drop)]
pub struct Space {
    resources: [Resource; 21],
}

impl Model for Space {
    ghost use Rattle.std.specs.Prelude.{List};
    ghost use Rattle.dlm_space.specs.Parts.{Part};

    ghost Value = { List Part };

    ghost view = { λ s. s.resources };
}

fn leave_all(resources: &mut [Resource], node: u8)
    requires { node < 16 }
    ensures { locks_of resources.new ≡ all_died (locks_of resources.old) node }
{
    for resource in resources {
        resource.die(node);
    }
}

fn let_go_all(resources: &mut [Resource], node: u8)
    requires { node < 16 }
    ensures { locks_of resources.new ≡ all_let_go (locks_of resources.old) node }
{
    for resource in resources {
        resource.let_go(node);
    }
}

impl Space {
    /// Nobody holds or asks anything, and each block is 64 zero bytes and valid.
    pub fn new() -> Space
        ensures { locks_of result ≡ new_locks }
    {
        Space {
            resources: array::from_fn(|_| Resource::new()),
        }
    }

    /// The node asks for the mode, and waits. `NotFree` where it holds or asks the resource.
    pub fn ask(&mut self, node: u8, res: usize, mode: Mode) -> Result<(), LockError>
        requires node { node < 16 }
        requires res { res < 21 }
        ensures refused { result_err result ≡ ask_refusal (locks_of self.old res) node }
        ensures ok { OnOk result (locks_of self.new ≡ with_at (locks_of self.old) res (asked (locks_of self.old res) node mode)) }
        ensures err { OnErr result (self.new ≡ self.old) }
    {
        self.resources[res].ask(node, mode)
    }

    /// The node takes the mode at once, with nobody asked, and gets the block, or None where the block
    /// is invalid. `NotFree` where it holds or asks the resource, then `Blocked` where a holder
    /// disagrees.
    pub fn ask_now(&mut self, node: u8, res: usize, mode: Mode) -> Result<Option<Block>, LockError>
        requires node { node < 16 }
        requires res { res < 21 }
        ensures refused { result_err result ≡ ask_now_refusal (locks_of self.old res) node mode }
        ensures value { IfOk result (λ value. value ≡ valid_block (locks_of self.old res)) }
        ensures ok { OnOk result (locks_of self.new ≡ with_at (locks_of self.old) res (asked_now (locks_of self.old res) node mode)) }
        ensures err { OnErr result (self.new ≡ self.old) }
    {
        self.resources[res].ask_now(node, mode)
    }

    /// The node converts what it holds to the mode. A weaker mode, or the same, is taken at once, and
    /// then a given value is written from PW or EX, which makes the block valid. Else the conversion
    /// waits, and no value is written. `NotHeld` where the node doesn't hold the resource, then
    /// `AlreadyAsked` where a conversion of it waits.
    pub fn convert(
        &mut self,
        node: u8,
        res: usize,
        mode: Mode,
        value: Option<Block>,
    ) -> Result<Converted, LockError>
        requires node { node < 16 }
        requires res { res < 21 }
        ensures refused { result_err result ≡ convert_refusal (locks_of self.old res) node }
        ensures answer { IfOk result (λ c. c ≡ convert_answer (locks_of self.old res) node mode) }
        ensures ok { OnOk result (locks_of self.new ≡ with_at (locks_of self.old) res (converted (locks_of self.old res) node mode value)) }
        ensures err { OnErr result (self.new ≡ self.old) }
    {
        self.resources[res].convert(node, mode, value)
    }

    /// The node converts what it holds to the mode at once, and neither writes nor gets the block. As
    /// `convert`, then `Blocked` where another holder disagrees.
    pub fn convert_now(&mut self, node: u8, res: usize, mode: Mode) -> Result<(), LockError>
        requires node { node < 16 }
        requires res { res < 21 }
        ensures refused { result_err result ≡ convert_now_refusal (locks_of self.old res) node mode }
        ensures ok { OnOk result (locks_of self.new ≡ with_at (locks_of self.old) res (converted_now (locks_of self.old res) node mode)) }
        ensures err { OnErr result (self.new ≡ self.old) }
    {
        self.resources[res].convert_now(node, mode)
    }

    /// Serves the first conversion, else the first request. The block is handed out where the
    /// conversion, which for a request is one from NL, reads it. `NothingAsked` where nobody waits,
    /// `NotGrantable` where another holder disagrees.
    pub fn grant(&mut self, res: usize) -> Result<Granted, LockError>
        requires { res < 21 }
        ensures refused { result_err result ≡ grant_refusal (locks_of self.old res) }
        ensures answer { IfOk result (λ g. Some g ≡ grant_answer (locks_of self.old res)) }
        ensures ok { OnOk result (locks_of self.new ≡ with_at (locks_of self.old) res (granted (locks_of self.old res))) }
        ensures err { OnErr result (self.new ≡ self.old) }
    {
        self.resources[res].grant()
    }

    /// The node lets go of the resource, and its waiting conversion is dropped. A given value is
    /// written from PW or EX, which makes the block valid. `NotHeld` where the node doesn't hold the
    /// resource; then its request, if it waits, stays.
    pub fn release(&mut self, node: u8, res: usize, value: Option<Block>) -> Result<(), LockError>
        requires node { node < 16 }
        requires res { res < 21 }
        ensures refused { result_err result ≡ release_refusal (locks_of self.old res) node }
        ensures ok { OnOk result (locks_of self.new ≡ with_at (locks_of self.old) res (released (locks_of self.old res) node value)) }
        ensures err { OnErr result (self.new ≡ self.old) }
    {
        self.resources[res].release(node, value)
    }

    /// The node lets go of all that it holds, and its waiting conversions are dropped. No value is
    /// written, so each block stays as it is, valid or not. The node's requests stay.
    pub fn release_all(&mut self, node: u8)
        requires { node < 16 }
        ensures { locks_of self.new ≡ all_let_go (locks_of self.old) node }
    {
        let_go_all(&mut self.resources, node);
    }

    /// The node dies: it holds and asks nothing any more, and each block whose resource it held in PW
    /// or EX is invalid.
    pub fn die(&mut self, node: u8)
        requires { node < 16 }
        ensures { locks_of self.new ≡ all_died (locks_of self.old) node }
    {
        leave_all(&mut self.resources, node);
    }

    /// The asker at the head whose mode disagrees with what this other node holds.
    pub fn calls(&self, node: u8, res: usize) -> Option<u8>
        requires node { node < 16 }
        requires res { res < 21 }
        ensures { result ≡ caller (locks_of self.now res) node }
    {
        self.resources[res].caller(node)
    }

    /// The least other holder that disagrees with the mode of the node.
    pub fn blocker(&self, res: usize, node: u8, mode: Mode) -> Option<u8>
        requires { res < 21 }
        ensures least { result ≡ blocker (locks_of self.now res) node mode }
        ensures node { IfSome result (λ m. m < 16) }
    {
        self.resources[res].blocker(node, mode)
    }

    /// What the node holds.
    pub fn holder(&self, res: usize, node: u8) -> Option<Mode>
        requires res { res < 21 }
        requires node { node < 16 }
        ensures { result ≡ (locks_of self.now res).held node }
    {
        self.resources[res].holder(node)
    }

    /// The value block, and whether it is valid.
    pub fn block(&self, res: usize) -> (Block, bool)
        requires { res < 21 }
        ensures block { result.0 ≡ (locks_of self.now res).block }
        ensures valid { result.1 ≡ (locks_of self.now res).valid }
    {
        self.resources[res].block()
    }

    /// The node and the mode of the first conversion, else of the first request.
    pub fn head(&self, res: usize) -> Option<(u8, Mode)>
        requires { res < 21 }
        ensures { result ≡ option_map (λ a. (a.node, a.mode)) (head (locks_of self.now res).conversions (locks_of self.now res).requests) }
    {
        let a = self.resources[res].head()?;
        Some((a.node, a.mode))
    }
}

impl Default for Space {
    ghost is_default = { λ s. locks_of s ≡ new_locks };

    fn default() -> Space {
        Space::new()
    }
}
