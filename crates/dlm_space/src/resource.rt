ghost use Rattle.std.specs.Prelude.{◌≡◌, ◌<◌, ◌∷◌, [], IfNone, IfSome, IfOk, OnOk, OnErr, Some};
ghost use Rattle.std.specs.Result.{result_err};
ghost use Rattle.dlm_space.specs.Queues.{asks, without, head};
ghost use Rattle.dlm_space.specs.Locks.{new_lock, mode_of, is_writer, disagrees, is_against, blocker, ask_refusal, ask_now_refusal, blocked, convert_refusal, convert_now_refusal, grant_refusal, release_refusal, holding, with_value, asked, asked_now, converted, converted_now, granted, let_go, released, died, valid_block, convert_answer, answer_to, grant_answer, caller, converted_value, released_value};
ghost use Rattle.dlm_space.specs.Parts.{lock_of};

use crate::{Ask, Converted, Granted, LockError};
use arrayvec::ArrayVec;
use dlm_modes::{Block, Mode, agrees, reads_value, weaker, writes_value};
use std::marker::Model;

// One resource: what each node holds, who waits, and the value block.
#[derive(Drop)]
pub struct Resource {
    held: [Option<Mode>; 16],
    conversions: ArrayVec<Ask, 16>,
    requests: ArrayVec<Ask, 16>,
    block: Block,
    valid: bool,
}

impl Model for Resource {
    ghost use Rattle.dlm_space.specs.Parts.{Part, IsQueue};

    ghost Value = { Part };

    ghost view = { λ r. record {
      held = r.held;
      conversions = r.conversions.items;
      requests = r.requests.items;
      block = r.block;
      valid = r.valid;
    } };

    ghost invariant = { λ r. IsQueue r.conversions.items × IsQueue r.requests.items };
}

fn is_writer(mode: Mode) -> bool
    ensures { result ≡ is_writer mode }
{
    matches!(mode, Mode::PW | Mode::EX)
}

fn disagrees(mode: Mode, held: Option<Mode>) -> bool
    ensures { result ≡ disagrees mode held }
{
    match held {
        Some(held) => !agrees(mode, held),
        None => false,
    }
}

// The value that a conversion between the modes writes.
fn converted_value(from: Mode, to: Mode, value: Option<Block>) -> Option<Block>
    ensures { result ≡ converted_value from to value }
{
    if writes_value(from, to) { value } else { None }
}

// The value that the release of the mode writes.
fn released_value(from: Mode, value: Option<Block>) -> Option<Block>
    ensures { result ≡ released_value from value }
{
    if is_writer(from) { value } else { None }
}

fn asks(node: u8, queue: &[Ask]) -> bool
    ensures { result ≡ asks node queue.now }
{
    queue.iter().any(|a| a.node == node)
}

fn leave(node: u8, queue: &mut ArrayVec<Ask, 16>)
    ensures { queue.new.items ≡ without node queue.old.items }
{
    queue.retain(|a| a.node != node);
}

fn take_first(queue: &mut ArrayVec<Ask, 16>) -> Option<Ask>
    ensures first { IfSome result (λ a. queue.old.items ≡ a ∷ queue.new.items) }
    ensures none { IfNone result ((queue.old.items ≡ []) × (queue.new ≡ queue.old)) }
{
    queue.pop_at(0)
}

fn head(conversions: &[Ask], requests: &[Ask]) -> Option<Ask>
    ensures { result ≡ head conversions.now requests.now }
{
    conversions.first().or(requests.first()).copied()
}

impl Resource {
    // Nobody holds or asks it, and its block is zero and valid.
    pub fn new() -> Resource
        ensures { lock_of result ≡ new_lock }
    {
        Resource {
            held: [None; 16],
            conversions: ArrayVec::new(),
            requests: ArrayVec::new(),
            block: Block::ZERO,
            valid: true,
        }
    }

    pub fn holder(&self, node: u8) -> Option<Mode>
        requires { node < 16 }
        ensures { result ≡ (lock_of self.now).held node }
    {
        self.held[node as usize]
    }

    pub fn block(&self) -> (Block, bool)
        ensures block { result.0 ≡ self.now.block }
        ensures valid { result.1 ≡ self.now.valid }
    {
        (self.block, self.valid)
    }

    pub fn head(&self) -> Option<Ask>
        ensures { result ≡ head self.now.conversions self.now.requests }
    {
        head(&self.conversions, &self.requests)
    }

    fn mode_of(&self, node: u8) -> Mode
        requires { node < 16 }
        ensures { result ≡ mode_of (lock_of self.now) node }
    {
        self.held[node as usize].unwrap_or(Mode::NL)
    }

    // Whether `m` is another node, which holds what disagrees with the mode of `node`.
    fn is_against(&self, node: u8, mode: Mode, m: u8) -> bool
        requires { m < 16 }
        ensures { result ≡ is_against (lock_of self.now) node mode m }
    {
        m != node && disagrees(mode, self.held[m as usize])
    }

    // The least other holder that disagrees with the mode of the node.
    pub fn blocker(&self, node: u8, mode: Mode) -> Option<u8>
        ensures least { result ≡ blocker (lock_of self.now) node mode }
        ensures node { IfSome result (λ m. m < 16) }
    {
        for m in 0..16 {
            if self.is_against(node, mode, m) {
                return Some(m);
            }
        }
        None
    }

    fn may_ask(&self, node: u8) -> Result<(), LockError>
        requires { node < 16 }
        ensures { result_err result ≡ ask_refusal (lock_of self.now) node }
    {
        if self.held[node as usize].is_some() || asks(node, &self.requests) {
            return Err(LockError::NotFree);
        }
        Ok(())
    }

    fn may_take(&self, node: u8, mode: Mode) -> Result<(), LockError>
        ensures { result_err result ≡ blocked (lock_of self.now) (blocker (lock_of self.now) node mode) }
    {
        if let Some(holder) = self.blocker(node, mode) {
            return Err(LockError::Blocked {
                holder,
                mode: self.mode_of(holder),
            });
        }
        Ok(())
    }

    fn may_ask_now(&self, node: u8, mode: Mode) -> Result<(), LockError>
        requires { node < 16 }
        ensures { result_err result ≡ ask_now_refusal (lock_of self.now) node mode }
    {
        self.may_ask(node)?;
        self.may_take(node, mode)
    }

    fn may_release(&self, node: u8) -> Result<(), LockError>
        requires { node < 16 }
        ensures { result_err result ≡ release_refusal (lock_of self.now) node }
    {
        if self.held[node as usize].is_none() {
            return Err(LockError::NotHeld);
        }
        Ok(())
    }

    fn may_convert(&self, node: u8) -> Result<(), LockError>
        requires { node < 16 }
        ensures { result_err result ≡ convert_refusal (lock_of self.now) node }
    {
        self.may_release(node)?;
        if asks(node, &self.conversions) {
            return Err(LockError::AlreadyAsked);
        }
        Ok(())
    }

    fn may_convert_now(&self, node: u8, mode: Mode) -> Result<(), LockError>
        requires { node < 16 }
        ensures { result_err result ≡ convert_now_refusal (lock_of self.now) node mode }
    {
        self.may_convert(node)?;
        self.may_take(node, mode)
    }

    fn hold(&mut self, node: u8, mode: Mode)
        requires { node < 16 }
        ensures { lock_of self.new ≡ holding (lock_of self.old) node mode }
    {
        self.held[node as usize] = Some(mode);
    }

    fn write(&mut self, value: Option<Block>)
        ensures { lock_of self.new ≡ with_value (lock_of self.old) value }
    {
        if let Some(block) = value {
            self.block = block;
            self.valid = true;
        }
    }

    pub fn ask(&mut self, node: u8, mode: Mode) -> Result<(), LockError>
        requires { node < 16 }
        ensures refused { result_err result ≡ ask_refusal (lock_of self.old) node }
        ensures ok { OnOk result (lock_of self.new ≡ asked (lock_of self.old) node mode) }
        ensures err { OnErr result (self.new ≡ self.old) }
    {
        self.may_ask(node)?;
        self.requests.push(Ask { node, mode });
        Ok(())
    }

    pub fn ask_now(&mut self, node: u8, mode: Mode) -> Result<Option<Block>, LockError>
        requires { node < 16 }
        ensures refused { result_err result ≡ ask_now_refusal (lock_of self.old) node mode }
        ensures value { IfOk result (λ value. value ≡ valid_block (lock_of self.old)) }
        ensures ok { OnOk result (lock_of self.new ≡ asked_now (lock_of self.old) node mode) }
        ensures err { OnErr result (self.new ≡ self.old) }
    {
        self.may_ask_now(node, mode)?;
        self.hold(node, mode);
        Ok(self.valid_block())
    }

    fn valid_block(&self) -> Option<Block>
        ensures { result ≡ valid_block (lock_of self.now) }
    {
        if self.valid { Some(self.block) } else { None }
    }

    pub fn convert(
        &mut self,
        node: u8,
        mode: Mode,
        value: Option<Block>,
    ) -> Result<Converted, LockError>
        requires { node < 16 }
        ensures refused { result_err result ≡ convert_refusal (lock_of self.old) node }
        ensures answer { IfOk result (λ c. c ≡ convert_answer (lock_of self.old) node mode) }
        ensures ok { OnOk result (lock_of self.new ≡ converted (lock_of self.old) node mode value) }
        ensures err { OnErr result (self.new ≡ self.old) }
    {
        self.may_convert(node)?;
        let from = self.mode_of(node);
        if !weaker(from, mode) {
            self.conversions.push(Ask { node, mode });
            return Ok(Converted::Queued);
        }
        self.hold(node, mode);
        self.write(converted_value(from, mode, value));
        Ok(Converted::Now)
    }

    pub fn convert_now(&mut self, node: u8, mode: Mode) -> Result<(), LockError>
        requires { node < 16 }
        ensures refused { result_err result ≡ convert_now_refusal (lock_of self.old) node mode }
        ensures ok { OnOk result (lock_of self.new ≡ converted_now (lock_of self.old) node mode) }
        ensures err { OnErr result (self.new ≡ self.old) }
    {
        self.may_convert_now(node, mode)?;
        self.hold(node, mode);
        Ok(())
    }

    fn answer_to(&self, from: Mode, a: Ask) -> Granted
        ensures { result ≡ answer_to (lock_of self.now) from a }
    {
        Granted {
            node: a.node,
            mode: a.mode,
            value: if reads_value(from, a.mode) {
                Some(self.block)
            } else {
                None
            },
            valid: self.valid,
        }
    }

    // What the head is granted.
    fn answer(&self) -> Option<Granted>
        ensures { result ≡ grant_answer (lock_of self.now) }
    {
        if let Some(a) = self.conversions.first() {
            return Some(self.answer_to(self.mode_of(a.node), *a));
        }
        let a = self.requests.first()?;
        Some(self.answer_to(Mode::NL, *a))
    }

    #[tactic(auto, using(crate::proofs::QueueLaws::queue_rest, crate::proofs::QueueLaws::queue_node))]
    fn serve(&mut self)
        ensures { lock_of self.new ≡ granted (lock_of self.old) }
    {
        if let Some(a) = take_first(&mut self.conversions) {
            self.hold(a.node, a.mode);
            return;
        }
        if let Some(a) = take_first(&mut self.requests) {
            self.hold(a.node, a.mode);
        }
    }

    pub fn grant(&mut self) -> Result<Granted, LockError>
        ensures refused { result_err result ≡ grant_refusal (lock_of self.old) }
        ensures answer { IfOk result (λ g. Some g ≡ grant_answer (lock_of self.old)) }
        ensures ok { OnOk result (lock_of self.new ≡ granted (lock_of self.old)) }
        ensures err { OnErr result (self.new ≡ self.old) }
    {
        let Some(granted) = self.answer() else {
            return Err(LockError::NothingAsked);
        };
        if let Some(holder) = self.blocker(granted.node, granted.mode) {
            return Err(LockError::NotGrantable {
                holder,
                mode: self.mode_of(holder),
            });
        }
        self.serve();
        Ok(granted)
    }

    #[tactic(auto, using(crate::proofs::QueueLaws::queue_without))]
    pub fn let_go(&mut self, node: u8)
        requires { node < 16 }
        ensures { lock_of self.new ≡ let_go (lock_of self.old) node }
    {
        self.held[node as usize] = None;
        leave(node, &mut self.conversions);
    }

    pub fn release(&mut self, node: u8, value: Option<Block>) -> Result<(), LockError>
        requires { node < 16 }
        ensures refused { result_err result ≡ release_refusal (lock_of self.old) node }
        ensures ok { OnOk result (lock_of self.new ≡ released (lock_of self.old) node value) }
        ensures err { OnErr result (self.new ≡ self.old) }
    {
        self.may_release(node)?;
        let from = self.mode_of(node);
        self.let_go(node);
        self.write(released_value(from, value));
        Ok(())
    }

    #[tactic(auto, using(crate::proofs::QueueLaws::queue_without))]
    pub fn die(&mut self, node: u8)
        requires { node < 16 }
        ensures { lock_of self.new ≡ died (lock_of self.old) node }
    {
        self.valid = self.valid && !is_writer(self.mode_of(node));
        leave(node, &mut self.requests);
        self.let_go(node);
    }

    pub fn caller(&self, node: u8) -> Option<u8>
        requires { node < 16 }
        ensures { result ≡ caller (lock_of self.now) node }
    {
        let a = self.head()?;
        if self.is_against(a.node, a.mode, node) {
            return Some(a.node);
        }
        None
    }
}
