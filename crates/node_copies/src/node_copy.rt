ghost use Rattle.std.specs.Prelude.{◌≡◌, ◌<◌, ℕ, nat_lt, false, length, get_or, Option, Some, None, option_map, IsSome, IfSome};
ghost use Rattle.mdc_types.specs.Bits.{has_bit};
ghost use Rattle.mdc_types.specs.Geometry.{chunks_of};
ghost use Rattle.resync_worker.specs.Copying.{begun, filled, copied, settled_at, covering_only, missing_of, completes};
ghost use Rattle.resync_worker.specs.declared.buffer.Buffer.{Buffer};
ghost use Rattle.cluster_model.specs.Changes.{no_copy, window_closed};
ghost use Rattle.cluster_model.specs.Phases.{copy_word};
ghost use Rattle.cluster_model.specs.Copying.{next_for, buffer_in};
ghost use Rattle.cluster_model.specs.Wishes.{has_copied};
ghost use Rattle.node_copies.specs.Copies.{copy_of, first_left, first_covered};

// What one node has of copying.

use crate::places::{NodeCopy, Turn};
use leg_failure::least_leg;
use mdc_types::{ChunkNo, ChunkSet, LegId, Sector, SectorNo, Word};

pub fn word_of(x: &NodeCopy) -> Word
    ensures { result ≡ copy_word (copy_of x.now) }
{
    match x.turn {
        Turn::NotAsked => Word::Nothing,
        Turn::Asked => Word::Asked,
        Turn::Held if !x.begun => Word::Held,
        Turn::Held if x.pass.buffer().is_some() => Word::Buffer,
        Turn::Held if x.window.is_some() => Word::Window,
        Turn::Held => Word::Pass,
    }
}

pub fn next_of(x: &NodeCopy) -> Option<SectorNo>
    ensures value { result ≡ next_for x.now.pass.sizes (copy_of x.now).pass (copy_of x.now).window }
    ensures range { IfSome result (λ s. s < x.now.pass.sizes.room) }
{
    if !x.begun {
        return None;
    }
    x.pass.next(x.window?)
}

pub fn buffer_of(x: &NodeCopy) -> Option<(SectorNo, Sector)>
    ensures value { result ≡ option_map (λ b. (b.sector, b.value))
        (buffer_in (copy_of x.now).pass) }
    ensures range { IfSome result (λ b. b.0 < x.now.pass.sizes.room) }
{
    if x.begun { x.pass.buffer() } else { None }
}

pub fn missing_of(x: &NodeCopy, targets: u8) -> Option<LegId>
    ensures { result ≡ missing_of (has_bit targets) (buffer_in (copy_of x.now).pass) }
{
    if x.begun {
        x.pass.missing(targets)
    } else {
        None
    }
}

pub fn left_of(x: &NodeCopy) -> Option<ChunkNo>
    ensures { result ≡ first_left x.now.pass.sizes (copy_of x.now).pass }
{
    if x.begun { x.pass.left() } else { None }
}

pub fn covered(x: &NodeCopy) -> Option<LegId>
    ensures { result ≡ first_covered (copy_of x.now).pass }
{
    if x.begun {
        least_leg(x.pass.covered())
    } else {
        None
    }
}

pub fn has_copied(x: &NodeCopy, l: LegId) -> bool
    requires { l < 8 }
    ensures { result ≡ has_copied x.now.pass.sizes (copy_of x.now).pass l }
{
    x.begun && x.pass.covers(l) && x.pass.left().is_none() && x.pass.buffer().is_none()
}

pub fn begin(x: &mut NodeCopy, chunks: &ChunkSet, legs: u8)
    requires { length chunks.now ≡ chunks_of x.old.pass.sizes }
    ensures copy { copy_of x.new
        ≡ record (copy_of x.old) {
          pass = Some
              (begun (λ c. get_or chunks.now c false) (has_bit legs));
        } }
    ensures sizes { x.new.pass.sizes ≡ x.old.pass.sizes }
{
    x.pass.again(chunks, legs);
    x.begun = true;
}

pub fn begin_full(x: &mut NodeCopy, legs: u8)
    ensures copy { copy_of x.new
        ≡ record (copy_of x.old) {
          pass = Some
              (begun (λ c. nat_lt c (chunks_of x.old.pass.sizes)) (has_bit legs));
        } }
    ensures sizes { x.new.pass.sizes ≡ x.old.pass.sizes }
{
    x.pass.again_all(legs);
    x.begun = true;
}

pub fn end(x: &mut NodeCopy)
    ensures copy { copy_of x.new ≡ no_copy }
    ensures sizes { x.new.pass.sizes ≡ x.old.pass.sizes }
{
    x.turn = Turn::NotAsked;
    x.begun = false;
    x.window = None;
}

#[tactic(auto, using(crate::proofs::PlaceLaws::mapped))]
pub fn close_window(x: &mut NodeCopy)
    ensures copy { copy_of x.new ≡ window_closed (copy_of x.old) }
    ensures sizes { x.new.pass.sizes ≡ x.old.pass.sizes }
{
    x.pass.restart();
    x.window = None;
}

pub fn copied_in(x: &mut NodeCopy, v: &Sector, l: LegId)
    requires leg { l < 8 }
    requires empty { buffer_in (copy_of x.old).pass ≡ None }
    requires next { IsSome (next_for x.old.pass.sizes (copy_of x.old).pass (copy_of x.old).window) }
    ensures copy { (s : ℕ) → next_for x.old.pass.sizes (copy_of x.old).pass (copy_of x.old).window
        ≡ Some s
        → copy_of x.new ≡ record (copy_of x.old)
        { pass = option_map (λ p. filled p s v.now l) (copy_of x.old).pass } }
    ensures sizes { x.new.pass.sizes ≡ x.old.pass.sizes }
{
    match x.window {
        Some(window) => x.pass.copied_in(window, v, l),
        None => unreachable!(),
    }
}

#[tactic(auto, using(crate::proofs::PlaceLaws::mapped))]
pub fn copied_out(x: &mut NodeCopy, l: LegId)
    requires { l < 8 }
    ensures copy { copy_of x.new
        ≡ record (copy_of x.old) { pass = option_map (λ p. copied p l) (copy_of x.old).pass } }
    ensures sizes { x.new.pass.sizes ≡ x.old.pass.sizes }
{
    x.pass.copied_out(l);
}

pub fn settled(x: &mut NodeCopy) -> Option<ChunkNo>
    ensures copy { (b : Buffer) → buffer_in (copy_of x.old).pass ≡ Some b
        → copy_of x.new ≡ record (copy_of x.old)
        { pass = option_map (λ p. settled_at x.old.pass.sizes p b) (copy_of x.old).pass } }
    ensures told { (b : Buffer) → buffer_in (copy_of x.old).pass ≡ Some b
        → result ≡ completes x.old.pass.sizes b }
    ensures range { IfSome result (λ c. c < chunks_of x.old.pass.sizes) }
    ensures sizes { x.new.pass.sizes ≡ x.old.pass.sizes }
{
    x.pass.settled()
}

#[tactic(auto, using(crate::proofs::PlaceLaws::mapped))]
pub fn cover_only(x: &mut NodeCopy, legs: u8)
    ensures copy { copy_of x.new
        ≡ record (copy_of x.old) {
          pass = option_map (λ p. covering_only p (has_bit legs))
              (copy_of x.old).pass;
        } }
    ensures sizes { x.new.pass.sizes ≡ x.old.pass.sizes }
{
    x.pass.cover_only(legs);
}
