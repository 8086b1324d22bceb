// The calls of a round to a lock space, each where it isn't refused.

ghost use Rattle.std.specs.Prelude.{◌≡◌, ◌<◌, false, Some, None};
ghost use Rattle.dlm_modes.specs.Modes.{weaker};
ghost use Rattle.dlm_modes.specs.Points.{with_at};
ghost use Rattle.mdc_types.specs.Resources.{IsResource, number_of};
ghost use Rattle.dlm_space.specs.Locks.{ask_refusal, ask_now_refusal, convert_refusal, release_refusal, mode_of, valid_block, asked, queued, holding, with_value, let_go};
ghost use Rattle.dlm_space.specs.Parts.{locks_of};

use dlm_modes::{Block, Mode};
use dlm_space::Space;
use mdc_types::{NodeId, Res};

// A request for EX waits.
pub fn ask(space: &mut Space, node: NodeId, res: Res)
    requires node { node < 16 }
    requires res { IsResource res }
    requires may { ask_refusal (locks_of space.old (number_of res)) node ≡ None }
    ensures { locks_of space.new ≡ with_at (locks_of space.old) (number_of res) (asked (locks_of space.old (number_of res)) node Mode.EX) }
{
    if space.ask(node, res.number(), Mode::EX).is_err() {
        unreachable!()
    }
}

// CR is taken at once, with the block where it is valid.
pub fn take(space: &mut Space, node: NodeId, res: Res) -> Option<Block>
    requires node { node < 16 }
    requires res { IsResource res }
    requires may { ask_now_refusal (locks_of space.old (number_of res)) node Mode.CR ≡ None }
    ensures value { result ≡ valid_block (locks_of space.old (number_of res)) }
    ensures locks { locks_of space.new ≡ with_at (locks_of space.old) (number_of res) (holding (locks_of space.old (number_of res)) node Mode.CR) }
{
    match space.ask_now(node, res.number(), Mode::CR) {
        Ok(value) => value,
        Err(_) => unreachable!(),
    }
}

// EX is lowered to the mode at once, and a given value is written.
pub fn lower(space: &mut Space, node: NodeId, res: Res, mode: Mode, value: Option<Block>)
    requires node { node < 16 }
    requires res { IsResource res }
    requires held { (locks_of space.old (number_of res)).held node ≡ Some Mode.EX }
    requires may { convert_refusal (locks_of space.old (number_of res)) node ≡ None }
    ensures { locks_of space.new ≡ with_at (locks_of space.old) (number_of res) (holding (with_value (locks_of space.old (number_of res)) value) node mode) }
{
    if space.convert(node, res.number(), mode, value).is_err() {
        unreachable!()
    }
}

// A conversion to a mode that isn't weaker waits.
pub fn raise(space: &mut Space, node: NodeId, res: Res, mode: Mode)
    requires node { node < 16 }
    requires res { IsResource res }
    requires stronger { weaker (mode_of (locks_of space.old (number_of res)) node) mode ≡ false }
    requires may { convert_refusal (locks_of space.old (number_of res)) node ≡ None }
    ensures { locks_of space.new ≡ with_at (locks_of space.old) (number_of res) (queued (locks_of space.old (number_of res)) node mode) }
{
    if space.convert(node, res.number(), mode, None).is_err() {
        unreachable!()
    }
}

// What is held is let go, without a value.
pub fn let_go(space: &mut Space, node: NodeId, res: Res)
    requires node { node < 16 }
    requires res { IsResource res }
    requires may { release_refusal (locks_of space.old (number_of res)) node ≡ None }
    ensures { locks_of space.new ≡ with_at (locks_of space.old) (number_of res) (let_go (locks_of space.old (number_of res)) node) }
{
    if space.release(node, res.number(), None).is_err() {
        unreachable!()
    }
}
