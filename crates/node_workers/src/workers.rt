ghost use Rattle.std.specs.Prelude.{◌≡◌, ◌⊎◌, ℕ, ◌+◌, ◌<◌, ◌≤◌, Bool, true, false, MatchBool};

use crate::actors::{Actor, Called};
use crate::gates::Gate;
use mdc_types::NodeId;
use std::sync::Wait;

/// Makes the calls of a node from 0 on, up to `calls` of them. It passes the gate once before each
/// call. After Again it helps and makes the same call again, without the gate. After Ended it
/// returns.
pub fn run_node<A: Actor, G: Gate, R: Wait>(
    rt: &R,
    actor: &mut A,
    gate: &G,
    node: NodeId,
    calls: u32,
)
    requires fresh { A.done actor.old ≡ 0 }
    requires goes_on { A.ended actor.old ≡ false }
    requires gate { (k : ℕ) → k < calls → G.opened gate.now node k → A.may (A.made actor.old) k }
    ensures made { A.made actor.new ≡ A.made actor.old }
    ensures all { MatchBool (A.ended actor.new)
        (A.done actor.new ≤ calls) (A.done actor.new ≡ calls) }
{
    for k in 0..calls {
        gate.pass(rt, node, k);
        if !make_call(rt, actor, k) {
            return;
        }
    }
}

// Makes the call, with as many tries as it takes. False where the actor has ended.
fn make_call<A: Actor, R: Wait>(rt: &R, actor: &mut A, k: u32) -> bool
    requires next { A.done actor.old ≡ k }
    requires goes_on { A.ended actor.old ≡ false }
    requires may { A.may (A.made actor.old) k }
    ensures made { A.made actor.new ≡ A.made actor.old }
    ensures done { MatchBool result
        ((A.done actor.new ≡ k + 1) × (A.ended actor.new ≡ false))
        ((A.done actor.new ≡ k) × (A.ended actor.new ≡ true)) }
{
    for _ in rt.forever() {
        match actor.call(rt, k) {
            Called::Done => return true,
            Called::Again => actor.help(rt),
            Called::Ended => return false,
        }
    }
    unreachable!()
}
