ghost use Rattle.std.specs.Prelude.{◌≡◌, ◌+◌, ◌<◌, ℕ, false, if◌then◌else◌, ◌==◌};

use crate::{Actor, Called, Gate, OpenGate, run_node};
use mdc_types::NodeId;
use std::alloc::Global;
use std::sync::{Mutex, Wait};
use std::test::Fail;

// What happens, in its order.
#[derive(Drop, Clone, Copy, PartialEq, Eq, Debug)]
enum Step {
    Pass(NodeId, u32),
    Call(u32),
    Help,
}

// Writes down each pass.
#[derive(Drop)]
struct Watched<'a> {
    steps: &'a Mutex<Vec<Step>>,
}

impl Gate for Watched<'_> {
    ghost opened = { λ gate node call. Unit {0} };

    fn pass<R: Wait>(&self, rt: &R, node: NodeId, call: u32) {
        let _ = self.steps.lock(rt).push(Step::Pass(node, call));
    }
}

// Writes down each call, of which the one of number `stuck` wants help first, and ends at the call
// of number `last`.
#[derive(Drop)]
struct Scripted<'a> {
    steps: &'a Mutex<Vec<Step>>,
    done: u64,
    ended: bool,
    stuck: Option<u32>,
    last: Option<u32>,
}

impl Actor for Scripted<'_> {
    type Made = ();

    ghost made = { λ s. tt };

    ghost done = { λ s. s.done };

    ghost ended = { λ s. s.ended };

    ghost may = { λ made k. Unit {0} };

    fn call<R: Wait>(&mut self, rt: &R, k: u32) -> Called {
        let _ = self.steps.lock(rt).push(Step::Call(k));
        if self.stuck == Some(k) {
            return Called::Again;
        }
        if self.last == Some(k) {
            self.ended = true;
            return Called::Ended;
        }
        self.done += 1;
        Called::Done
    }

    fn help<R: Wait>(&mut self, rt: &R) {
        self.stuck = None;
        let _ = self.steps.lock(rt).push(Step::Help);
    }
}

fn played<R: Wait>(
    rt: &R,
    alloc: Global,
    stuck: Option<u32>,
    last: Option<u32>,
    calls: u32,
) -> Vec<Step> {
    let steps = Mutex::new(Vec::new(alloc));
    let gate = Watched { steps: &steps };
    let mut actor = Scripted {
        steps: &steps,
        done: 0,
        ended: false,
        stuck,
        last,
    };
    run_node(rt, &mut actor, &gate, 3, calls);
    steps.into_inner()
}

#[test]
fn passes_the_gate_before_each_call(rt: HostRuntime) -> Result<(), Fail> {
    let steps = played(&rt, rt.alloc(), None, None, 2);
    let want = [
        Step::Pass(3, 0),
        Step::Call(0),
        Step::Pass(3, 1),
        Step::Call(1),
    ];
    assert!(rt; steps.as_slice() == want.as_slice());
    Ok(())
}

#[test]
fn helps_and_calls_again_without_the_gate(rt: HostRuntime) -> Result<(), Fail> {
    let steps = played(&rt, rt.alloc(), Some(0), Some(1), 3);
    let want = [
        Step::Pass(3, 0),
        Step::Call(0),
        Step::Help,
        Step::Call(0),
        Step::Pass(3, 1),
        Step::Call(1),
    ];
    assert!(rt; steps.as_slice() == want.as_slice());
    Ok(())
}

#[test]
fn an_open_gate_lets_everyone_through(rt: HostRuntime) {
    OpenGate.pass(&rt, 0, 0);
}
