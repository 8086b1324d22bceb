// `token`, `message`: what a round takes to begin.
ghost use Rattle.std.specs.Prelude.{◌≡◌, ◌<◌, None};
ghost use Rattle.cluster_model.specs.Table.{refusal};
ghost use Rattle.cluster_model.specs.After.{after};
ghost use Rattle.cluster_model.specs.Outcomes.{outcome_of};
ghost use Rattle.world_state.specs.Kept.{core_of, Judges};
ghost use Rattle.world_state.specs.Ready.{Ready};

use crate::tables;
use mdc_types::{Event, NodeId, Outcome, Refusal};
use msg_rounds::SenderPhase;
use world_state::CoreState;

/// The guards of `token`.
pub fn may_ask_token(core: &CoreState, n: NodeId) -> Result<(), Refusal>
    ensures { Judges result (refusal (core_of core.now) (Event.AskToken n)) }
{
    core.check_node(n)?;
    core.check_unfenced(n)?;
    core.check_live(n)?;
    core.check_up(n)?;
    let is_idle = matches!(core.sender(n).sender_phase(), SenderPhase::Idle);
    core.check_sender(n, is_idle)?;
    core.check_receives_nothing(n)
}

/// The node asks the token.
pub fn ask_token(core: &mut CoreState, n: NodeId) -> Outcome
    requires accepted { refusal (core_of core.old) (Event.AskToken n) ≡ None }
    requires ready { Ready (core_of core.old) }
    ensures outcome { result ≡ outcome_of (core_of core.old) (Event.AskToken n) }
    ensures after { core_of core.new ≡ after (core_of core.old) (Event.AskToken n) result }
{
    tables::ask_token(&mut core.senders, &mut core.space, &core.receivers, n);
    Outcome::Done
}

/// The guards of `message`.
pub fn may_ask_message(core: &CoreState, n: NodeId) -> Result<(), Refusal>
    ensures { Judges result (refusal (core_of core.now) (Event.AskMessage n)) }
{
    core.check_node(n)?;
    core.check_unfenced(n)?;
    core.check_live(n)?;
    core.check_in(n)?;
    let has_token = matches!(core.sender(n).sender_phase(), SenderPhase::TokenHeld);
    core.check_sender(n, has_token)?;
    core.check_receives_nothing(n)
}

/// The node asks `message`.
pub fn ask_message(core: &mut CoreState, n: NodeId) -> Outcome
    requires accepted { refusal (core_of core.old) (Event.AskMessage n) ≡ None }
    requires ready { Ready (core_of core.old) }
    ensures outcome { result ≡ outcome_of (core_of core.old) (Event.AskMessage n) }
    ensures after { core_of core.new ≡ after (core_of core.old) (Event.AskMessage n) result }
{
    tables::ask_message(&mut core.senders, &mut core.space, &core.receivers, n);
    Outcome::Done
}
