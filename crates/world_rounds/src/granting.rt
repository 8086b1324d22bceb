// `grant`: the first who waits for a resource gets its lock, and goes on.
ghost use Rattle.std.specs.Prelude.{◌≡◌, ◌<◌, None, Some};
ghost use Rattle.std.specs.Option.{option_map};
ghost use Rattle.dlm_modes.specs.Guards.{first_of};
ghost use Rattle.dlm_space.specs.Locks.{mode_of};
ghost use Rattle.dlm_space.specs.Parts.{locks_of};
ghost use Rattle.dlm_space.specs.Queues.{ask_for};
ghost use Rattle.mdc_types.specs.Resources.{IsResource, number_of};
ghost use Rattle.cluster_model.specs.Granting.{asker, grant};
ghost use Rattle.cluster_model.specs.Table.{refusal};
ghost use Rattle.cluster_model.specs.After.{after};
ghost use Rattle.cluster_model.specs.Outcomes.{outcome_of};
ghost use Rattle.world_rounds.specs.Tables.{serve_guards};
ghost use Rattle.world_state.specs.Kept.{core_of, Judges};
ghost use Rattle.world_state.specs.Ready.{Ready};

use crate::tables;
use dlm_modes::Mode;
use dlm_space::Space;
use mdc_types::{Event, NodeId, Outcome, Refusal, Res};
use world_state::CoreState;

// What the node holds, or NL.
fn mode_of(space: &Space, res: Res, n: NodeId) -> Mode
    requires res { IsResource res }
    requires node { n < 16 }
    ensures { result ≡ mode_of (locks_of space.now (number_of res)) n }
{
    space.holder(res.number(), n).unwrap_or(Mode::NL)
}

// The guards of a grant of a resource for which nodes wait.
fn may_serve(space: &Space, res: Res) -> Result<(), Refusal>
    requires { IsResource res }
    ensures { Judges result (first_of (serve_guards (locks_of space.now (number_of res)) res)) }
{
    let Some((node, mode)) = space.head(res.number()) else {
        return Err(Refusal::NothingAsked(res));
    };
    match space.blocker(res.number(), node, mode) {
        None => Ok(()),
        Some(holder) => Err(Refusal::NotGrantable {
            holder,
            mode: mode_of(space, res, holder),
        }),
    }
}

/// The guards of `grant`. Bitmaps and `no-new-dev` are never waited for.
pub fn may_grant(core: &CoreState, res: Res) -> Result<(), Refusal>
    ensures { Judges result (refusal (core_of core.now) (Event.Grant res)) }
{
    match res {
        Res::Bitmap(_) | Res::NoNewDev => Err(Refusal::NothingAsked(res)),
        Res::Token => may_serve(&core.space, Res::Token),
        Res::Message => may_serve(&core.space, Res::Message),
        Res::Ack => may_serve(&core.space, Res::Ack),
        Res::Resync => may_serve(&core.space, Res::Resync),
    }
}

/// Who waits for the resource first, and for which mode.
pub fn asker(core: &CoreState, res: Res) -> Option<(NodeId, Mode)>
    ensures { result ≡ option_map (λ a. (a.node, a.mode)) (asker (core_of core.now) res) }
{
    match res {
        Res::Bitmap(_) | Res::NoNewDev => None,
        Res::Token => core.space.head(Res::Token.number()),
        Res::Message => core.space.head(Res::Message.number()),
        Res::Ack => core.space.head(Res::Ack.number()),
        Res::Resync => core.space.head(Res::Resync.number()),
    }
}

// The token is granted.
fn grant_token(core: &mut CoreState, n: NodeId, mode: Mode)
    requires accepted { refusal (core_of core.old) (Event.Grant Res.Token) ≡ None }
    requires ready { Ready (core_of core.old) }
    requires asks { asker (core_of core.old) Res.Token ≡ Some (ask_for n mode) }
    ensures { core_of core.new ≡ grant (core_of core.old) Res.Token }
{
    tables::grant(&mut core.space, Res::Token);
    tables::token_granted(&mut core.senders, &mut core.space, n);
}

// `ack` is granted: all have processed the message.
fn grant_ack(core: &mut CoreState, n: NodeId, mode: Mode)
    requires accepted { refusal (core_of core.old) (Event.Grant Res.Ack) ≡ None }
    requires ready { Ready (core_of core.old) }
    requires asks { asker (core_of core.old) Res.Ack ≡ Some (ask_for n mode) }
    ensures { core_of core.new ≡ grant (core_of core.old) Res.Ack }
{
    tables::grant(&mut core.space, Res::Ack);
    tables::ack_granted(&mut core.senders, &mut core.space, n);
}

// `resync` is granted: the node copies.
fn grant_resync(core: &mut CoreState, n: NodeId, mode: Mode)
    requires accepted { refusal (core_of core.old) (Event.Grant Res.Resync) ≡ None }
    requires ready { Ready (core_of core.old) }
    requires asks { asker (core_of core.old) Res.Resync ≡ Some (ask_for n mode) }
    ensures { core_of core.new ≡ grant (core_of core.old) Res.Resync }
{
    tables::grant(&mut core.space, Res::Resync);
    core.copies.held(n);
}

// PR on `message` is granted: the receiver is ready.
fn grant_receiver(core: &mut CoreState, n: NodeId)
    requires accepted { refusal (core_of core.old) (Event.Grant Res.Message) ≡ None }
    requires ready { Ready (core_of core.old) }
    requires asks { asker (core_of core.old) Res.Message ≡ Some (ask_for n Mode.PR) }
    ensures { core_of core.new ≡ grant (core_of core.old) Res.Message }
{
    tables::grant(&mut core.space, Res::Message);
    tables::pr_granted(&mut core.receivers, &mut core.space, n);
}

// EX on `message` is granted to the sender.
fn grant_sender(core: &mut CoreState, n: NodeId, mode: Mode)
    requires accepted { refusal (core_of core.old) (Event.Grant Res.Message) ≡ None }
    requires ready { Ready (core_of core.old) }
    requires asks { asker (core_of core.old) Res.Message ≡ Some (ask_for n mode) }
    requires sends { mode ≡ Mode.PR → ⊥ }
    ensures { core_of core.new ≡ grant (core_of core.old) Res.Message }
{
    tables::grant(&mut core.space, Res::Message);
    tables::message_granted(&mut core.senders, &mut core.space, n);
}

// `message` is granted: PR to a receiver, and EX to the sender.
fn grant_message(core: &mut CoreState, n: NodeId, mode: Mode)
    requires accepted { refusal (core_of core.old) (Event.Grant Res.Message) ≡ None }
    requires ready { Ready (core_of core.old) }
    requires asks { asker (core_of core.old) Res.Message ≡ Some (ask_for n mode) }
    ensures { core_of core.new ≡ grant (core_of core.old) Res.Message }
{
    match mode {
        Mode::PR => grant_receiver(core, n),
        Mode::NL | Mode::CR | Mode::CW | Mode::PW | Mode::EX => grant_sender(core, n, mode),
    }
}

// The grant of the resource to its asker.
fn grant_to(core: &mut CoreState, res: Res, n: NodeId, mode: Mode)
    requires accepted { refusal (core_of core.old) (Event.Grant res) ≡ None }
    requires ready { Ready (core_of core.old) }
    requires asks { asker (core_of core.old) res ≡ Some (ask_for n mode) }
    ensures { core_of core.new ≡ grant (core_of core.old) res }
{
    match res {
        Res::Token => grant_token(core, n, mode),
        Res::Message => grant_message(core, n, mode),
        Res::Ack => grant_ack(core, n, mode),
        Res::Resync => grant_resync(core, n, mode),
        Res::Bitmap(_) | Res::NoNewDev => unreachable!(),
    }
}

/// The first who waits for the resource gets its lock, and goes on.
pub fn grant(core: &mut CoreState, res: Res) -> Outcome
    requires accepted { refusal (core_of core.old) (Event.Grant res) ≡ None }
    requires ready { Ready (core_of core.old) }
    ensures outcome { result ≡ outcome_of (core_of core.old) (Event.Grant res) }
    ensures after { core_of core.new ≡ after (core_of core.old) (Event.Grant res) result }
{
    let Some(first) = asker(core, res) else {
        unreachable!()
    };
    grant_to(core, res, first.0, first.1);
    Outcome::Granted {
        node: first.0,
        mode: first.1,
    }
}
