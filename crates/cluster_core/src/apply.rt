ghost use Rattle.std.specs.Prelude.{◌≡◌, None, map};
ghost use Rattle.cluster_model.specs.State.{sizes};
ghost use Rattle.cluster_model.specs.Table.{refusal};
ghost use Rattle.world_state.specs.Kept.{Judges, core_of};
ghost use Rattle.world_state.specs.Ready.{Ready};
ghost use Rattle.world_state.specs.Told.{seen_of, Fits, Carries};

use leg_store::LegDev;
use mdc_types::{Event, Outcome, Refusal};
use world_io::{
    ask_read, ask_write, break_write, clear, end_write, may_ask_read, may_ask_write,
    may_break_write, may_clear, may_end_write, may_in, may_out, may_write_page, out_write, read_in,
    write_page,
};
use world_members::{
    cut, die, drop_message, join, leave, load, may_cut, may_die, may_drop_message, may_join,
    may_leave, may_load, may_mend, may_processed, may_resume, may_take, may_up, mend, processed,
    resume, take, up,
};
use world_repair::{
    ask_resync, copy_in, copy_out, end_pass, gather, may_ask_resync, may_copy_in, may_copy_out,
    may_end_pass, may_gather, may_pass_again, may_pass_full, may_pass_own, may_recover,
    may_recovered, may_settle, may_slot_in, may_slot_out, pass_again, pass_full, pass_own, recover,
    recovered, settle, slot_in, slot_out,
};
use world_rounds::{
    ask_message, ask_token, finish_round, grant, lock_device, may_ask_message, may_ask_token,
    may_finish_round, may_grant, may_lock_device, may_publish, may_quit, publish, quit,
};
use world_state::CoreState;
use world_wishes::{may_offer, may_write_super, offer, write_super};

/// The guards of an event.
pub fn may(core: &CoreState, e: &Event) -> Result<(), Refusal>
    requires { Ready (core_of core.now) }
    ensures { Judges result (refusal (core_of core.now) e.now) }
{
    match e {
        Event::Cut(n, l) => may_cut(core, *n, *l),
        Event::Mend(n, l) => may_mend(core, *n, *l),
        Event::Die(n) => may_die(core, *n),
        Event::Grant(res) => may_grant(core, *res),
        Event::Join(n) => may_join(core, *n),
        Event::Load(n, l) => may_load(core, *n, *l),
        Event::Up(n) => may_up(core, *n),
        Event::Leave(n) => may_leave(core, *n),
        Event::AskToken(n) => may_ask_token(core, *n),
        Event::AskMessage(n) => may_ask_message(core, *n),
        Event::Offer(n, wish) => may_offer(core, *n, *wish),
        Event::WriteSuper(n, l) => may_write_super(core, *n, *l),
        Event::Publish(n) => may_publish(core, *n),
        Event::FinishRound(n) => may_finish_round(core, *n),
        Event::Quit(n) => may_quit(core, *n),
        Event::Take(n) => may_take(core, *n),
        Event::Processed(n) => may_processed(core, *n),
        Event::Resume(n) => may_resume(core, *n),
        Event::DropMessage(n) => may_drop_message(core, *n),
        Event::AskWrite(n, s, _value) => may_ask_write(core, *n, *s),
        Event::WritePage(n, p, l) => may_write_page(core, *n, *p, *l),
        Event::Out(n, k, l) => may_out(core, *n, *k, *l),
        Event::EndWrite(n, k) => may_end_write(core, *n, *k),
        Event::BreakWrite(n, k) => may_break_write(core, *n, *k),
        Event::AskRead(n, s) => may_ask_read(core, *n, *s),
        Event::In(n, k) => may_in(core, *n, *k),
        Event::Clear(n, c) => may_clear(core, *n, *c),
        Event::AskResync(n) => may_ask_resync(core, *n),
        Event::Gather(n) => may_gather(core, *n),
        Event::PassOwn(n) => may_pass_own(core, *n),
        Event::PassFull(n) => may_pass_full(core, *n),
        Event::PassAgain(n, l) => may_pass_again(core, *n, *l),
        Event::CopyIn(n) => may_copy_in(core, *n),
        Event::CopyOut(n, l) => may_copy_out(core, *n, *l),
        Event::Settle(n) => may_settle(core, *n),
        Event::EndPass(n) => may_end_pass(core, *n),
        Event::Recover(n, d) => may_recover(core, *n, *d),
        Event::SlotIn(n, p, l) => may_slot_in(core, *n, *p, *l),
        Event::SlotOut(n, p, l) => may_slot_out(core, *n, *p, *l),
        Event::Recovered(n) => may_recovered(core, *n),
        Event::LockDevice(n) => may_lock_device(core, *n),
    }
}

/// The row of an event that is accepted.
#[tactic(auto, using(crate::proofs::Quietly::quietly))]
pub fn apply<L: LegDev>(core: &mut CoreState, legs: &mut Vec<L>, e: Event) -> Outcome
    requires accepted { refusal (core_of core.old) e ≡ None }
    requires ready { Ready (core_of core.old) }
    requires fits { Fits (sizes (core_of core.old)) (map L.size legs.old.items) }
    ensures { Carries e result
        core.old (seen_of L.contents L.size L.faults L.plan legs.old.items)
        core.new (seen_of L.contents L.size L.faults L.plan legs.new.items) }
{
    match e {
        Event::Load(n, l) => load(core, legs, n, l),
        Event::WriteSuper(n, l) => write_super(core, legs, n, l),
        Event::WritePage(n, p, l) => write_page(core, legs, n, p, l),
        Event::Out(n, k, l) => out_write(core, legs, n, k, l),
        Event::In(n, k) => read_in(core, legs, n, k),
        Event::Gather(n) => gather(core, legs, n),
        Event::CopyIn(n) => copy_in(core, legs, n),
        Event::CopyOut(n, l) => copy_out(core, legs, n, l),
        Event::SlotIn(n, p, l) => slot_in(core, legs, n, p, l),
        Event::SlotOut(n, p, l) => slot_out(core, legs, n, p, l),
        Event::Cut(n, l) => cut(core, n, l),
        Event::Mend(n, l) => mend(core, n, l),
        Event::Die(n) => die(core, n),
        Event::Grant(res) => grant(core, res),
        Event::Join(n) => join(core, n),
        Event::Up(n) => up(core, n),
        Event::Leave(n) => leave(core, n),
        Event::AskToken(n) => ask_token(core, n),
        Event::AskMessage(n) => ask_message(core, n),
        Event::Offer(n, wish) => offer(core, n, wish),
        Event::Publish(n) => publish(core, n),
        Event::FinishRound(n) => finish_round(core, n),
        Event::Quit(n) => quit(core, n),
        Event::Take(n) => take(core, n),
        Event::Processed(n) => processed(core, n),
        Event::Resume(n) => resume(core, n),
        Event::DropMessage(n) => drop_message(core, n),
        Event::AskWrite(n, s, v) => ask_write(core, n, s, &v),
        Event::EndWrite(n, k) => end_write(core, n, k),
        Event::BreakWrite(n, k) => break_write(core, n, k),
        Event::AskRead(n, s) => ask_read(core, n, s),
        Event::Clear(n, c) => clear(core, n, c),
        Event::AskResync(n) => ask_resync(core, n),
        Event::PassOwn(n) => pass_own(core, n),
        Event::PassFull(n) => pass_full(core, n),
        Event::PassAgain(n, l) => pass_again(core, n, l),
        Event::Settle(n) => settle(core, n),
        Event::EndPass(n) => end_pass(core, n),
        Event::Recover(n, d) => recover(core, n, d),
        Event::Recovered(n) => recovered(core, n),
        Event::LockDevice(n) => lock_device(core, n),
    }
}
