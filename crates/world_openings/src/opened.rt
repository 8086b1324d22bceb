ghost use Rattle.std.specs.Prelude.{◌≡◌, ◌<◌, ◌≤◌, ◌+◌, ◌&&◌, ℕ, true, false, nat_lt, None, IfOk};
ghost use Rattle.dlm_modes.specs.Points.{with_at};
ghost use Rattle.mdc_types.specs.Geometry.{nodes_of};
ghost use Rattle.mdc_types.specs.Resources.{IsResource, number_of};
ghost use Rattle.dlm_space.specs.Locks.{holding, ask_now_refusal};
ghost use Rattle.leg_failure.specs.Views.{new_view};
ghost use Rattle.node_bits.specs.Bitmaps.{opened};
ghost use Rattle.cluster_model.specs.Opening.{core_at, is_member, IsOrigin};
ghost use Rattle.world_state.specs.Kept.{core_of};
ghost use Rattle.world_openings.specs.Members.{opened_with};

use crate::Opening;
use dlm_modes::Mode;
use leg_failure::View;
use mdc_types::{NodeId, NodeState, Res};
use node_bits::Bitmaps;
use node_copies::{Additions, Copies, Recoveries};
use node_member::Record;
use node_requests::Requests;
use std::alloc::{AllocError, Global};
use world_state::{Attempt, CoreState};

// Nobody is in.
fn empty_state(alloc: Global, opening: &Opening) -> Result<CoreState, AllocError>
    ensures core { IfOk result (λ core. core_of core ≡ opened_with opening.now (λ n. false)) }
    ensures identity { IfOk result (λ core. core.identity.geometry ≡ opening.now.sizes) }
{
    let geometry = opening.geometry();
    let requests = Requests::new(alloc)?;
    let bitmaps = Bitmaps::new(alloc, &geometry)?;
    let copies = Copies::new(alloc, &geometry)?;
    let recoveries = Recoveries::new(alloc, &geometry)?;
    let additions = Additions::new(alloc, &geometry)?;
    let tried = vec![in alloc; [Attempt::Untried; 8]; 16]?;
    let members = Record::new(opening.members(), opening.pending(), opening.events());
    Ok(CoreState::empty(
        opening.identity(),
        members,
        tried,
        requests,
        bitmaps,
        copies,
        recoveries,
        additions,
    ))
}

// A lock that nobody holds in a way that disagrees is taken at once.
fn take(core: &mut CoreState, n: NodeId, res: Res, mode: Mode)
    requires node { n < 16 }
    requires res { IsResource res }
    requires free { ask_now_refusal ((core_of core.old).locks (number_of res)) n mode ≡ None }
    ensures { let old = core_of core.old in let r = number_of res in
        core_of core.new
        ≡ record old { locks = with_at old.locks r (holding (old.locks r) n mode) } }
{
    let _ = core.space.ask_now(n, res.number(), mode);
}

fn open_bits(core: &mut CoreState, n: NodeId, warm: bool)
    requires { n < 16 }
    ensures { let old = core_of core.old in
        core_of core.new
        ≡ record old { bitmap = with_at old.bitmap n (opened old.array.sizes warm) } }
{
    core.bitmaps.open_member(n, warm);
}

// The node comes in as a member.
fn bring_in(core: &mut CoreState, opening: &Opening, n: NodeId)
    requires node { n < nodes_of opening.now.sizes }
    requires member { is_member opening.now n ≡ true }
    requires others { let o = opening.now in
        core_of core.old ≡ opened_with o (λ m. is_member o m && nat_lt m n) }
    ensures { let o = opening.now in
        core_of core.new ≡ opened_with o (λ m. is_member o m && nat_lt m (n + 1)) }
{
    core.set_state(n, NodeState::Up);
    core.replace_view(n, View::new(opening.roles(), opening.geometry().sectors()));
    take(core, n, Res::Bitmap(n), Mode::PW);
    take(core, n, Res::Ack, Mode::CR);
    take(core, n, Res::NoNewDev, Mode::CR);
    open_bits(core, n, opening.warm());
}

/// The state at an opening: members are up and idle, with the opening's roles and size.
pub fn open_state(alloc: Global, opening: &Opening) -> Result<CoreState, AllocError>
    requires { IsOrigin opening.now }
    ensures { IfOk result (λ core. core_of core ≡ core_at opening.now) }
{
    let mut core = empty_state(alloc, opening)?;
    for n in 0..opening.geometry().nodes() {
        if opening.is_member(n) {
            bring_in(&mut core, opening, n);
        }
    }
    Ok(core)
}
