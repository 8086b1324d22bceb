ghost use Rattle.std.specs.Prelude.{◌≡◌};
ghost use Rattle.driver_rules.specs.Storms.{named, turn, cut_after};
ghost use Rattle.world_state.specs.Kept.{core_of};
ghost use Rattle.world_state.specs.Ready.{Ready};
ghost use Rattle.storm_turns.specs.Choosing.{name_of};

use crate::drawing::{Drawn, drawn_turn};
use crate::nodes::{death, leg_to_cut};
use mdc_types::{Event, LegId};
use world_state::CoreState;

/// What a turn is.
#[derive(Clone, Copy)]
pub enum TurnKind {
    Death,
    Cutting,
    Mending,
    Drawing,
}

/// What turn `i` of so many is.
pub fn named(turns: u32, i: u32) -> TurnKind
    ensures { name_of result ≡ named turns i }
{
    let (turns, i) = (turns as u64, i as u64);
    if i == turns / 3 || i == 2 * turns / 3 {
        TurnKind::Death
    } else if i == turns / 2 {
        TurnKind::Cutting
    } else if i == turns / 2 + 100 {
        TurnKind::Mending
    } else {
        TurnKind::Drawing
    }
}

/// What turn `i` does, from the generator's state `x` on. `cut` is the leg that this storm cut and
/// hasn't mended.
pub fn turn(core: &CoreState, i: u32, x: u64, cut: Option<LegId>, name: TurnKind) -> Drawn
    requires { Ready (core_of core.now) }
    ensures event { result.event ≡ (turn (core_of core.now) i x cut (name_of name)).event }
    ensures seed { result.seed ≡ (turn (core_of core.now) i x cut (name_of name)).seed }
{
    let event = match name {
        TurnKind::Death => death(core),
        TurnKind::Cutting => leg_to_cut(core).map(|l| Event::Cut(0, l)),
        TurnKind::Mending => cut.map(|l| Event::Mend(0, l)),
        TurnKind::Drawing => return drawn_turn(core, i, x),
    };
    Drawn { event, seed: x }
}

/// The leg that is cut after the turn.
pub fn cut_after(core: &CoreState, cut: Option<LegId>, name: TurnKind) -> Option<LegId>
    ensures { result ≡ cut_after (core_of core.now) cut (name_of name) }
{
    match name {
        TurnKind::Cutting => leg_to_cut(core),
        TurnKind::Mending => None,
        TurnKind::Death | TurnKind::Drawing => cut,
    }
}
