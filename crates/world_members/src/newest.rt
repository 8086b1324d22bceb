// What a joining node makes of the superblocks that it read.

ghost use Rattle.std.specs.Prelude.{◌≡◌, ◌<◌, ◌≤◌, ℕ, is_some, IfSome, Some};
ghost use Rattle.std.specs.Option.{option_map};
ghost use Rattle.dlm_modes.specs.First.{first_such};
ghost use Rattle.mdc_types.specs.Bits.{has_bit};
ghost use Rattle.mdc_types.specs.Roles.{role_of, is_working, is_written};
ghost use Rattle.leg_failure.specs.Views.{view_of};
ghost use Rattle.md_superblock.specs.Arrays.{said};
ghost use Rattle.cluster_model.specs.Joining.{is_untried, says_of, events_of, greatest, is_newest};
ghost use Rattle.cluster_model.specs.Joining.{newest, was_read, missing_leg, view_from};
ghost use Rattle.world_state.specs.Kept.{tried_of};
ghost use Rattle.world_members.specs.Tries.{tries_of, is_lost_leg};

use leg_failure::View;
use md_superblock::ArrayState;
use mdc_types::{LegId, Role, Roles, with_leg};
use world_state::Attempt;

fn is_untried(tried: &[Attempt; 8], l: LegId) -> bool
    requires { l < 8 }
    ensures { result ≡ is_untried (tries_of tried.now l) }
{
    matches!(tried[l as usize], Attempt::Untried)
}

// What the leg's superblock says, where it was read.
fn state_at(tried: &[Attempt; 8], l: LegId) -> Option<ArrayState>
    requires { l < 8 }
    ensures { option_map said result ≡ says_of (tries_of tried.now l) }
{
    match tried[l as usize] {
        Attempt::Loaded(state) => Some(state),
        Attempt::Untried | Attempt::Unread => None,
    }
}

fn was_loaded(tried: &[Attempt; 8], l: LegId) -> bool
    requires { l < 8 }
    ensures { result ≡ is_some (says_of (tries_of tried.now l)) }
{
    state_at(tried, l).is_some()
}

fn events_at(tried: &[Attempt; 8], l: LegId) -> u64
    requires { l < 8 }
    ensures { result ≡ events_of (tries_of tried.now l) }
{
    match tried[l as usize] {
        Attempt::Loaded(state) => state.events,
        Attempt::Untried | Attempt::Unread => 0,
    }
}

/// The first leg below `legs` whose superblock the node didn't try to read.
pub fn first_untried(tried: &[Attempt; 8], legs: u8) -> Option<LegId>
    requires { legs ≤ 8 }
    ensures { result ≡ first_such (λ l. is_untried (tries_of tried.now l)) 0 legs }
{
    for l in 0..legs {
        if is_untried(tried, l) {
            return Some(l);
        }
    }
    None
}

/// The greatest events number that was read, and 0 where none was.
pub fn greatest(tried: &[Attempt; 8]) -> u64
    ensures { result ≡ greatest (tries_of tried.now) }
{
    let last = events_at(tried, 6).max(events_at(tried, 7));
    let fifth = events_at(tried, 4).max(events_at(tried, 5).max(last));
    let third = events_at(tried, 2).max(events_at(tried, 3).max(fifth));
    events_at(tried, 0).max(events_at(tried, 1).max(third))
}

fn is_newest(tried: &[Attempt; 8], number: u64, l: LegId) -> bool
    requires leg { l < 8 }
    requires number { number ≡ greatest (tries_of tried.now) }
    ensures { result ≡ is_newest (tries_of tried.now) l }
{
    was_loaded(tried, l) && events_at(tried, l) == number
}

fn newest_leg(tried: &[Attempt; 8]) -> Option<LegId>
    ensures leg { result ≡ first_such (is_newest (tries_of tried.now)) 0 8 }
    ensures below { IfSome result (λ l. l < 8) }
{
    let number = greatest(tried);
    for l in 0..8 {
        if is_newest(tried, number, l) {
            return Some(l);
        }
    }
    None
}

/// The newest superblock that was read, of several the one on the least leg.
pub fn newest(tried: &[Attempt; 8]) -> Option<ArrayState>
    ensures { option_map said result ≡ newest (tries_of tried.now) }
{
    match newest_leg(tried) {
        Some(l) => state_at(tried, l),
        None => None,
    }
}

fn is_working(roles: &Roles, l: LegId) -> bool
    requires { l < 8 }
    ensures { result ≡ is_working (role_of roles.now l) }
{
    matches!(roles.of(l), Role::Working)
}

fn is_written(legs: &[Role; 8], l: LegId) -> bool
    requires { l < 8 }
    ensures { result ≡ is_written (role_of (record { legs = legs.now }) l) }
{
    matches!(legs[l as usize], Role::Working | Role::Rebuilding)
}

fn was_read(tried: &[Attempt; 8], roles: &Roles, l: LegId) -> bool
    requires { l < 8 }
    ensures { result ≡ was_read (tries_of tried.now) roles.now l }
{
    is_working(roles, l) && was_loaded(tried, l)
}

fn first_read(tried: &[Attempt; 8], roles: &Roles) -> Option<LegId>
    ensures { result ≡ first_such (was_read (tries_of tried.now) roles.now) 0 8 }
{
    for l in 0..8 {
        if was_read(tried, roles, l) {
            return Some(l);
        }
    }
    None
}

fn first_working(roles: &Roles) -> Option<LegId>
    ensures { result ≡ first_such (λ l. is_working (role_of roles.now l)) 0 8 }
{
    for l in 0..8 {
        if is_working(roles, l) {
            return Some(l);
        }
    }
    None
}

/// Where no leg that works by the newest superblock was read: the first that works.
pub fn missing_leg(tried: &[Attempt; 8], newest: &Option<ArrayState>) -> Option<LegId>
    ensures { result ≡ missing_leg (tries_of tried.now) (option_map said newest.now) }
{
    match newest {
        None => None,
        Some(state) => {
            if first_read(tried, &state.roles).is_some() {
                None
            } else {
                first_working(&state.roles)
            }
        }
    }
}

fn is_lost(tried: &[Attempt; 8], legs: &[Role; 8], l: LegId) -> bool
    requires { l < 8 }
    ensures { result ≡ is_lost_leg (tries_of tried.now) (record { legs = legs.now }) l }
{
    is_written(legs, l) && !was_loaded(tried, l)
}

// The legs whose roles want them written, and whose superblocks weren't read.
fn lost_legs(tried: &[Attempt; 8], legs: &[Role; 8]) -> u8
    ensures { (l : ℕ) → has_bit result l
        ≡ is_lost_leg (tries_of tried.now) (record { legs = legs.now }) l }
{
    let mut lost = 0;
    for l in 0..8 {
        if is_lost(tried, legs, l) {
            lost = with_leg(lost, l);
        }
    }
    lost
}

/// The view of a node that comes in by the newest superblock. Its legs that weren't read are lost.
pub fn view_from(tried: &[Attempt; 8], state: &ArrayState) -> View
    ensures { view_of result ≡ view_from (tries_of tried.now) (Some (said state.now)) }
{
    View::joined(state.roles, state.size, lost_legs(tried, &state.roles.legs))
}
