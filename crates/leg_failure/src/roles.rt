ghost use Rattle.std.specs.Prelude.{◌≡◌, ◌<◌, ℕ, not, slice_index_or, if◌then◌else◌};
ghost use Rattle.dlm_modes.specs.Points.{with_at};
ghost use Rattle.mdc_types.specs.Bits.{has_bit};
ghost use Rattle.mdc_types.specs.Roles.{role_of, is_working, is_written};
ghost use Rattle.mdc_types.specs.declared.roles.Role.TheVariants.{Spare};
ghost use Rattle.leg_failure.specs.Sets.{is_same, given_up, least_of};

use mdc_types::{LegId, Role, Roles, has_leg, with_leg};

fn is_working(role: Role) -> bool
    ensures { result ≡ is_working role }
{
    matches!(role, Role::Working)
}

fn is_written(role: Role) -> bool
    ensures { result ≡ is_written role }
{
    matches!(role, Role::Working | Role::Rebuilding)
}

fn is_same(role: Role, other: Role) -> bool
    ensures { result ≡ is_same role other }
{
    role == other
}

// What becomes of the role of a leg that is lost.
fn given_up(role: Role) -> Role
    ensures { result ≡ given_up role }
{
    match role {
        Role::Working => Role::Faulty,
        Role::Rebuilding => Role::Spare,
        Role::Faulty | Role::Spare => role,
    }
}

fn with_role_at(mut legs: [Role; 8], l: LegId, role: Role) -> [Role; 8]
    requires { l < 8 }
    ensures { (k : ℕ) → slice_index_or result k Spare ≡ with_at (λ j. slice_index_or legs j Spare) l role k }
{
    legs[l as usize] = role;
    legs
}

fn working_in(legs: &[Role; 8]) -> u8
    ensures { (k : ℕ) → has_bit result k ≡ is_working (slice_index_or legs.now k Spare) }
{
    let mut set = 0;
    for l in 0..8 {
        if is_working(legs[l as usize]) {
            set = with_leg(set, l);
        }
    }
    set
}

fn written_in(legs: &[Role; 8]) -> u8
    ensures { (k : ℕ) → has_bit result k ≡ is_written (slice_index_or legs.now k Spare) }
{
    let mut set = 0;
    for l in 0..8 {
        if is_written(legs[l as usize]) {
            set = with_leg(set, l);
        }
    }
    set
}

fn differing_in(legs: &[Role; 8], others: &[Role; 8]) -> u8
    ensures { (k : ℕ) → has_bit result k ≡ not (is_same (slice_index_or legs.now k Spare) (slice_index_or others.now k Spare)) }
{
    let mut set = 0;
    for l in 0..8 {
        if !is_same(legs[l as usize], others[l as usize]) {
            set = with_leg(set, l);
        }
    }
    set
}

// The roles in which the lost legs are given up.
pub fn proposed_in(mut legs: [Role; 8], lost: u8) -> [Role; 8]
    ensures { (k : ℕ) → slice_index_or result k Spare ≡ (if has_bit lost k then given_up (slice_index_or legs k Spare) else slice_index_or legs k Spare) }
{
    for l in 0..8 {
        if has_leg(lost, l) {
            legs[l as usize] = given_up(legs[l as usize]);
        }
    }
    legs
}

/// The roles with one leg's changed.
pub fn with_role(r: &Roles, l: LegId, role: Role) -> Roles
    requires { l < 8 }
    ensures { (k : ℕ) → role_of result k ≡ with_at (role_of r.now) l role k }
{
    Roles {
        legs: with_role_at(r.legs, l, role),
    }
}

/// The legs that the roles call working, as a set with leg l as bit l.
pub fn working_of(r: &Roles) -> u8
    ensures { (l : ℕ) → has_bit result l ≡ is_working (role_of r.now l) }
{
    working_in(&r.legs)
}

/// The legs that the roles call working or rebuilding: those that are written.
pub fn written_of(r: &Roles) -> u8
    ensures { (l : ℕ) → has_bit result l ≡ is_written (role_of r.now l) }
{
    written_in(&r.legs)
}

/// The legs that have another role in each.
pub fn differing(r: &Roles, s: &Roles) -> u8
    ensures { (l : ℕ) → has_bit result l ≡ not (is_same (role_of r.now l) (role_of s.now l)) }
{
    differing_in(&r.legs, &s.legs)
}

/// The least leg of a set.
pub fn least_leg(set: u8) -> Option<LegId>
    ensures { result ≡ least_of set }
{
    for l in 0..8 {
        if has_leg(set, l) {
            return Some(l);
        }
    }
    None
}
