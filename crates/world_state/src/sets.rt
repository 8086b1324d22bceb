// Sets of legs, one bit each.
ghost use Rattle.std.specs.Prelude.{◌≡◌, ℕ, not, ◌&&◌};
ghost use Rattle.mdc_types.specs.Bits.{has_bit};
ghost use Rattle.mdc_types.specs.Roles.{role_of, is_rebuilding};
ghost use Rattle.leg_failure.specs.Views.{view_of, fresh_targets};

use leg_failure::{View, working_of, written_of};
use mdc_types::Roles;

// The legs of the first set that aren't in the second.
#[tactic(auto, using(crate::proofs::SetLaws::less_bit))]
fn less(a: u8, b: u8) -> u8
    ensures { (l : ℕ) → has_bit result l ≡ (has_bit a l && not (has_bit b l)) }
{
    a & !b
}

/// The rebuilding legs.
#[tactic(auto, using(crate::proofs::SetLaws::rebuilding_set))]
pub fn rebuilding_of(roles: &Roles) -> u8
    ensures { has_bit result ≡ (λ l. is_rebuilding (role_of roles.now l)) }
{
    less(written_of(roles), working_of(roles))
}

/// The legs that are targets of the second view and not of the first.
#[tactic(auto, using(crate::proofs::SetLaws::fresh_set))]
pub fn fresh_targets(was: &View, now: &View) -> u8
    ensures { has_bit result ≡ fresh_targets (view_of was.now) (view_of now.now) }
{
    less(now.targets(), was.targets())
}
