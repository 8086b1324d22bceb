ghost use Rattle.std.specs.Prelude.{◌≡◌, ◌<◌, List, ℕ, Option, MatchResult, IfOk, true, is_ok};
ghost use Rattle.mdc_types.specs.declared.numbers.Sector.{Sector};
ghost use Rattle.mdc_types.specs.Faults.{HasCause};
ghost use Rattle.leg_store.specs.Leg.{Gives, put, LeftOldOrNew, HasLength};
ghost use Rattle.leg_store.specs.Plans.{Plan, GoesByPlan, LeavesByPlan};

use mdc_types::{Failed, Sector};

/// A leg: a device of sectors, whose transfers may fail. It counts its faults.
///
/// What a device holds can't always be known to a proof: then contracts say nothing of what a read
/// gives.
pub trait LegDev {
    /// The sectors, where the leg tells them.
    ghost contents: { Self → Option (List Sector) };

    /// How many sectors it has.
    ghost size: { Self → ℕ };

    /// How often it has failed.
    ghost faults: { Self → ℕ };

    /// Which of its transfers fail, where the leg tells it.
    ghost plan: { Self → Option Plan };

    /// How many sectors it has.
    fn length(&self) -> u32
        ensures { result ≡ size self.now };

    /// Reads a sector. A read changes nothing but the counts, also where it fails.
    fn read(&mut self, at: u32) -> Result<Sector, Failed>
        requires { at < size self.old }
        ensures value { IfOk result (λ v. Gives (contents self.old) at v) }
        ensures contents { contents self.new ≡ contents self.old }
        ensures size { size self.new ≡ size self.old }
        ensures plan { GoesByPlan (plan self.old) (is_ok result) (plan self.new) }
        ensures cause { HasCause (λ e. true) (faults self.old) (faults self.new) result };

    /// Writes a sector. A write that fails leaves the old sector or the new one.
    fn write(&mut self, at: u32, value: &Sector) -> Result<(), Failed>
        requires { at < size self.old }
        ensures contents { MatchResult result
            (λ _. contents self.new ≡ put (contents self.old) at value.now)
            (λ _. LeftOldOrNew (contents self.old) at value.now (contents self.new)) }
        ensures size { size self.new ≡ size self.old }
        ensures plan { GoesByPlan (plan self.old) (is_ok result) (plan self.new) }
        ensures left { LeavesByPlan (plan self.old) (contents self.old) at value.now (contents self.new) }
        ensures cause { HasCause (λ e. true) (faults self.old) (faults self.new) result };

    /// What is told has the leg's length.
    ghost told_length: { (leg : Self) → HasLength (contents leg) (size leg) };
}
