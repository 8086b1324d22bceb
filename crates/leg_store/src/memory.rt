ghost use Rattle.std.specs.Prelude.{◌≡◌, ◌<◌, ◌≤◌, ◌^◌, [], length, Some, None, vec_len, slice_get, is_none, is_ok, IsOk, IsSome, IfOk, MatchResult, refl, true};
ghost use Rattle.mdc_types.specs.Faults.{HasCause, Rose};
ghost use Rattle.leg_store.specs.Leg.{Gives, put, LeftOldOrNew};
ghost use Rattle.leg_store.specs.Plans.{Plan, entry_for, GoesByPlan, LeavesByPlan};
ghost use Rattle.leg_store.specs.Memory.{told, plan_of, next_failure, after_read, after_write, with_sector};

use crate::LegDev;
use mdc_types::{Failed, Sector};
use std::marker::Model;

/// What a write that fails leaves in its sector.
#[derive(Clone, Copy, PartialEq, Eq, Debug)]
pub enum Left {
    /// What it held before.
    Old,
    /// What was to be written.
    New,
}

/// A leg in memory, some of whose transfers fail.
///
/// Reads and writes are numbered together from 0 on, those that fail too. Contracts see the sectors,
/// the list of the transfers that fail, and the counts of transfers and of faults.
#[derive(Drop)]
pub struct MemLeg {
    sectors: Vec<Sector>,
    failing: Vec<(u32, Left)>,
    // Wider than the numbers of the list, so that no number of it comes twice.
    transfers: u64,
    faults: u64,
}

impl Model for MemLeg {
    ghost use Rattle.std.specs.Prelude.{◌<◌, ◌^◌, vec_len};
    ghost use Rattle.leg_store.specs.Memory.{Memory};

    ghost Value = { Memory };

    ghost view = { λ leg. record { sectors = leg.sectors.items; failing = leg.failing.items; transfers = leg.transfers; faults = leg.faults } };

    ghost invariant = { λ leg. vec_len leg.sectors < 2 ^ 32 };
}

fn entry_for(number: u64, entries: &[(u32, Left)]) -> Option<Left>
    ensures { result ≡ entry_for number entries.now }
{
    for (at, left) in entries {
        if u64::from(*at) == number {
            return Some(*left);
        }
    }
    None
}

impl MemLeg {
    /// A leg with these sectors. An entry `(number, left)` of `faults` makes the transfer of that number
    /// fail; of several with one number the first counts.
    pub fn new(sectors: Vec<Sector>, faults: Vec<(u32, Left)>) -> MemLeg
        requires { vec_len sectors < 2 ^ 32 }
        ensures { result ≡ record { sectors = sectors.items; failing = faults.items; transfers = 0; faults = 0 } }
    {
        MemLeg {
            sectors,
            failing: faults,
            transfers: 0,
            faults: 0,
        }
    }

    /// The sectors as they are.
    pub fn sectors(&self) -> &[Sector]
        ensures { result.now ≡ self.now.sectors }
    {
        &self.sectors
    }

    /// How many transfers have failed. The count stays at its type's last value.
    pub fn faults(&self) -> u64
        ensures { result ≡ self.now.faults }
    {
        self.faults
    }

    // Counts a transfer, and says how it fails.
    fn failure(&mut self) -> Option<Left>
        ensures result { result ≡ next_failure self.old }
        ensures counts { self.new ≡ after_read (next_failure self.old) self.old }
        ensures later { self.old.faults ≤ self.new.faults }
        ensures rose { IsSome result → Rose self.old.faults self.new.faults }
    {
        let failure = entry_for(self.transfers, &self.failing);
        self.transfers = self.transfers.saturating_add(1);
        if failure.is_some() {
            self.faults = self.faults.saturating_add(1);
        }
        failure
    }

    fn put(&mut self, at: u32, value: &Sector)
        requires { at < length self.old.sectors }
        ensures { self.new ≡ with_sector self.old at value.now }
    {
        self.sectors[at as usize] = *value;
    }
}

impl LegDev for MemLeg {
    ghost contents = { told };

    ghost size = { λ leg. length leg.sectors };

    ghost faults = { λ leg. leg.faults };

    ghost plan = { plan_of };

    ghost told_length = { λ leg. refl };

    fn length(&self) -> u32 {
        self.sectors.len() as u32
    }

    /// Reads a sector, or fails where the list names this transfer.
    fn read(&mut self, at: u32) -> Result<Sector, Failed>
        requires { at < length self.old.sectors }
        ensures fails { is_ok result ≡ is_none (next_failure self.old) }
        ensures never { self.old.failing ≡ [] → IsOk result }
        ensures sector { IfOk result (λ v. slice_get self.old.sectors at ≡ Some v) }
        ensures after { self.new ≡ after_read (next_failure self.old) self.old }

        // What every leg promises.
        ensures value { IfOk result (λ v. Gives (told self.old) at v) }
        ensures contents { told self.new ≡ told self.old }
        ensures size { length self.new.sectors ≡ length self.old.sectors }
        ensures plan { GoesByPlan (plan_of self.old) (is_ok result) (plan_of self.new) }
        ensures cause { HasCause (λ e. true) self.old.faults self.new.faults result }
    {
        if self.failure().is_some() {
            return Err(Failed);
        }
        Ok(self.sectors[at as usize])
    }

    /// Writes a sector, or fails where the list names this transfer, and leaves what the list says.
    fn write(&mut self, at: u32, value: &Sector) -> Result<(), Failed>
        requires { at < length self.old.sectors }
        ensures fails { is_ok result ≡ is_none (next_failure self.old) }
        ensures never { self.old.failing ≡ [] → IsOk result }
        ensures after { self.new ≡ after_write (next_failure self.old) self.old at value.now }

        // What every leg promises.
        ensures contents { MatchResult result
            (λ _. told self.new ≡ put (told self.old) at value.now)
            (λ _. LeftOldOrNew (told self.old) at value.now (told self.new)) }
        ensures size { length self.new.sectors ≡ length self.old.sectors }
        ensures plan { GoesByPlan (plan_of self.old) (is_ok result) (plan_of self.new) }
        ensures left { LeavesByPlan (plan_of self.old) (told self.old) at value.now (told self.new) }
        ensures cause { HasCause (λ e. true) self.old.faults self.new.faults result }
    {
        match self.failure() {
            None => {
                self.put(at, value);
                Ok(())
            }
            Some(Left::New) => {
                self.put(at, value);
                Err(Failed)
            }
            Some(Left::Old) => Err(Failed),
        }
    }
}

#[cfg(test)]
mod tests {
    use super::*;
    use std::test::Fail;

    fn sector(byte: u8) -> Sector {
        Sector { bytes: [byte; 512] }
    }

    // A write of these bytes, or else a read, with the byte that was moved.
    fn transfer<L: LegDev>(leg: &mut L, at: u32, written: Option<u8>) -> Result<u8, Failed>
        requires { at < L.size leg.old }
    {
        match written {
            None => Ok(leg.read(at)?.bytes[511]),
            Some(byte) => {
                leg.write(at, &sector(byte))?;
                Ok(byte)
            }
        }
    }

    // The transfers in order, numbered from 0: what is written, or None for a read; to or from which
    // sector; whether it succeeds, with what byte; what the three sectors hold then.
    const TRANSFERS: [(Option<u8>, u32, Result<u8, Failed>, [u8; 3]); 10] = [
        (None, 0, Ok(1), [1, 2, 3]),
        (Some(9), 0, Err(Failed), [1, 2, 3]),
        (Some(9), 0, Ok(9), [9, 2, 3]),
        (Some(8), 1, Err(Failed), [9, 8, 3]),
        (None, 1, Err(Failed), [9, 8, 3]),
        (None, 1, Ok(8), [9, 8, 3]),
        (None, 2, Err(Failed), [9, 8, 3]),
        (Some(7), 2, Ok(7), [9, 8, 7]),
        (Some(6), 2, Err(Failed), [9, 8, 7]),
        (None, 2, Ok(7), [9, 8, 7]),
    ];

    #[test]
    fn fails_as_listed(rt: HostRuntime) -> Result<(), Fail> {
        let alloc = rt.alloc();
        let sectors = vec![in alloc; sector(1), sector(2), sector(3)]?;
        let faults = vec![in alloc;
            (3, Left::New),
            (1, Left::Old),
            (4, Left::Old),
            (6, Left::New),
            (3, Left::Old),
            (8, Left::Old),
            (8, Left::New),
        ]?;
        let mut leg = MemLeg::new(sectors, faults);
        for (number, (written, at, moved, held)) in TRANSFERS.iter().enumerate() {
            assert!(rt; *at < leg.length());
            assert_eq!(rt;
                transfer(&mut leg, *at, *written),
                *moved,
                "transfer {number}"
            );
            assert_eq!(rt;
                leg.sectors(),
                held.map(sector).as_slice(),
                "transfer {number}"
            );
        }
        assert_eq!(rt; leg.faults(), 5);
        Ok(())
    }
}
