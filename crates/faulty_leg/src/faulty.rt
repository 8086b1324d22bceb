ghost use Rattle.std.specs.Prelude.{◌≡◌, ◌<◌, ◌≤◌, [], length, Some, None, slice_get, is_none};
ghost use Rattle.std.specs.Prelude.{is_ok, IsOk, IsSome, IfOk, MatchResult, refl, true};
ghost use Rattle.std.specs.Ordering.{nat_cmp};
ghost use Rattle.std.specs.BTreeMap.{get};
ghost use Rattle.mdc_types.specs.Faults.{HasCause, Rose};
ghost use Rattle.leg_store.specs.Leg.{Gives, put, LeftOldOrNew};
ghost use Rattle.leg_store.specs.Plans.{GoesByPlan, LeavesByPlan};
ghost use Rattle.leg_store.specs.Memory.{told, plan_of, next_failure, after_read, after_write};
ghost use Rattle.leg_store.specs.Memory.{with_sector};
ghost use Rattle.faulty_leg.specs.Table.{HasFirsts};

use leg_store::{Left, LegDev, MemLeg};
use mdc_types::{Failed, Sector};
use std::alloc::{AllocError, Global};
use std::collections::BTreeMap;
use std::marker::Model;

/// A leg in memory, some of whose transfers fail.
///
/// Reads and writes are numbered together from 0 on, those that fail too. A transfer takes a
/// look-up in a sorted table of those that fail. Contracts see what they see of a `MemLeg`: the
/// sectors, the list of the transfers that fail, and the counts of transfers and of faults.
#[derive(Drop)]
pub struct FaultyLeg {
    // By itself it never fails.
    leg: MemLeg,
    // As it was listed; the transfers look in the table.
    failing: Vec<(u32, Left)>,
    table: BTreeMap<u64, Left>,
    // Wider than the numbers of the list, so that no number of it comes twice.
    transfers: u64,
    faults: u64,
}

impl Model for FaultyLeg {
    ghost use Rattle.std.specs.Prelude.{◌≡◌, []};
    ghost use Rattle.std.specs.Ordering.{nat_cmp};
    ghost use Rattle.std.specs.BTreeMap.{get};
    ghost use Rattle.leg_store.specs.Memory.{Memory};
    ghost use Rattle.faulty_leg.specs.Table.{HasFirsts};

    ghost Value = { Memory };

    ghost view = { λ f. record {
      sectors = f.leg.sectors;
      failing = f.failing.items;
      transfers = f.transfers;
      faults = f.faults;
    } };

    ghost invariant = { λ f.
        (f.leg.failing ≡ []) × HasFirsts (get nat_cmp f.table) f.failing.items };
}

fn table_of(alloc: Global, listed: &[(u32, Left)]) -> Result<BTreeMap<u64, Left>, AllocError>
    ensures { IfOk result (λ table. HasFirsts (get nat_cmp table) listed.now) }
{
    let mut table = BTreeMap::new(alloc);
    let count = listed.len();
    // The last entry first, so that of several with one number the first stays.
    for later in 0..count {
        let (number, left) = listed[count - 1 - later];
        table.insert(u64::from(number), left)?;
    }
    Ok(table)
}

impl FaultyLeg {
    /// A leg with the sectors of `leg`, which is not to fail by itself. An entry `(number, left)`
    /// of `faults` makes the transfer of that number fail; of several with one number the first
    /// counts.
    pub fn new(
        alloc: Global,
        leg: MemLeg,
        faults: Vec<(u32, Left)>,
    ) -> Result<FaultyLeg, AllocError>
        requires { leg.failing ≡ [] }
        ensures { IfOk result (λ made.
            made ≡ record {
              sectors = leg.sectors;
              failing = faults.items;
              transfers = 0;
              faults = 0;
            }) }
    {
        let table = table_of(alloc, &faults)?;
        Ok(FaultyLeg {
            leg,
            failing: faults,
            table,
            transfers: 0,
            faults: 0,
        })
    }

    /// The sectors as they are.
    pub fn sectors(&self) -> &[Sector]
        ensures { result.now ≡ self.now.sectors }
    {
        self.leg.sectors()
    }

    /// The transfers that fail, as they were listed.
    pub fn failing(&self) -> &[(u32, Left)]
        ensures { result.now ≡ self.now.failing }
    {
        &self.failing
    }

    /// How many transfers have failed. The count stays at its type's last value.
    pub fn faults(&self) -> u64
        ensures { result ≡ self.now.faults }
    {
        self.faults
    }

    // Counts a transfer, and says how it fails.
    fn failure(&mut self) -> Option<Left>
        ensures result { result ≡ next_failure self.old }
        ensures counts { self.new ≡ after_read (next_failure self.old) self.old }
        ensures later { self.old.faults ≤ self.new.faults }
        ensures rose { IsSome result → Rose self.old.faults self.new.faults }
    {
        let failure = self.table.get(&self.transfers).copied();
        self.transfers = self.transfers.saturating_add(1);
        if failure.is_some() {
            self.faults = self.faults.saturating_add(1);
        }
        failure
    }

    fn put(&mut self, at: u32, value: &Sector) -> Result<(), Failed>
        requires { at < length self.old.sectors }
        ensures ok { IsOk result }
        ensures sectors { self.new ≡ with_sector self.old at value.now }
    {
        self.leg.write(at, value)
    }
}

impl LegDev for FaultyLeg {
    ghost contents = { told };

    ghost size = { λ leg. length leg.sectors };

    ghost faults = { λ leg. leg.faults };

    ghost plan = { plan_of };

    ghost told_length = { λ leg. refl };

    fn length(&self) -> u32 {
        self.leg.length()
    }

    /// Reads a sector, or fails where the list names this transfer.
    fn read(&mut self, at: u32) -> Result<Sector, Failed>
        requires { at < length self.old.sectors }
        ensures fails { is_ok result ≡ is_none (next_failure self.old) }
        ensures never { self.old.failing ≡ [] → IsOk result }
        ensures sector { IfOk result (λ v. slice_get self.old.sectors at ≡ Some v) }
        ensures after { self.new ≡ after_read (next_failure self.old) self.old }

        // What every leg promises.
        ensures value { IfOk result (λ v. Gives (told self.old) at v) }
        ensures contents { told self.new ≡ told self.old }
        ensures size { length self.new.sectors ≡ length self.old.sectors }
        ensures plan { GoesByPlan (plan_of self.old) (is_ok result) (plan_of self.new) }
        ensures cause { HasCause (λ e. true) self.old.faults self.new.faults result }
    {
        if self.failure().is_some() {
            return Err(Failed);
        }
        self.leg.read(at)
    }

    /// Writes a sector, or fails where the list names this transfer, and leaves what the list says.
    fn write(&mut self, at: u32, value: &Sector) -> Result<(), Failed>
        requires { at < length self.old.sectors }
        ensures fails { is_ok result ≡ is_none (next_failure self.old) }
        ensures never { self.old.failing ≡ [] → IsOk result }
        ensures after { self.new ≡ after_write (next_failure self.old) self.old at value.now }

        // What every leg promises.
        ensures contents { MatchResult result
            (λ _. told self.new ≡ put (told self.old) at value.now)
            (λ _. LeftOldOrNew (told self.old) at value.now (told self.new)) }
        ensures size { length self.new.sectors ≡ length self.old.sectors }
        ensures plan { GoesByPlan (plan_of self.old) (is_ok result) (plan_of self.new) }
        ensures left { LeavesByPlan (plan_of self.old) (told self.old) at value.now (told self.new) }
        ensures cause { HasCause (λ e. true) self.old.faults self.new.faults result }
    {
        match self.failure() {
            None => self.put(at, value),
            Some(Left::New) => {
                self.put(at, value)?;
                Err(Failed)
            }
            Some(Left::Old) => Err(Failed),
        }
    }
}

#[cfg(test)]
mod tests {
    use super::*;
    use std::test::Fail;

    fn sector(byte: u8) -> Sector {
        Sector { bytes: [byte; 512] }
    }

    // The writes in order, numbered from 0: of what, whether it succeeds, what the sector holds.
    const WRITES: [(u8, Result<(), Failed>, u8); 5] = [
        (10, Ok(()), 10),
        (11, Err(Failed), 10),
        (12, Ok(()), 12),
        (13, Err(Failed), 13),
        (14, Ok(()), 14),
    ];

    #[test]
    fn fails_as_listed(rt: HostRuntime) -> Result<(), Fail> {
        let alloc = rt.alloc();
        let sectors = vec![in alloc; sector(1)]?;
        let faults = vec![in alloc; (3, Left::New), (1, Left::Old), (3, Left::Old)]?;
        let mut leg = FaultyLeg::new(alloc, MemLeg::new(sectors, Vec::new(alloc)), faults)?;
        for (written, ends, held) in &WRITES {
            assert!(rt; 0 < leg.length());
            assert_eq!(rt; leg.write(0, &sector(*written)), *ends);
            assert_eq!(rt; leg.sectors(), [sector(*held)].as_slice());
        }
        assert_eq!(rt; leg.faults(), 2);
        Ok(())
    }
}
