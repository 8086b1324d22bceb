ghost use Rattle.std.specs.Prelude.{◌≡◌, ◌≤◌, ◌+◌, [], Some, None, Ok, MatchResult, IfOk, IfSome, OnOk, OnErr, IsTrue, true, unwrap_or, nat_eq};
ghost use Rattle.std.specs.List.{list_any};
ghost use Rattle.std.specs.Option.{option_map};
ghost use Rattle.mdc_types.specs.Faults.{HasCause, Rose};
ghost use Rattle.leg_store.specs.Memory as mem_leg;
ghost use Rattle.leg_shelf.specs.Shelves.{is_fault, failed, GivesBytes, GivesSize, GivesLeg, put_file, OthersStay, TakesLeg, counted};
ghost use Rattle.leg_shelf.specs.Images.{with_sectors};
ghost use Rattle.leg_shelf.specs.Memory.{mem_of, told, call_fails, after_call, with_file, leg_of};

use crate::sectors::{add_sectors, past, sectors_in};
use crate::{Shelf, ShelfEnd};
use leg_store::{Left, LegDev, MemLeg};
use std::alloc::{AllocError, Global};
use std::collections::HashMap;

/// A shelf in memory, some of whose calls fail, as some transfers of the legs that it opens.
///
/// All calls of `Shelf` are numbered together from 0 on, those that fail too.
#[derive(Drop)]
pub struct MemShelf {
    alloc: Global,
    files: HashMap<String, Vec<u8>>,
    plans: HashMap<String, Vec<(u32, Left)>>,
    failing: Vec<u32>,
    calls: u64,
    faults: u64,
    leg_faults: u64,
}

fn is_among(call: u64, failing: &[u32]) -> bool
    ensures { result ≡ list_any (nat_eq call) failing.now }
{
    failing.iter().any(|number| call == u64::from(*number))
}

impl MemShelf {
    /// An empty shelf. The calls that `failing` names fail.
    pub fn new(alloc: Global, failing: Vec<u32>) -> MemShelf
        ensures { mem_of result ≡ record { files = λ name. None; failing = failing.items; plans = λ name. None; calls = 0; faults = 0; leg_faults = 0 } }
    {
        MemShelf {
            alloc,
            files: HashMap::new(alloc),
            plans: HashMap::new(alloc),
            failing,
            calls: 0,
            faults: 0,
            leg_faults: 0,
        }
    }

    /// Puts the bytes under the name, which is no call of the shelf.
    pub fn put(&mut self, name: &str, bytes: Vec<u8>) -> Result<(), AllocError>
        ensures ok { OnOk result (mem_of self.new ≡ with_file (mem_of self.old) name.now bytes.items) }
        ensures err { OnErr result (mem_of self.new ≡ mem_of self.old) }
    {
        let key = String::from_str(self.alloc, name)?;
        self.files.insert(key, bytes)?;
        Ok(())
    }

    /// From now on a leg that is opened under this name fails as `faults` says, counted from its
    /// opening.
    pub fn fail_leg(&mut self, name: &str, faults: Vec<(u32, Left)>) -> Result<(), AllocError> {
        let key = String::from_str(self.alloc, name)?;
        self.plans.insert(key, faults)?;
        Ok(())
    }

    /// The bytes under the name, which is no call of the shelf.
    pub fn file(&self, name: &str) -> Option<&Vec<u8>>
        ensures { option_map (λ v. v.now.items) result ≡ (mem_of self.now).files name.now }
    {
        self.files.get(name)
    }

    /// How many calls there were. The count stays at its type's last value.
    pub fn calls(&self) -> u64
        ensures { result ≡ (mem_of self.now).calls }
    {
        self.calls
    }

    // Which transfers fail of a leg that is opened under the name.
    fn plan(&self, name: &str) -> Result<Vec<(u32, Left)>, AllocError>
        ensures { IfOk result (λ plan. plan.items ≡ unwrap_or ((mem_of self.now).plans name.now) []) }
    {
        match self.plans.get(name) {
            None => Ok(Vec::new(self.alloc)),
            Some(plan) => plan.clone(),
        }
    }

    fn leg(&self, name: &str, bytes: &[u8]) -> Result<MemLeg, AllocError>
        ensures { IfOk result (λ leg. leg ≡ leg_of (mem_of self.now) name.now bytes.now) }
    {
        let sectors = sectors_in(self.alloc, bytes)?;
        Ok(MemLeg::new(sectors, self.plan(name)?))
    }

    // What the name has once the leg is back: its sectors, and what it had past them.
    fn closed(&self, name: &str, leg: &MemLeg) -> Result<Vec<u8>, AllocError>
        ensures { IfOk result (λ bytes.
            bytes.items ≡ with_sectors ((mem_of self.now).files name.now) leg.now.sectors) }
    {
        let mut bytes = Vec::new(self.alloc);
        add_sectors(&mut bytes, leg.sectors())?;
        if let Some(old) = self.files.get(name) {
            bytes.extend_from_slice(past(old, 512 * leg.length() as usize))?;
        }
        Ok(bytes)
    }

    // A call that stores what the name has once the leg is back.
    fn put_back(&mut self, name: &str, leg: &MemLeg) -> Result<(), ShelfEnd>
        ensures fails { failed result ≡ call_fails (mem_of self.old) }
        ensures contents { MatchResult result
            (λ _. TakesLeg (told (mem_of self.old)) name.now (mem_leg.told leg.now) (told (mem_of self.new)))
            (λ _. OthersStay (told (mem_of self.old)) name.now (told (mem_of self.new))) }
        ensures legs { (mem_of self.new).leg_faults ≡ (mem_of self.old).leg_faults }
        ensures cause { HasCause is_fault (mem_of self.old).faults (mem_of self.new).faults result }
    {
        self.count_call()?;
        let bytes = self.closed(name, leg)?;
        self.put(name, bytes)?;
        Ok(())
    }

    // Counts a call, and says whether it fails.
    fn count_call(&mut self) -> Result<(), ShelfEnd>
        ensures fails { failed result ≡ call_fails (mem_of self.old) }
        ensures counts { mem_of self.new ≡ after_call (mem_of self.old) }
        ensures cause { HasCause is_fault (mem_of self.old).faults (mem_of self.new).faults result }
        ensures files { self.new.files ≡ self.old.files }
        ensures plans { self.new.plans ≡ self.old.plans }
    {
        let fails = is_among(self.calls, &self.failing);
        self.calls = self.calls.saturating_add(1);
        if fails {
            self.faults = self.faults.saturating_add(1);
            return Err(ShelfEnd::Failed);
        }
        Ok(())
    }
}

impl Shelf for MemShelf {
    type Leg = MemLeg;

    ghost contents = { λ s. told (mem_of s) };

    ghost faults = { λ s. s.faults };

    ghost leg_faults = { λ s. s.leg_faults };

    fn load(&mut self, name: &str) -> Result<Option<Vec<u8>>, ShelfEnd>
        ensures fails { failed result ≡ call_fails (mem_of self.old) }
        ensures after { mem_of self.new ≡ after_call (mem_of self.old) }

        // What every shelf promises.
        ensures bytes { IfOk result (λ found.
            GivesBytes (told (mem_of self.old)) name.now (option_map (λ v. v.items) found)) }
        ensures contents { told (mem_of self.new) ≡ told (mem_of self.old) }
        ensures legs { (mem_of self.new).leg_faults ≡ (mem_of self.old).leg_faults }
        ensures cause { HasCause is_fault (mem_of self.old).faults (mem_of self.new).faults result }
    {
        self.count_call()?;
        match self.files.get(name) {
            None => Ok(None),
            Some(bytes) => Ok(Some(bytes.clone()?)),
        }
    }

    fn store(&mut self, name: &str, bytes: &[u8]) -> Result<(), ShelfEnd>
        ensures fails { failed result ≡ call_fails (mem_of self.old) }
        ensures after { MatchResult result
            (λ _. mem_of self.new ≡ with_file (after_call (mem_of self.old)) name.now bytes.now)
            (λ _. mem_of self.new ≡ after_call (mem_of self.old)) }

        // What every shelf promises.
        ensures contents { MatchResult result
            (λ _. told (mem_of self.new) ≡ put_file (told (mem_of self.old)) name.now (Some bytes.now))
            (λ _. OthersStay (told (mem_of self.old)) name.now (told (mem_of self.new))) }
        ensures legs { (mem_of self.new).leg_faults ≡ (mem_of self.old).leg_faults }
        ensures cause { HasCause is_fault (mem_of self.old).faults (mem_of self.new).faults result }
    {
        self.count_call()?;
        let copy = bytes.to_vec(self.alloc)?;
        self.put(name, copy)?;
        Ok(())
    }

    fn size(&mut self, name: &str) -> Result<Option<u64>, ShelfEnd>
        ensures fails { failed result ≡ call_fails (mem_of self.old) }
        ensures after { mem_of self.new ≡ after_call (mem_of self.old) }

        // What every shelf promises.
        ensures size { IfOk result (λ found. GivesSize (told (mem_of self.old)) name.now found) }
        ensures contents { told (mem_of self.new) ≡ told (mem_of self.old) }
        ensures legs { (mem_of self.new).leg_faults ≡ (mem_of self.old).leg_faults }
        ensures cause { HasCause is_fault (mem_of self.old).faults (mem_of self.new).faults result }
    {
        self.count_call()?;
        match self.files.get(name) {
            None => Ok(None),
            Some(bytes) => Ok(Some(bytes.len() as u64)),
        }
    }

    fn open_leg(&mut self, name: &str) -> Result<Option<MemLeg>, ShelfEnd>
        ensures fails { failed result ≡ call_fails (mem_of self.old) }
        ensures after { mem_of self.new ≡ after_call (mem_of self.old) }
        ensures opens { IfOk result (λ found.
            found ≡ option_map (leg_of (mem_of self.old) name.now) ((mem_of self.old).files name.now)) }

        // What every shelf promises.
        ensures leg { IfOk result (λ found.
            GivesLeg (told (mem_of self.old)) name.now (option_map mem_leg.told found)) }
        ensures sound { IfOk result (λ found. IfSome found (λ leg. leg.faults ≡ 0)) }
        ensures contents { told (mem_of self.new) ≡ told (mem_of self.old) }
        ensures legs { (mem_of self.new).leg_faults ≡ (mem_of self.old).leg_faults }
        ensures cause { HasCause is_fault (mem_of self.old).faults (mem_of self.new).faults result }
    {
        self.count_call()?;
        match self.files.get(name) {
            None => Ok(None),
            Some(bytes) => Ok(Some(self.leg(name, bytes)?)),
        }
    }

    fn close_leg(&mut self, name: &str, leg: MemLeg) -> Result<(), ShelfEnd>
        ensures fails { failed result ≡ call_fails (mem_of self.old) }

        // What every shelf promises.
        ensures contents { MatchResult result
            (λ _. TakesLeg (told (mem_of self.old)) name.now (mem_leg.told leg) (told (mem_of self.new)))
            (λ _. OthersStay (told (mem_of self.old)) name.now (told (mem_of self.new))) }
        ensures legs { (mem_of self.new).leg_faults ≡ counted (mem_of self.old).leg_faults leg.faults }
        ensures cause { HasCause is_fault (mem_of self.old).faults (mem_of self.new).faults result }
    {
        self.leg_faults = self.leg_faults.saturating_add(leg.faults());
        self.put_back(name, &leg)
    }
}
