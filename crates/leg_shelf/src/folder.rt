ghost use Rattle.std.specs.Prelude.{◌≡◌, ◌≢◌, ◌≤◌, OnOk, OnErr, IfOk, IfSome, MatchResult, Some, true, false};
ghost use Rattle.std.specs.Option.{option_map};
ghost use Rattle.mdc_types.specs.Faults.{HasCause, Rose};
ghost use Rattle.leg_shelf.specs.Shelves.{is_fault, failed, untold, GivesBytes, GivesSize, GivesLeg, put_file, OthersStay};
ghost use Rattle.leg_shelf.specs.Names.{is_file_name};

use crate::{PagedLeg, Shelf, ShelfEnd, is_file_name};
use leg_store::LegDev;
use std::alloc::AllocError;
use std::fs::{OpenFile, OpenOptions};
use std::io::ErrorKind;
use std::rt::Files;
use std::{fs, io};

/// The files of the current folder. A leg is the open file (`PagedLeg`).
///
/// A name that isn't as `is_file_name` wants it is a fault, and nothing is touched then: so no call
/// leaves the folder. What the files hold is not told.
#[derive(Drop)]
pub struct FolderShelf<'r, R: Files + AllocGlobal> {
    rt: &'r R,
    faults: u64,
    leg_faults: u64,
}

impl<'r, R: Files + AllocGlobal> FolderShelf<'r, R> {
    /// The current folder.
    pub fn new(rt: &'r R) -> FolderShelf<'r, R>
        ensures faults { ⟦<FolderShelf<'r, R> as Shelf>⟧.faults result ≡ 0 }
        ensures legs { ⟦<FolderShelf<'r, R> as Shelf>⟧.leg_faults result ≡ 0 }
    {
        FolderShelf {
            rt,
            faults: 0,
            leg_faults: 0,
        }
    }

    // The fault of a call, which is counted, or want of memory.
    fn end(&mut self, kind: ErrorKind) -> ShelfEnd
        ensures fault { kind ≢ ErrorKind.OutOfMemory → is_fault result ≡ true }
        ensures later { self.old.faults ≤ self.new.faults }
        ensures rose { is_fault result ≡ true → Rose self.old.faults self.new.faults }
        ensures legs { self.new.leg_faults ≡ self.old.leg_faults }
    {
        if kind == ErrorKind::OutOfMemory {
            return ShelfEnd::Memory(AllocError);
        }
        self.faults = self.faults.saturating_add(1);
        ShelfEnd::Failed
    }

    // What the file system answered: None where there is no such file.
    fn found<T>(&mut self, answer: io::Result<T>) -> Result<Option<T>, ShelfEnd>
        ensures legs { self.new.leg_faults ≡ self.old.leg_faults }
        ensures cause { HasCause is_fault self.old.faults self.new.faults result }
    {
        match answer {
            Ok(value) => Ok(Some(value)),
            Err(fault) if fault.kind() == ErrorKind::NotFound => Ok(None),
            Err(fault) => Err(self.end(fault.kind())),
        }
    }

    // Refuses a name that may lead out of the folder.
    fn check(&mut self, name: &str) -> Result<(), ShelfEnd>
        ensures ok { OnOk result ((self.new ≡ self.old) × (is_file_name name.now ≡ true)) }
        ensures err { is_file_name name.now ≡ false → failed result ≡ true }
        ensures legs { self.new.leg_faults ≡ self.old.leg_faults }
        ensures cause { HasCause is_fault self.old.faults self.new.faults result }
    {
        if is_file_name(name) {
            Ok(())
        } else {
            Err(self.end(ErrorKind::InvalidInput))
        }
    }
}

// The file under this name, open to be read and written, with its whole sectors.
fn open_file<R: Files>(rt: &R, name: &str) -> io::Result<(R::File, u32)> {
    let file = OpenOptions::new().read(true).write(true).open(rt, name)?;
    let sectors = (file.metadata()?.len() / 512).min(u64::from(u32::MAX));
    Ok((file, sectors as u32))
}

impl<'r, R: Files + AllocGlobal> Shelf for FolderShelf<'r, R> {
    ghost use Rattle.std.specs.Prelude.{None};

    type Leg = PagedLeg<R::File>;

    ghost contents = { λ _. None };

    ghost faults = { λ s. s.faults };

    ghost leg_faults = { λ s. s.leg_faults };

    fn load(&mut self, name: &str) -> Result<Option<Vec<u8>>, ShelfEnd>
        ensures inside { is_file_name name.now ≡ false → failed result ≡ true }

        // What every shelf promises.
        ensures bytes { IfOk result (λ found.
            GivesBytes untold name.now (option_map (λ v. v.items) found)) }
        ensures contents { untold ≡ untold }
        ensures legs { self.new.leg_faults ≡ self.old.leg_faults }
        ensures cause { HasCause is_fault self.old.faults self.new.faults result }
    {
        self.check(name)?;
        let answer = fs::read(self.rt, name);
        self.found(answer)
    }

    fn store(&mut self, name: &str, bytes: &[u8]) -> Result<(), ShelfEnd>
        ensures inside { is_file_name name.now ≡ false → failed result ≡ true }

        // What every shelf promises.
        ensures contents { MatchResult result
            (λ _. untold ≡ put_file untold name.now (Some bytes.now))
            (λ _. OthersStay untold name.now untold) }
        ensures legs { self.new.leg_faults ≡ self.old.leg_faults }
        ensures cause { HasCause is_fault self.old.faults self.new.faults result }
    {
        self.check(name)?;
        match fs::write(self.rt, name, bytes) {
            Ok(()) => Ok(()),
            Err(fault) => Err(self.end(fault.kind())),
        }
    }

    fn size(&mut self, name: &str) -> Result<Option<u64>, ShelfEnd>
        ensures inside { is_file_name name.now ≡ false → failed result ≡ true }

        // What every shelf promises.
        ensures size { IfOk result (λ found. GivesSize untold name.now found) }
        ensures contents { untold ≡ untold }
        ensures legs { self.new.leg_faults ≡ self.old.leg_faults }
        ensures cause { HasCause is_fault self.old.faults self.new.faults result }
    {
        self.check(name)?;
        let answer = fs::metadata(self.rt, name);
        Ok(self.found(answer)?.map(|data| data.len()))
    }

    fn open_leg(&mut self, name: &str) -> Result<Option<PagedLeg<R::File>>, ShelfEnd>
        ensures inside { is_file_name name.now ≡ false → failed result ≡ true }

        // What every shelf promises.
        ensures leg { IfOk result (λ found. GivesLeg untold name.now
            (option_map ⟦<PagedLeg<R::File> as LegDev>⟧.contents found)) }
        ensures sound { IfOk result (λ found. IfSome found (λ leg. leg.faults ≡ 0)) }
        ensures contents { untold ≡ untold }
        ensures legs { self.new.leg_faults ≡ self.old.leg_faults }
        ensures cause { HasCause is_fault self.old.faults self.new.faults result }
    {
        self.check(name)?;
        let answer = open_file(self.rt, name);
        match self.found(answer)? {
            None => Ok(None),
            Some((file, sectors)) => Ok(Some(PagedLeg::new(file, sectors))),
        }
    }

    fn close_leg(&mut self, name: &str, leg: PagedLeg<R::File>) -> Result<(), ShelfEnd> {
        self.leg_faults = self.leg_faults.saturating_add(leg.faults());
        self.check(name)
    }
}
