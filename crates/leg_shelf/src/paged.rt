ghost use Rattle.std.specs.Prelude.{◌≡◌};

use leg_store::LegDev;
use mdc_types::{Failed, Sector};
use std::io;
use std::io::{Read, Seek, SeekFrom, Write};

/// A leg on an open file: each call reads or writes one sector there. It counts its faults, and
/// doesn't tell what it holds.
#[derive(Drop)]
pub struct PagedLeg<F: Read + Write + Seek> {
    file: F,
    length: u32,
    faults: u64,
}

impl<F: Read + Write + Seek> PagedLeg<F> {
    /// A leg of this many sectors of the file, from its first on.
    pub fn new(file: F, length: u32) -> PagedLeg<F>
        ensures size { ⟦<PagedLeg<F> as LegDev>⟧.size result ≡ length }
        ensures faults { ⟦<PagedLeg<F> as LegDev>⟧.faults result ≡ 0 }
    {
        PagedLeg {
            file,
            length,
            faults: 0,
        }
    }

    /// How many transfers have failed. The count stays at its type's last value.
    pub fn faults(&self) -> u64
        ensures { result ≡ ⟦<PagedLeg<F> as LegDev>⟧.faults self.now }
    {
        self.faults
    }

    fn read_sector(&mut self, at: u32) -> io::Result<Sector>
        ensures size { self.new.length ≡ self.old.length }
        ensures faults { self.new.faults ≡ self.old.faults }
    {
        let mut sector = Sector::ZERO;
        self.file.seek(SeekFrom::Start(512 * u64::from(at)))?;
        self.file.read_exact(&mut sector.bytes)?;
        Ok(sector)
    }

    fn write_sector(&mut self, at: u32, value: &Sector) -> io::Result<()>
        ensures size { self.new.length ≡ self.old.length }
        ensures faults { self.new.faults ≡ self.old.faults }
    {
        self.file.seek(SeekFrom::Start(512 * u64::from(at)))?;
        self.file.write_all(&value.bytes)
    }
}

impl<F: Read + Write + Seek> LegDev for PagedLeg<F> {
    ghost use Rattle.std.specs.Prelude.{None};

    ghost contents = { λ _. None };

    ghost size = { λ leg. leg.length };

    ghost faults = { λ leg. leg.faults };

    ghost plan = { λ _. None };

    ghost told_length = { λ leg. tt };

    fn length(&self) -> u32 {
        self.length
    }

    fn read(&mut self, at: u32) -> Result<Sector, Failed> {
        match self.read_sector(at) {
            Ok(sector) => Ok(sector),
            Err(_) => {
                self.faults = self.faults.saturating_add(1);
                Err(Failed)
            }
        }
    }

    fn write(&mut self, at: u32, value: &Sector) -> Result<(), Failed> {
        match self.write_sector(at, value) {
            Ok(()) => Ok(()),
            Err(_) => {
                self.faults = self.faults.saturating_add(1);
                Err(Failed)
            }
        }
    }
}
