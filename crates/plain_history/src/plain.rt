ghost use Rattle.std.specs.Prelude.{◌≡◌, ◌<◌, ◌↔◌, ℕ, List, [], ◌∷◌, length, map, IsTrue, OnOk, OnErr, Some};
ghost use Rattle.mdc_types.specs.declared.numbers.Sector.{Sector};
ghost use Rattle.mdc_types.specs.declared.outcomes.Entry.{Entry};
ghost use Rattle.plain_history.specs.History.{IsFree, HasBegun, IsReadable, IsAsked, IsIn, values_at};
ghost use Rattle.plain_history.specs.Asked.{write_in};
ghost use Rattle.plain_history.specs.Runs.{RunEnds};
ghost use Rattle.plain_history.specs.Tables.{tables_of, writes_of, reads_of, Follows, IsWithin, LegalIn, start_values, ask_write, start_write, start_and_break, end_write, break_write, ask_read, end_read, die, settle, tables_after};

use crate::asked::{
    any_of_sector, drop_read, drop_reads_of, drop_write, drop_writes_of, read_of, start, write_of,
};
use crate::values::{append, decide, is_candidate};
use crate::{AskedRead, AskedWrite};
use mdc_types::{Entry, Event, NodeId, Outcome, ReadNo, Sector, SectorNo, WriteNo};
use std::alloc::AllocError;
use std::marker::Model;

/// Why an entry was not taken.
#[derive(Clone, Copy, PartialEq, Eq, Debug)]
pub enum PlainEnd {
    /// The entry is not legal after those that were run before it.
    Bad,
    /// Memory ran out.
    Memory,
}

/// The plain history after the entries that were run: the live writes, the asked reads, and the
/// candidates of each sector.
#[derive(Drop)]
pub struct Plain {
    writes: Vec<AskedWrite>,
    reads: Vec<AskedRead>,
    values: Vec<Vec<Sector>>,
}

impl Model for Plain {
    ghost use Rattle.std.specs.Prelude.{map};
    ghost use Rattle.plain_history.specs.Tables.{Tables, IsTidy, tables_of};

    ghost Value = { Tables };

    ghost view = { λ p. tables_of p.writes.items p.reads.items (map (λ list. list.items) p.values.items) };

    ghost invariant = { λ p. IsTidy (tables_of p.writes.items p.reads.items (map (λ list. list.items) p.values.items)) };
}

impl Plain {
    /// The history before any entry, with the candidates of each sector. It takes no memory.
    pub fn open(openings: Vec<Vec<Sector>>) -> Plain
        ensures tables { result ≡ tables_of [] [] (map (λ list. list.items) openings.items) }
        ensures follows { Follows (values_at (map (λ list. list.items) openings.items)) [] result }
        ensures sectors { length result.values ≡ length openings.items }
    {
        let alloc = *openings.allocator();
        Plain {
            writes: Vec::new(alloc),
            reads: Vec::new(alloc),
            values: openings,
        }
    }

    /// Takes the entry, which is to come after those that were run before: it is `Bad` exactly where it
    /// isn't legal there. The history stays as it was on an error.
    pub fn run(&mut self, e: &Entry) -> Result<(), PlainEnd>
        requires { IsWithin (length self.old.values) e.now.event }
        ensures run { (base : ℕ → List Sector) (past : List Entry) → Follows base past self.old → RunEnds base past e.now result self.new }
        ensures tables { OnOk result (self.new ≡ tables_after self.old e.now.event e.now.outcome) }
        ensures sectors { length self.new.values ≡ length self.old.values }
        ensures err { OnErr result (self.new ≡ self.old) }
    {
        // The tables are tidy.
        let _writes = &self.writes;
        if !self.allows(e) {
            return Err(PlainEnd::Bad);
        }
        match self.apply(e) {
            Ok(()) => Ok(()),
            Err(_) => Err(PlainEnd::Memory),
        }
    }

    // Whether no live write is of the sector.
    fn is_free(&self, s: SectorNo) -> bool
        ensures { IsTrue result ↔ IsFree (writes_of self.now) s }
    {
        !any_of_sector(&self.writes, s)
    }

    // Whether the write is live and has started.
    fn has_begun(&self, n: NodeId, k: WriteNo) -> bool
        ensures { IsTrue result ↔ HasBegun (writes_of self.now n k) }
    {
        match write_of(&self.writes, n, k) {
            Some(w) => w.begun,
            None => false,
        }
    }

    fn is_candidate(&self, s: SectorNo, v: &Sector) -> bool
        ensures { IsTrue result ↔ IsIn v.now (values_at self.now.values s) }
    {
        is_candidate(&self.values, s, v)
    }

    // Whether the read was asked, and may give the value.
    fn is_readable(&self, n: NodeId, k: ReadNo, v: &Sector) -> bool
        ensures { IsTrue result ↔ IsReadable v.now (values_at self.now.values) (reads_of self.now n k) }
    {
        match read_of(&self.reads, n, k) {
            Some(s) => self.is_candidate(s, v),
            None => false,
        }
    }

    // Whether the read was asked.
    fn is_asked(&self, n: NodeId, k: ReadNo) -> bool
        ensures { IsTrue result ↔ IsAsked (reads_of self.now n k) }
    {
        match read_of(&self.reads, n, k) {
            Some(_) => true,
            None => false,
        }
    }

    // Whether the entry is legal now.
    fn allows(&self, e: &Entry) -> bool
        ensures { IsTrue result ↔ LegalIn self.now e.now.event e.now.outcome }
    {
        match e.event {
            Event::In(n, k) => match e.outcome {
                Outcome::Value { value, .. } => self.is_readable(n, k, &value),
                _ => self.is_asked(n, k),
            },
            Event::Settle(_) => match e.outcome {
                Outcome::Settled { sector, value } => self.is_candidate(sector, &value),
                _ => true,
            },
            Event::EndWrite(n, k) => self.has_begun(n, k),
            Event::AskWrite(_, s, _) => self.is_free(s),
            _ => true,
        }
    }

    fn ask_write(
        &mut self,
        n: NodeId,
        k: WriteNo,
        s: SectorNo,
        v: &Sector,
    ) -> Result<(), AllocError>
        requires { s < length self.old.values }
        ensures ok { OnOk result (self.new ≡ ask_write self.old n k s v.now) }
        ensures err { OnErr result (self.new ≡ self.old) }
    {
        self.writes.reserve(1)?;
        drop_write(&mut self.writes, n, k);
        self.writes.push_reserved(AskedWrite {
            node: n,
            number: k,
            sector: s,
            value: *v,
            begun: false,
        });
        Ok(())
    }

    fn ask_read(&mut self, n: NodeId, k: ReadNo, s: SectorNo) -> Result<(), AllocError>
        ensures ok { OnOk result (self.new ≡ ask_read self.old n k s) }
        ensures err { OnErr result (self.new ≡ self.old) }
    {
        self.reads.reserve(1)?;
        drop_read(&mut self.reads, n, k);
        self.reads.push_reserved(AskedRead {
            node: n,
            number: k,
            sector: s,
        });
        Ok(())
    }

    fn end_read(&mut self, n: NodeId, k: ReadNo)
        ensures { self.new ≡ end_read self.old n k }
    {
        drop_read(&mut self.reads, n, k);
    }

    fn break_write(&mut self, n: NodeId, k: WriteNo)
        ensures { self.new ≡ break_write self.old n k }
    {
        drop_write(&mut self.writes, n, k);
    }

    fn die(&mut self, n: NodeId)
        ensures { self.new ≡ die self.old n }
    {
        drop_writes_of(&mut self.writes, n);
        drop_reads_of(&mut self.reads, n);
    }

    fn settle(&mut self, s: SectorNo, v: &Sector) -> Result<(), AllocError>
        requires { s < length self.old.values }
        ensures ok { OnOk result (self.new ≡ settle self.old s v.now) }
        ensures err { OnErr result (self.new ≡ self.old) }
    {
        decide(&mut self.values, s, v)
    }

    // The first transfer of a write appends its value to the candidates.
    fn first_transfer(&mut self, n: NodeId, k: WriteNo) -> Result<(), AllocError>
        ensures ok { OnOk result (self.new ≡ record self.old { values = start_values (write_in n k self.old.writes) self.old.values }) }
        ensures err { OnErr result (self.new ≡ self.old) }
    {
        match write_of(&self.writes, n, k) {
            Some(w) if !w.begun => append(&mut self.values, w.sector, &w.value),
            _ => Ok(()),
        }
    }

    fn start_write(&mut self, n: NodeId, k: WriteNo) -> Result<(), AllocError>
        ensures ok { OnOk result (self.new ≡ start_write self.old n k) }
        ensures err { OnErr result (self.new ≡ self.old) }
    {
        self.first_transfer(n, k)?;
        start(&mut self.writes, n, k);
        Ok(())
    }

    fn start_and_break(&mut self, n: NodeId, k: WriteNo) -> Result<(), AllocError>
        ensures ok { OnOk result (self.new ≡ start_and_break self.old n k) }
        ensures err { OnErr result (self.new ≡ self.old) }
    {
        self.first_transfer(n, k)?;
        self.break_write(n, k);
        Ok(())
    }

    fn end_write(&mut self, n: NodeId, k: WriteNo) -> Result<(), AllocError>
        requires { HasBegun (writes_of self.old n k) }
        ensures ok { OnOk result (self.new ≡ end_write self.old n k) }
        ensures err { OnErr result (self.new ≡ self.old) }
    {
        match write_of(&self.writes, n, k) {
            Some(w) => {
                decide(&mut self.values, w.sector, &w.value)?;
                drop_write(&mut self.writes, n, k);
                Ok(())
            }
            None => unreachable!(),
        }
    }

    // Puts a legal entry into the tables.
    fn apply(&mut self, e: &Entry) -> Result<(), AllocError>
        requires within { IsWithin (length self.old.values) e.now.event }
        requires legal { LegalIn self.old e.now.event e.now.outcome }
        ensures ok { OnOk result (self.new ≡ tables_after self.old e.now.event e.now.outcome) }
        ensures err { OnErr result (self.new ≡ self.old) }
    {
        match e.event {
            Event::AskWrite(n, s, v) => match e.outcome {
                Outcome::Write(k) => self.ask_write(n, k, s, &v),
                _ => Ok(()),
            },
            Event::Out(n, k, _) => match e.outcome {
                Outcome::Io(_) => self.start_and_break(n, k),
                _ => self.start_write(n, k),
            },
            Event::EndWrite(n, k) => self.end_write(n, k),
            Event::BreakWrite(n, k) => {
                self.break_write(n, k);
                Ok(())
            }
            Event::AskRead(n, s) => match e.outcome {
                Outcome::Read(k) => self.ask_read(n, k, s),
                _ => Ok(()),
            },
            Event::In(n, k) => match e.outcome {
                Outcome::Lost(_) => Ok(()),
                _ => {
                    self.end_read(n, k);
                    Ok(())
                }
            },
            Event::Die(n) => {
                self.die(n);
                Ok(())
            }
            Event::Settle(_) => match e.outcome {
                Outcome::Settled { sector, value } => self.settle(sector, &value),
                _ => Ok(()),
            },
            _ => Ok(()),
        }
    }
}
