ghost use Rattle.std.specs.Prelude.{◌≡◌, ◌≤◌, ◌<◌, ◌+◌, ◌-◌, ◌^◌, [], ◌∷◌, ◌++◌, length, nat_lt, is_ok, not, ◌&&◌, IsSome, IfOk, OnOk, OnErr};
ghost use Rattle.dlm_modes.specs.First.{first_such};
ghost use Rattle.mdc_types.specs.Bits.{has_bit};
ghost use Rattle.std.specs.Option.{option_copied};
ghost use Rattle.mirror_io.specs.Flight.{no_flight, write_in, read_in, without_write, without_read, new_write, new_read, start_in, done_in, missing_of, write_within, write_from, read_from, WritesRise, ReadsRise};

use crate::places::{first_read_from, first_within, first_write_from, read_place, write_place};
use crate::table::Table;
use crate::{LiveRead, LiveWrite};
use mdc_types::{LegId, Range, ReadNo, Sector, SectorNo, WriteNo, has_leg, with_leg};
use std::alloc::{AllocError, Global};
use std::marker::Model;

/// Why a request was not taken.
#[derive(Clone, Copy, PartialEq, Eq, Debug)]
pub enum IoEnd {
    /// 16 of its kind are in flight.
    Full,
}

/// What one node has in flight: at most 16 writes and 16 reads, in the order in which they were asked.
///
/// Writes and reads are numbered from 0, each kind by itself, and the numbers go on after the node's
/// death. Only `new` takes memory.
#[derive(Drop)]
pub struct NodeIo {
    writes: Table<LiveWrite>,
    reads: Table<LiveRead>,
    writes_made: u32,
    reads_made: u32,
}

impl Model for NodeIo {
    ghost use Rattle.mirror_io.specs.Flight.{Flight, IsInOrder};

    ghost Value = { Flight };

    ghost view = { λ io. record {
      writes = io.writes;
      reads = io.reads;
      writes_made = io.writes_made;
      reads_made = io.reads_made;
    } };

    ghost invariant = { λ io. IsInOrder io.writes io.reads io.writes_made io.reads_made };
}

impl NodeIo {
    /// Nothing in flight, and nothing asked so far.
    pub fn new(alloc: Global) -> Result<NodeIo, AllocError>
        ensures { IfOk result (λ io. io ≡ no_flight) }
    {
        Ok(NodeIo {
            writes: Table::new(alloc)?,
            reads: Table::new(alloc)?,
            writes_made: 0,
            reads_made: 0,
        })
    }

    /// Whether there is room for one more write.
    pub fn can_write(&self) -> bool
        ensures room { result ≡ nat_lt (length self.now.writes) 16 }
        ensures most { length self.now.writes ≤ 16 }
        ensures numbers { WritesRise 0 self.now.writes_made self.now.writes }
    {
        self.writes.len() < 16
    }

    /// Whether there is room for one more read.
    pub fn can_read(&self) -> bool
        ensures room { result ≡ nat_lt (length self.now.reads) 16 }
        ensures most { length self.now.reads ≤ 16 }
        ensures numbers { ReadsRise 0 self.now.reads_made self.now.reads }
    {
        self.reads.len() < 16
    }

    /// The writes asked so far, which is the number that the next one gets.
    pub fn writes_made(&self) -> u32
        ensures { result ≡ self.now.writes_made }
    {
        self.writes_made
    }

    /// The reads asked so far, which is the number that the next one gets.
    pub fn reads_made(&self) -> u32
        ensures { result ≡ self.now.reads_made }
    {
        self.reads_made
    }

    /// Takes up a write of the value to the sector, and gives its number. It is `Full` where 16 writes
    /// are in flight.
    pub fn ask_write(&mut self, s: SectorNo, v: &Sector) -> Result<WriteNo, IoEnd>
        requires { self.old.writes_made < 2 ^ 32 - 1 }
        ensures room { is_ok result ≡ nat_lt (length self.old.writes) 16 }
        ensures number { IfOk result (λ k. k ≡ self.old.writes_made) }
        ensures ok { OnOk result (self.new ≡ record self.old {
          writes = self.old.writes ++ new_write self.old.writes_made s v.now ∷ [];
          writes_made = self.old.writes_made + 1;
        }) }
        ensures err { OnErr result (self.new ≡ self.old) }
    {
        if !self.can_write() {
            return Err(IoEnd::Full);
        }
        let number = self.writes_made;
        self.writes.push(LiveWrite {
            number,
            sector: s,
            value: *v,
            started: false,
            done: 0,
        });
        self.writes_made = number + 1;
        Ok(number)
    }

    /// Takes up a read of the sector, which goes to the chosen leg, and gives its number. It is `Full`
    /// where 16 reads are in flight.
    pub fn ask_read(&mut self, s: SectorNo, chosen: LegId) -> Result<ReadNo, IoEnd>
        requires { self.old.reads_made < 2 ^ 32 - 1 }
        ensures room { is_ok result ≡ nat_lt (length self.old.reads) 16 }
        ensures number { IfOk result (λ k. k ≡ self.old.reads_made) }
        ensures ok { OnOk result (self.new ≡ record self.old {
          reads = self.old.reads ++ new_read self.old.reads_made s chosen ∷ [];
          reads_made = self.old.reads_made + 1;
        }) }
        ensures err { OnErr result (self.new ≡ self.old) }
    {
        if !self.can_read() {
            return Err(IoEnd::Full);
        }
        let number = self.reads_made;
        self.reads.push(LiveRead {
            number,
            sector: s,
            chosen,
        });
        self.reads_made = number + 1;
        Ok(number)
    }

    /// A transfer of the write to a leg was tried.
    pub fn start(&mut self, k: WriteNo)
        requires { IsSome (write_in k self.old.writes) }
        ensures { self.new ≡ record self.old { writes = start_in k self.old.writes } }
    {
        match write_place(&self.writes, k) {
            Some(i) => self.writes.at_mut(i).started = true,
            None => unreachable!(),
        }
    }

    /// The leg has the value of the write.
    pub fn out_done(&mut self, k: WriteNo, l: LegId)
        requires live { IsSome (write_in k self.old.writes) }
        requires leg { l < 8 }
        ensures { self.new ≡ record self.old { writes = done_in k l self.old.writes } }
    {
        match write_place(&self.writes, k) {
            Some(i) => {
                let w = self.writes.at_mut(i);
                w.done = with_leg(w.done, l);
            }
            None => unreachable!(),
        }
    }

    /// The write ends.
    pub fn end_write(&mut self, k: WriteNo)
        requires { IsSome (write_in k self.old.writes) }
        ensures { self.new ≡ record self.old { writes = without_write k self.old.writes } }
    {
        match write_place(&self.writes, k) {
            Some(i) => self.writes.remove(i),
            None => unreachable!(),
        }
    }

    /// The read ends.
    pub fn end_read(&mut self, k: ReadNo)
        requires { IsSome (read_in k self.old.reads) }
        ensures { self.new ≡ record self.old { reads = without_read k self.old.reads } }
    {
        match read_place(&self.reads, k) {
            Some(i) => self.reads.remove(i),
            None => unreachable!(),
        }
    }

    /// All that is in flight ends, and the counts stay.
    pub fn die(&mut self)
        ensures { self.new ≡ record self.old { writes = []; reads = [] } }
    {
        self.writes.clear();
        self.reads.clear();
    }

    /// The write of this number, if it is in flight.
    pub fn write(&self, k: WriteNo) -> Option<&LiveWrite>
        ensures { option_copied result ≡ write_in k self.now.writes }
    {
        let i = write_place(&self.writes, k)?;
        Some(self.writes.at(i))
    }

    /// The read of this number, if it is in flight.
    pub fn read(&self, k: ReadNo) -> Option<&LiveRead>
        ensures { option_copied result ≡ read_in k self.now.reads }
    {
        let i = read_place(&self.reads, k)?;
        Some(self.reads.at(i))
    }

    /// The lowest of the target legs that doesn't have the value of the write. `targets` has one bit
    /// for each leg.
    pub fn missing(&self, k: WriteNo, targets: u8) -> Option<LegId>
        requires { IsSome (write_in k self.now.writes) }
        ensures { result ≡ missing_of targets (write_in k self.now.writes) }
    {
        let done = self.write(k)?.done;
        first_missing(targets, done)
    }

    /// The first write in flight to a sector of the range.
    pub fn drain(&self, r: Range) -> Option<WriteNo>
        ensures { result ≡ write_within r.lo r.hi self.now.writes }
    {
        first_within(&self.writes, r)
    }

    /// The first write in flight whose number is `k` or more.
    pub fn write_from(&self, k: WriteNo) -> Option<WriteNo>
        ensures { result ≡ write_from k self.now.writes }
    {
        first_write_from(&self.writes, k)
    }

    /// The first read in flight whose number is `k` or more.
    pub fn read_from(&self, k: ReadNo) -> Option<ReadNo>
        ensures { result ≡ read_from k self.now.reads }
    {
        first_read_from(&self.reads, k)
    }
}

// The lowest leg that is in the first set and not in the second.
fn first_missing(targets: u8, done: u8) -> Option<LegId>
    ensures { result ≡ first_such (λ l. has_bit targets l && not (has_bit done l)) 0 8 }
{
    for l in 0..8 {
        if has_leg(targets, l) && !has_leg(done, l) {
            return Some(l);
        }
    }
    None
}

#[cfg(test)]
mod tests {
    use super::*;
    use std::process::Abort;
    use std::test::Fail;

    const VALUE: Sector = Sector { bytes: [7; 512] };

    fn ask(rt: &impl Abort, io: &mut NodeIo, s: SectorNo) -> Result<WriteNo, IoEnd> {
        assert!(rt; io.writes_made() < u32::MAX);
        io.ask_write(s, &VALUE)
    }

    fn end(rt: &impl Abort, io: &mut NodeIo, k: WriteNo) {
        assert!(rt; io.write(k).is_some());
        io.end_write(k);
    }

    fn missing(rt: &impl Abort, io: &NodeIo, k: WriteNo, targets: u8) -> Option<LegId> {
        assert!(rt; io.write(k).is_some());
        io.missing(k, targets)
    }

    #[test]
    fn writes_in_flight(rt: HostRuntime) -> Result<(), Fail> {
        let mut io = NodeIo::new(rt.alloc())?;
        for (k, s) in [(0, 5), (1, 9), (2, 7)] {
            assert_eq!(rt; ask(&rt, &mut io, s), Ok(k));
        }
        assert!(rt; io.write(1).is_some());
        io.out_done(1, 2);
        assert_eq!(rt; missing(&rt, &io, 1, 0b0100), None);
        assert_eq!(rt; missing(&rt, &io, 1, 0b1100), Some(3));
        let between = Range { lo: 6, hi: 10 };
        assert_eq!(rt; io.drain(between), Some(1));
        end(&rt, &mut io, 1);
        assert_eq!(rt; io.drain(between), Some(2));
        assert_eq!(rt; io.write_from(1), Some(2));
        end(&rt, &mut io, 0);
        for k in 3..18 {
            assert_eq!(rt; ask(&rt, &mut io, 5), Ok(k));
        }
        assert_eq!(rt; ask(&rt, &mut io, 5), Err(IoEnd::Full));
        io.die();
        assert_eq!(rt; io.write_from(0), None);
        assert_eq!(rt; ask(&rt, &mut io, 5), Ok(18));
        Ok(())
    }
}
