ghost use Rattle.std.specs.Prelude.{◌≡◌, ◌<◌, ◌+◌, ◌-◌, ◌^◌, [], ◌∷◌, ◌++◌, length, nat_lt, replicate, None, IsSome, IfOk};
ghost use Rattle.std.specs.Option.{option_copied};
ghost use Rattle.dlm_modes.specs.First.{first_such};
ghost use Rattle.dlm_modes.specs.Points.{with_at};
ghost use Rattle.mirror_io.specs.Flight.{no_flight, write_in, read_in, without_write, without_read, new_write, new_read, start_in, done_in, missing_of, write_within, write_from, read_from};
ghost use Rattle.cluster_model.specs.Writes.{any_of_sector};
ghost use Rattle.node_requests.specs.Requests.{writes_of, reads_of, writes_made_of, reads_made_of};

use fs_guard::Guard;
use mdc_types::{LegId, NodeId, Range, ReadNo, Sector, SectorNo, WriteNo};
use mirror_io::{LiveRead, LiveWrite, NodeIo};
use std::alloc::{AllocError, Global};
use std::marker::Model;

/// What each of 16 nodes has in flight, of whose writes no two are of one sector.
///
/// The guard of the file system knows the writer of each sector. Only `new` takes memory.
#[derive(Drop)]
pub struct Requests {
    flights: Vec<NodeIo>,
    guard: Guard,
}

impl Model for Requests {
    ghost use Rattle.node_requests.specs.Requests.{AllRequests, IsGuarded};

    ghost Value = { AllRequests };

    ghost view = { λ r. record { flights = r.flights.items; guard = r.guard } };

    ghost invariant = { λ r. IsGuarded r.flights.items r.guard };
}

impl Requests {
    /// Nothing in flight, and nothing asked so far.
    pub fn new(alloc: Global) -> Result<Requests, AllocError>
        ensures writes { IfOk result (λ r. writes_of r ≡ λ n. []) }
        ensures reads { IfOk result (λ r. reads_of r ≡ λ n. []) }
        ensures writes_made { IfOk result (λ r. writes_made_of r ≡ λ n. 0) }
        ensures reads_made { IfOk result (λ r. reads_made_of r ≡ λ n. 0) }
    {
        Ok(Requests {
            flights: no_flights(alloc)?,
            guard: Guard::new(),
        })
    }

    /// Whether there is room for one more write of the node.
    pub fn can_write(&self, n: NodeId) -> bool
        requires { n < 16 }
        ensures { result ≡ nat_lt (length (writes_of self.now n)) 16 }
    {
        self.flights[n as usize].can_write()
    }

    /// Whether there is room for one more read of the node.
    pub fn can_read(&self, n: NodeId) -> bool
        requires { n < 16 }
        ensures { result ≡ nat_lt (length (reads_of self.now n)) 16 }
    {
        self.flights[n as usize].can_read()
    }

    /// The writes asked of the node so far, which is the number that the next one gets.
    pub fn writes_made(&self, n: NodeId) -> u32
        requires { n < 16 }
        ensures { result ≡ writes_made_of self.now n }
    {
        self.flights[n as usize].writes_made()
    }

    /// The reads asked of the node so far, which is the number that the next one gets.
    pub fn reads_made(&self, n: NodeId) -> u32
        requires { n < 16 }
        ensures { result ≡ reads_made_of self.now n }
    {
        self.flights[n as usize].reads_made()
    }

    /// The node that has a live write of the sector, if one does.
    pub fn writer_of(&self, s: SectorNo) -> Option<NodeId>
        ensures { result ≡ first_such (λ m. any_of_sector s (writes_of self.now m)) 0 16 }
    {
        self.guard.holder(s)
    }

    /// The node's write of this number, if it is in flight.
    pub fn write(&self, n: NodeId, k: WriteNo) -> Option<&LiveWrite>
        requires { n < 16 }
        ensures { option_copied result ≡ write_in k (writes_of self.now n) }
    {
        self.flights[n as usize].write(k)
    }

    /// The node's read of this number, if it is in flight.
    pub fn read(&self, n: NodeId, k: ReadNo) -> Option<&LiveRead>
        requires { n < 16 }
        ensures { option_copied result ≡ read_in k (reads_of self.now n) }
    {
        self.flights[n as usize].read(k)
    }

    /// The lowest of the target legs that doesn't have the value of the node's write. `targets` has
    /// one bit for each leg.
    pub fn missing(&self, n: NodeId, k: WriteNo, targets: u8) -> Option<LegId>
        requires node { n < 16 }
        requires live { IsSome (write_in k (writes_of self.now n)) }
        ensures { result ≡ missing_of targets (write_in k (writes_of self.now n)) }
    {
        self.flights[n as usize].missing(k, targets)
    }

    /// The node's first write in flight to a sector of the range.
    pub fn drain(&self, n: NodeId, r: Range) -> Option<WriteNo>
        requires { n < 16 }
        ensures { result ≡ write_within r.lo r.hi (writes_of self.now n) }
    {
        self.flights[n as usize].drain(r)
    }

    /// The node's first write in flight whose number is `k` or more.
    pub fn write_from(&self, n: NodeId, k: WriteNo) -> Option<WriteNo>
        requires { n < 16 }
        ensures { result ≡ write_from k (writes_of self.now n) }
    {
        self.flights[n as usize].write_from(k)
    }

    /// The node's first read in flight whose number is `k` or more.
    pub fn read_from(&self, n: NodeId, k: ReadNo) -> Option<ReadNo>
        requires { n < 16 }
        ensures { result ≡ read_from k (reads_of self.now n) }
    {
        self.flights[n as usize].read_from(k)
    }

    /// Takes up a write of the value to the sector, and gives its number.
    pub fn ask_write(&mut self, n: NodeId, s: SectorNo, v: &Sector) -> WriteNo
        requires node { n < 16 }
        requires room { length (writes_of self.old n) < 16 }
        requires free { first_such (λ m. any_of_sector s (writes_of self.old m)) 0 16 ≡ None }
        requires numbers { writes_made_of self.old n < 2 ^ 32 - 1 }
        ensures number { result ≡ writes_made_of self.old n }
        ensures writes { writes_of self.new ≡ with_at (writes_of self.old) n
            (writes_of self.old n ++ new_write (writes_made_of self.old n) s v.now ∷ []) }
        ensures writes_made { writes_made_of self.new ≡
            with_at (writes_made_of self.old) n (writes_made_of self.old n + 1) }
        ensures reads { reads_of self.new ≡ reads_of self.old }
        ensures reads_made { reads_made_of self.new ≡ reads_made_of self.old }
    {
        if self.guard.begin(s, n).is_err() {
            unreachable!();
        }
        let flight = &mut self.flights[n as usize];
        match flight.ask_write(s, v) {
            Ok(k) => k,
            Err(_) => unreachable!(),
        }
    }

    /// Takes up a read of the sector, which goes to the chosen leg, and gives its number.
    pub fn ask_read(&mut self, n: NodeId, s: SectorNo, chosen: LegId) -> ReadNo
        requires node { n < 16 }
        requires room { length (reads_of self.old n) < 16 }
        requires numbers { reads_made_of self.old n < 2 ^ 32 - 1 }
        ensures number { result ≡ reads_made_of self.old n }
        ensures reads { reads_of self.new ≡ with_at (reads_of self.old) n
            (reads_of self.old n ++ new_read (reads_made_of self.old n) s chosen ∷ []) }
        ensures reads_made { reads_made_of self.new ≡
            with_at (reads_made_of self.old) n (reads_made_of self.old n + 1) }
        ensures writes { writes_of self.new ≡ writes_of self.old }
        ensures writes_made { writes_made_of self.new ≡ writes_made_of self.old }
    {
        let flight = &mut self.flights[n as usize];
        match flight.ask_read(s, chosen) {
            Ok(k) => k,
            Err(_) => unreachable!(),
        }
    }

    /// A transfer of the node's write to a leg was tried.
    pub fn start(&mut self, n: NodeId, k: WriteNo)
        requires node { n < 16 }
        requires live { IsSome (write_in k (writes_of self.old n)) }
        ensures writes { writes_of self.new ≡
            with_at (writes_of self.old) n (start_in k (writes_of self.old n)) }
        ensures reads { reads_of self.new ≡ reads_of self.old }
        ensures writes_made { writes_made_of self.new ≡ writes_made_of self.old }
        ensures reads_made { reads_made_of self.new ≡ reads_made_of self.old }
    {
        let flight = &mut self.flights[n as usize];
        flight.start(k);
    }

    /// The leg has the value of the node's write.
    pub fn out_done(&mut self, n: NodeId, k: WriteNo, l: LegId)
        requires node { n < 16 }
        requires live { IsSome (write_in k (writes_of self.old n)) }
        requires leg { l < 8 }
        ensures writes { writes_of self.new ≡
            with_at (writes_of self.old) n (done_in k l (writes_of self.old n)) }
        ensures reads { reads_of self.new ≡ reads_of self.old }
        ensures writes_made { writes_made_of self.new ≡ writes_made_of self.old }
        ensures reads_made { reads_made_of self.new ≡ reads_made_of self.old }
    {
        let flight = &mut self.flights[n as usize];
        flight.out_done(k, l);
    }

    /// The node's write ends.
    pub fn end_write(&mut self, n: NodeId, k: WriteNo)
        requires node { n < 16 }
        requires live { IsSome (write_in k (writes_of self.old n)) }
        ensures writes { writes_of self.new ≡
            with_at (writes_of self.old) n (without_write k (writes_of self.old n)) }
        ensures reads { reads_of self.new ≡ reads_of self.old }
        ensures writes_made { writes_made_of self.new ≡ writes_made_of self.old }
        ensures reads_made { reads_made_of self.new ≡ reads_made_of self.old }
    {
        let flight = &mut self.flights[n as usize];
        match flight.write(k) {
            Some(w) => {
                self.guard.end(w.sector, n);
                flight.end_write(k);
            }
            None => unreachable!(),
        }
    }

    /// The node's read ends.
    pub fn end_read(&mut self, n: NodeId, k: ReadNo)
        requires node { n < 16 }
        requires live { IsSome (read_in k (reads_of self.old n)) }
        ensures reads { reads_of self.new ≡
            with_at (reads_of self.old) n (without_read k (reads_of self.old n)) }
        ensures writes { writes_of self.new ≡ writes_of self.old }
        ensures writes_made { writes_made_of self.new ≡ writes_made_of self.old }
        ensures reads_made { reads_made_of self.new ≡ reads_made_of self.old }
    {
        let flight = &mut self.flights[n as usize];
        flight.end_read(k);
    }

    /// All that the node has in flight ends, and its counts stay.
    pub fn die(&mut self, n: NodeId)
        requires { n < 16 }
        ensures writes { writes_of self.new ≡ with_at (writes_of self.old) n [] }
        ensures reads { reads_of self.new ≡ with_at (reads_of self.old) n [] }
        ensures writes_made { writes_made_of self.new ≡ writes_made_of self.old }
        ensures reads_made { reads_made_of self.new ≡ reads_made_of self.old }
    {
        self.guard.die(n);
        let flight = &mut self.flights[n as usize];
        flight.die();
    }
}

fn no_flights(alloc: Global) -> Result<Vec<NodeIo>, AllocError>
    ensures { IfOk result (λ v. v.items ≡ replicate 16 no_flight) }
{
    let mut flights = Vec::with_capacity(alloc, 16)?;
    for _n in 0..16_u8 {
        flights.push(NodeIo::new(alloc)?)?;
    }
    Ok(flights)
}

#[cfg(test)]
mod tests {
    use super::*;
    use std::test::Fail;

    const VALUE: Sector = Sector { bytes: [7; 512] };

    #[derive(Clone, Copy)]
    enum Call {
        Write(NodeId, SectorNo),
        Read(NodeId, SectorNo),
        OutDone(NodeId, WriteNo),
        EndWrite(NodeId, WriteNo),
        EndRead(NodeId, ReadNo),
        Die(NodeId),
    }

    #[test]
    fn calls(rt: HostRuntime) -> Result<(), Fail> {
        let mut requests = Requests::new(rt.alloc())?;
        // A call, and then the writers of sectors 5 and 6 and node 1's first write.
        for (call, five, six, first) in [
            (Call::Write(1, 5), Some(1), None, Some(0)),
            (Call::Write(0, 6), Some(1), Some(0), Some(0)),
            (Call::OutDone(1, 0), Some(1), Some(0), Some(0)),
            (Call::Read(1, 6), Some(1), Some(0), Some(0)),
            (Call::EndRead(1, 0), Some(1), Some(0), Some(0)),
            (Call::EndWrite(1, 0), None, Some(0), None),
            (Call::Write(15, 5), Some(15), Some(0), None),
            (Call::Die(0), Some(15), None, None),
            (Call::Write(1, 6), Some(15), Some(1), Some(1)),
        ] {
            match call {
                Call::Write(n, s) => {
                    assert!(rt; n < 16 && requests.can_write(n) && requests.writes_made(n) < 9);
                    let None = requests.writer_of(s) else {
                        panic!(rt; "the sector has a writer");
                    };
                    requests.ask_write(n, s, &VALUE);
                }
                Call::Read(n, s) => {
                    assert!(rt; n < 16 && requests.can_read(n) && requests.reads_made(n) < 9);
                    requests.ask_read(n, s, 1);
                }
                Call::OutDone(n, k) => {
                    assert!(rt; n < 16 && requests.write(n, k).is_some());
                    requests.out_done(n, k, 2);
                }
                Call::EndWrite(n, k) => {
                    assert!(rt; n < 16 && requests.write(n, k).is_some());
                    requests.end_write(n, k);
                }
                Call::EndRead(n, k) => {
                    assert!(rt; n < 16 && requests.read(n, k).is_some());
                    requests.end_read(n, k);
                }
                Call::Die(n) => {
                    assert!(rt; n < 16);
                    requests.die(n);
                }
            }
            assert_eq!(rt; requests.writer_of(5), five);
            assert_eq!(rt; requests.writer_of(6), six);
            assert_eq!(rt; requests.write_from(1, 0), first);
        }
        Ok(())
    }
}
