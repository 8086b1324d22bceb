// Where a request stands among those in flight.
ghost use Rattle.std.specs.Prelude.{◌≡◌, None, MatchOption};
ghost use Rattle.mirror_io.specs.Flight.{write_in, read_in, write_within, write_from, read_from};
ghost use Rattle.mirror_io.specs.Places.{IsWritePlace, IsReadPlace};

use crate::table::Table;
use crate::{LiveRead, LiveWrite};
use mdc_types::{Range, ReadNo, WriteNo};

/// The place of the write of this number.
pub fn write_place(writes: &Table<LiveWrite>, k: WriteNo) -> Option<usize>
    ensures { MatchOption result (write_in k writes.now ≡ None) (IsWritePlace k writes.now) }
{
    for i in 0..writes.len() {
        if writes.at(i).number == k {
            return Some(i);
        }
    }
    None
}

/// The place of the read of this number.
pub fn read_place(reads: &Table<LiveRead>, k: ReadNo) -> Option<usize>
    ensures { MatchOption result (read_in k reads.now ≡ None) (IsReadPlace k reads.now) }
{
    for i in 0..reads.len() {
        if reads.at(i).number == k {
            return Some(i);
        }
    }
    None
}

/// The number of the first write of a sector in the range.
pub fn first_within(writes: &Table<LiveWrite>, r: Range) -> Option<WriteNo>
    ensures { result ≡ write_within r.lo r.hi writes.now }
{
    for i in 0..writes.len() {
        let w = writes.at(i);
        if r.holds(w.sector) {
            return Some(w.number);
        }
    }
    None
}

/// The number of the first write that is `k` or more.
pub fn first_write_from(writes: &Table<LiveWrite>, k: WriteNo) -> Option<WriteNo>
    ensures { result ≡ write_from k writes.now }
{
    for i in 0..writes.len() {
        let number = writes.at(i).number;
        if number >= k {
            return Some(number);
        }
    }
    None
}

/// The number of the first read that is `k` or more.
pub fn first_read_from(reads: &Table<LiveRead>, k: ReadNo) -> Option<ReadNo>
    ensures { result ≡ read_from k reads.now }
{
    for i in 0..reads.len() {
        let number = reads.at(i).number;
        if number >= k {
            return Some(number);
        }
    }
    None
}
