// The live writes and the asked reads of a history, as lists.
ghost use Rattle.std.specs.Prelude.{◌≡◌, ◌==◌, ◌&&◌, not, if◌then◌else◌, vec_capacity, vec_len, ◌≤◌};
ghost use Rattle.plain_history.specs.Asked.{write_in, read_in, without_write, without_read, without_writes_of, without_reads_of, start_in, any_of_sector, started};

use mdc_types::{NodeId, ReadNo, Sector, SectorNo, WriteNo};

/// A live write.
#[derive(Clone, Copy)]
pub struct AskedWrite {
    pub node: NodeId,
    pub number: WriteNo,
    pub sector: SectorNo,
    pub value: Sector,
    /// Whether a transfer to a leg was tried.
    pub begun: bool,
}

/// A read that has not ended.
#[derive(Clone, Copy)]
pub struct AskedRead {
    pub node: NodeId,
    pub number: ReadNo,
    pub sector: SectorNo,
}

fn is_write(w: &AskedWrite, n: NodeId, k: WriteNo) -> bool
    ensures { result ≡ (w.now.node == n && w.now.number == k) }
{
    w.node == n && w.number == k
}

fn is_read(r: &AskedRead, n: NodeId, k: ReadNo) -> bool
    ensures { result ≡ (r.now.node == n && r.now.number == k) }
{
    r.node == n && r.number == k
}

pub fn write_of(writes: &[AskedWrite], n: NodeId, k: WriteNo) -> Option<AskedWrite>
    ensures { result ≡ write_in n k writes.now }
{
    for w in writes {
        if w.node == n && w.number == k {
            return Some(*w);
        }
    }
    None
}

pub fn read_of(reads: &[AskedRead], n: NodeId, k: ReadNo) -> Option<SectorNo>
    ensures { result ≡ read_in n k reads.now }
{
    for r in reads {
        if r.node == n && r.number == k {
            return Some(r.sector);
        }
    }
    None
}

pub fn any_of_sector(writes: &[AskedWrite], s: SectorNo) -> bool
    ensures { result ≡ any_of_sector s writes.now }
{
    for w in writes {
        if w.sector == s {
            return true;
        }
    }
    false
}

pub fn drop_write(writes: &mut Vec<AskedWrite>, n: NodeId, k: WriteNo)
    ensures items { writes.new.items ≡ without_write n k writes.old.items }
    ensures fewer { vec_len writes.new ≤ vec_len writes.old }
    ensures capacity { vec_capacity writes.new ≡ vec_capacity writes.old }
{
    writes.retain(|w| !is_write(w, n, k));
}

pub fn drop_read(reads: &mut Vec<AskedRead>, n: NodeId, k: ReadNo)
    ensures items { reads.new.items ≡ without_read n k reads.old.items }
    ensures fewer { vec_len reads.new ≤ vec_len reads.old }
    ensures capacity { vec_capacity reads.new ≡ vec_capacity reads.old }
{
    reads.retain(|r| !is_read(r, n, k));
}

pub fn drop_writes_of(writes: &mut Vec<AskedWrite>, n: NodeId)
    ensures { writes.new.items ≡ without_writes_of n writes.old.items }
{
    writes.retain(|w| w.node != n);
}

pub fn drop_reads_of(reads: &mut Vec<AskedRead>, n: NodeId)
    ensures { reads.new.items ≡ without_reads_of n reads.old.items }
{
    reads.retain(|r| r.node != n);
}

fn start_one(w: &mut AskedWrite, n: NodeId, k: WriteNo)
    ensures { w.new ≡ (if w.old.node == n && w.old.number == k then started w.old else w.old) }
{
    if w.node == n && w.number == k {
        w.begun = true;
    }
}

fn start_each(writes: &mut [AskedWrite], n: NodeId, k: WriteNo)
    ensures { writes.new ≡ start_in n k writes.old }
{
    for w in writes.iter_mut() {
        start_one(w, n, k);
    }
}

pub fn start(writes: &mut Vec<AskedWrite>, n: NodeId, k: WriteNo)
    ensures { writes.new.items ≡ start_in n k writes.old.items }
{
    start_each(writes, n, k);
}
