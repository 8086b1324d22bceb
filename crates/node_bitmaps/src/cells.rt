// The cells of a map, one for each chunk, and its pages, one byte for each.
ghost use Rattle.std.specs.Prelude.{◌≡◌, ◌<◌, ◌≤◌, ◌-◌, ℕ, ◌==◌, nat_lt, not, ◌&&◌, ◌||◌, if◌then◌else◌, List, false, length, get_or, slice_set, is_some};
ghost use Rattle.dlm_modes.specs.First.{first_such};
ghost use Rattle.mdc_types.specs.Bits.{has_bit};
ghost use Rattle.mdc_types.specs.Geometry.{Sizes, chunks_of, page_of};
ghost use Rattle.slot_pages.specs.Slot.{chunk_bit, page_has};
ghost use Rattle.node_bitmaps.specs.Cells.{no_cell, cell_at, bits_of, page_chunk, SameButMarks, SameButNeed};
ghost use Rattle.node_bitmaps.specs.Opened.{opened};
ghost use Rattle.node_bitmaps.specs.Bitmap.{with_set, with_need, entered, exited, written, failed, found_page, with_new_legs, forgotten};

use mdc_types::{ChunkNo, ChunkSet, LegId, PageNo, Sector, has_leg, with_leg, without_leg};
use slot_pages::{end_of_page, first_chunk};

/// What is kept of a chunk.
#[derive(Clone, Copy)]
pub struct Cell {
    /// How many live writes the node has in it.
    pub writes: u16,
    pub set: bool,
    pub needed: bool,
    /// The legs where its bit surely stands, one bit for each.
    pub marks: u8,
}

impl Cell {
    pub const NONE: Cell = Cell {
        writes: 0,
        set: false,
        needed: false,
        marks: 0,
    };
}

/// The set of legs with the leg in it, or without it.
pub fn with_flag(legs: u8, leg: LegId, flag: bool) -> u8
    requires { leg < 8 }
    ensures { (k : ℕ) → has_bit result k ≡ (if k == leg then flag else has_bit legs k) }
{
    if flag {
        with_leg(legs, leg)
    } else {
        without_leg(legs, leg)
    }
}

/// The page was written to the leg, or else a write of it failed.
pub fn update_page(cells: &mut [Cell], p: PageNo, leg: LegId, written: bool)
    requires leg { leg < 8 }
    requires page { p < 16 }
    requires chunks { length cells.old ≤ 63488 }
    ensures others { (c : ℕ) → SameButMarks (cell_at cells.old c) (cell_at cells.new c) }
    ensures marks { (c k : ℕ) → has_bit (cell_at cells.new c).marks k
        ≡ (if (page_of c == p) && (k == leg) then (cell_at cells.old c).set && (written || has_bit (cell_at cells.old c).marks k) else has_bit (cell_at cells.old c).marks k) }
{
    let end = (end_of_page(p) as usize).min(cells.len());
    for c in first_chunk(p) as usize..end {
        let cell = cells[c];
        let stands = cell.set && (written || has_leg(cell.marks, leg));
        cells[c] = Cell {
            marks: with_flag(cell.marks, leg, stands),
            ..cell
        };
    }
}

// The legs of the first set that aren't in the other.
fn without(legs: u8, gone: u8) -> u8
    ensures { (k : ℕ) → has_bit result k ≡ (has_bit legs k && not (has_bit gone k)) }
{
    legs & !gone
}

/// No mark is on these legs.
pub fn clear_legs(cells: &mut [Cell], legs: u8)
    ensures others { (c : ℕ) → SameButMarks (cell_at cells.old c) (cell_at cells.new c) }
    ensures marks { (c k : ℕ) → has_bit (cell_at cells.new c).marks k
        ≡ (has_bit (cell_at cells.old c).marks k && not (has_bit legs k)) }
{
    for c in 0..cells.len() {
        let cell = cells[c];
        cells[c] = Cell {
            marks: without(cell.marks, legs),
            ..cell
        };
    }
}

/// No page is fresh on these legs.
pub fn clear_pages(fresh: &mut [u8], legs: u8)
    ensures { (p k : ℕ) → has_bit (get_or fresh.new p 0) k
        ≡ (has_bit (get_or fresh.old p 0) k && not (has_bit legs k)) }
{
    for p in 0..fresh.len() {
        fresh[p] = without(fresh[p], legs);
    }
}

/// Only the marks stay.
pub fn forget(cells: &mut [Cell])
    ensures { (c : ℕ) → cell_at cells.new c ≡ record no_cell { marks = (cell_at cells.old c).marks } }
{
    for c in 0..cells.len() {
        cells[c] = Cell {
            marks: cells[c].marks,
            ..Cell::NONE
        };
    }
}

/// The first chunk of the set from `from` on.
pub fn first_set(cells: &[Cell], from: ChunkNo) -> Option<ChunkNo>
    requires { length cells.now ≤ 63488 }
    ensures { result ≡ first_such (λ c. (cell_at cells.now c).set) from (length cells.now - from) }
{
    for c in from..cells.len() as u32 {
        if cells[c as usize].set {
            return Some(c);
        }
    }
    None
}

/// The first chunk to be copied from `from` on.
pub fn first_needed(cells: &[Cell], from: ChunkNo) -> Option<ChunkNo>
    requires { length cells.now ≤ 63488 }
    ensures { result ≡ first_such (λ c. (cell_at cells.now c).needed) from (length cells.now - from) }
{
    for c in from..cells.len() as u32 {
        if cells[c as usize].needed {
            return Some(c);
        }
    }
    None
}

/// The first chunk of these that is to be copied.
pub fn first_needed_of(cells: &[Cell], chunks: &ChunkSet) -> Option<ChunkNo>
    requires { length chunks.now ≡ length cells.now }
    ensures { result
        ≡ first_such (λ c. get_or chunks.now c false && (cell_at cells.now c).needed) 0 (length cells.now) }
{
    for c in 0..chunks.chunks() {
        if chunks.has(c) && cells[c as usize].needed {
            return Some(c);
        }
    }
    None
}

/// Whether the chunk is in the set. Where that changes, its page is fresh no more.
pub fn put(cells: &mut [Cell], fresh: &mut [u8], c: ChunkNo, set: bool)
    requires chunk { c < length cells.old }
    requires page { page_of c < length fresh.old }
    ensures { bits_of cells.new fresh.new ≡ with_set (bits_of cells.old fresh.old) c set }
{
    let cell = cells[c as usize];
    if cell.set != set {
        cells[c as usize] = Cell { set, ..cell };
        fresh[slot_pages::page_of(c) as usize] = 0;
    }
}

/// Whether the chunk is to be copied.
pub fn set_need(cells: &mut [Cell], c: ChunkNo, needed: bool)
    requires { c < length cells.old }
    ensures { (fresh : List ℕ) → bits_of cells.new fresh ≡ with_need (bits_of cells.old fresh) c needed }
{
    let cell = cells[c as usize];
    cells[c as usize] = Cell { needed, ..cell };
}

/// The node has one live write more in the chunk.
pub fn enter(cells: &mut [Cell], c: ChunkNo)
    requires chunk { c < length cells.old }
    requires room { (cell_at cells.old c).writes < 16 }
    ensures { (fresh : List ℕ) → bits_of cells.new fresh ≡ entered (bits_of cells.old fresh) c }
{
    let cell = cells[c as usize];
    cells[c as usize] = Cell {
        writes: cell.writes + 1,
        ..cell
    };
}

/// The node has one live write less in the chunk.
pub fn exit(cells: &mut [Cell], c: ChunkNo)
    requires chunk { c < length cells.old }
    requires live { 0 < (cell_at cells.old c).writes }
    ensures { (fresh : List ℕ) → bits_of cells.new fresh ≡ exited (bits_of cells.old fresh) c }
{
    let cell = cells[c as usize];
    cells[c as usize] = Cell {
        writes: cell.writes - 1,
        ..cell
    };
}

/// The page was written to the leg.
pub fn page_out(cells: &mut [Cell], fresh: &mut [u8], p: PageNo, leg: LegId)
    requires leg { leg < 8 }
    requires page { p < length fresh.old }
    requires pages { length fresh.old ≤ 16 }
    requires chunks { length cells.old ≤ 63488 }
    ensures { bits_of cells.new fresh.new ≡ written (bits_of cells.old fresh.old) p leg }
{
    update_page(cells, p, leg, true);
    fresh[p as usize] = with_flag(fresh[p as usize], leg, true);
}

/// A write of the page to the leg failed.
pub fn page_failed(cells: &mut [Cell], fresh: &mut [u8], p: PageNo, leg: LegId)
    requires leg { leg < 8 }
    requires page { p < length fresh.old }
    requires pages { length fresh.old ≤ 16 }
    requires chunks { length cells.old ≤ 63488 }
    ensures { bits_of cells.new fresh.new ≡ failed (bits_of cells.old fresh.old) p leg }
{
    update_page(cells, p, leg, false);
    fresh[p as usize] = with_flag(fresh[p as usize], leg, false);
}

/// Nothing is known of these legs.
pub fn new_legs(cells: &mut [Cell], fresh: &mut [u8], legs: u8)
    ensures { bits_of cells.new fresh.new ≡ with_new_legs (bits_of cells.old fresh.old) (has_bit legs) }
{
    clear_legs(cells, legs);
    clear_pages(fresh, legs);
}

// Whether the chunk's bit is set in its page.
fn has_chunk(page: &Sector, c: ChunkNo) -> bool
    ensures { result ≡ chunk_bit page.now.bytes c }
{
    (page.bytes[(256 + c as usize / 8) % 512] >> (c % 8)) & 1 == 1
}

// Whether the page has a chunk that isn't in the set.
fn brings_new(cells: &[Cell], p: PageNo, page: &Sector) -> bool
    requires page { p < 16 }
    requires chunks { length cells.now ≤ 63488 }
    ensures { result ≡ is_some (first_such
        (λ c. page_chunk (length cells.now) p page.now.bytes c && not (cell_at cells.now c).set)
        0 (length cells.now)) }
{
    for c in first_chunk(p)..end_of_page(p).min(cells.len() as u32) {
        if has_chunk(page, c) && !cells[c as usize].set {
            return true;
        }
    }
    false
}

// The chunk joins where its bit is set.
fn with_chunk(cell: Cell, here: bool) -> Cell
    ensures { result ≡ record cell { set = cell.set || here; needed = cell.needed || here } }
{
    Cell {
        set: cell.set || here,
        needed: cell.needed || here,
        ..cell
    }
}

// The page's chunks join the set, and are to be copied.
fn join(cells: &mut [Cell], p: PageNo, page: &Sector)
    requires page { p < 16 }
    requires chunks { length cells.old ≤ 63488 }
    ensures others { (c : ℕ) → SameButNeed (cell_at cells.old c) (cell_at cells.new c) }
    ensures set { (c : ℕ) → (cell_at cells.new c).set
        ≡ ((cell_at cells.old c).set || page_chunk (length cells.old) p page.now.bytes c) }
    ensures need { (c : ℕ) → (cell_at cells.new c).needed
        ≡ ((cell_at cells.old c).needed || page_chunk (length cells.old) p page.now.bytes c) }
{
    for c in first_chunk(p)..end_of_page(p).min(cells.len() as u32) {
        cells[c as usize] = with_chunk(cells[c as usize], has_chunk(page, c));
    }
}

/// Page `p` was read, and its chunks join. Where that changes the set, the page is fresh no more.
pub fn found_page(cells: &mut [Cell], fresh: &mut [u8], p: PageNo, page: &Sector)
    requires page { p < length fresh.old }
    requires pages { length fresh.old ≤ 16 }
    requires chunks { length cells.old ≤ 63488 }
    ensures { (g : Sizes) → length cells.old ≡ chunks_of g
        → bits_of cells.new fresh.new
        ≡ found_page g (bits_of cells.old fresh.old) p (page_has g p page.now.bytes) }
{
    let changes = brings_new(cells, p, page);
    join(cells, p, page);
    if changes {
        fresh[p as usize] = 0;
    }
}

/// The node is gone.
pub fn forget_all(cells: &mut [Cell], fresh: &mut [u8])
    ensures { bits_of cells.new fresh.new ≡ forgotten (bits_of cells.old fresh.old) }
{
    forget(cells);
    fresh.fill(0);
}

fn put_flag(into: &mut ChunkSet, c: ChunkNo, flag: bool)
    requires { c < length into.old }
    ensures { into.new ≡ slice_set into.old c flag }
{
    if flag {
        into.add(c);
    } else {
        into.remove(c);
    }
}

/// Makes the set that of the cells.
pub fn set_into(cells: &[Cell], into: &mut ChunkSet)
    requires { length into.old ≡ length cells.now }
    ensures chunks { length into.new ≡ length into.old }
    ensures each { (c : ℕ) → get_or into.new c false ≡ (cell_at cells.now c).set }
{
    for c in 0..into.chunks() {
        put_flag(into, c, cells[c as usize].set);
    }
}

/// Makes the set the chunks to be copied.
pub fn needed_into(cells: &[Cell], into: &mut ChunkSet)
    requires { length into.old ≡ length cells.now }
    ensures chunks { length into.new ≡ length into.old }
    ensures each { (c : ℕ) → get_or into.new c false ≡ (cell_at cells.now c).needed }
{
    for c in 0..into.chunks() {
        put_flag(into, c, cells[c as usize].needed);
    }
}

// The legs below a count.
#[tactic(auto, using(crate::proofs::OpenLaws::more_below, crate::proofs::OpenLaws::none_below))]
fn legs_below(count: u8) -> u8
    requires { count ≤ 8 }
    ensures { (l : ℕ) → has_bit result l ≡ nat_lt l count }
{
    let mut legs = 0;
    for l in 0..count {
        legs = with_leg(legs, l);
    }
    legs
}

// A chunk that is set on all these legs, or not set.
fn opened_cell(all: u8, warm: bool) -> Cell
    ensures { result ≡ record no_cell { set = warm; marks = if warm then all else 0 } }
{
    Cell {
        set: warm,
        marks: if warm { all } else { 0 },
        ..Cell::NONE
    }
}

/// A member opens: all chunks are set, or none, and this stands on so many legs.
pub fn open_member(cells: &mut [Cell], fresh: &mut [u8], legs: u8, warm: bool)
    requires { legs ≤ 8 }
    ensures { bits_of cells.new fresh.new ≡ opened (length cells.old) (length fresh.old) legs warm }
{
    let all = legs_below(legs);
    cells.fill(opened_cell(all, warm));
    fresh.fill(all);
}
