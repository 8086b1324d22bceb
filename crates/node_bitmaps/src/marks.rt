// Which legs are without marks.
ghost use Rattle.std.specs.Prelude.{◌≡◌, ◌<◌, ◌≤◌, ℕ, ◌==◌, Bool, not, ◌&&◌, ◌||◌, false, length, get_or, is_some};
ghost use Rattle.dlm_modes.specs.First.{first_such};
ghost use Rattle.mdc_types.specs.Bits.{has_bit};
ghost use Rattle.mdc_types.specs.Geometry.{page_of};
ghost use Rattle.mdc_types.specs.Pages.{first_page_left};
ghost use Rattle.node_bitmaps.specs.Cells.{cell_at, lacks};

use crate::cells::Cell;
use mdc_types::{ChunkSet, LegId, PageNo, leg_left};
use slot_pages::{end_of_page, first_chunk};

// The least leg of the set that isn't in the other.
fn leg_outside(legs: u8, other: u8) -> Option<LegId>
    ensures { result ≡ first_such (λ l. has_bit legs l && not (has_bit other l)) 0 8 }
{
    leg_left(&[other], legs)
}

// The legs of the set where nothing is missing of this chunk.
fn marked(legs: u8, cell: Cell) -> u8
    ensures { (l : ℕ) → has_bit result l
        ≡ (has_bit legs l && not (cell.set && not (has_bit cell.marks l))) }
{
    if cell.set { legs & cell.marks } else { legs }
}

// The legs where no mark of the page is missing.
fn marked_legs(cells: &[Cell], p: PageNo) -> u8
    requires page { p < 16 }
    requires chunks { length cells.now ≤ 63488 }
    ensures { (l : ℕ) → l < 8
        → has_bit result l ≡ not (lacks cells.now (λ c. page_of c == p) l) }
{
    let mut legs = 0xff;
    for c in first_chunk(p)..end_of_page(p).min(cells.len() as u32) {
        legs = marked(legs, cells[c as usize]);
    }
    legs
}

// The legs where no mark of these chunks is missing.
fn marked_legs_of(cells: &[Cell], chunks: &ChunkSet) -> u8
    requires { length chunks.now ≡ length cells.now }
    ensures { (l : ℕ) → l < 8
        → has_bit result l ≡ not (lacks cells.now (λ c. get_or chunks.now c false) l) }
{
    let mut legs = 0xff;
    for c in 0..chunks.chunks() {
        if chunks.has(c) {
            legs = marked(legs, cells[c as usize]);
        }
    }
    legs
}

/// The first page where a mark is missing on one of the legs, and the least such leg.
pub fn first_unmarked(cells: &[Cell], pages: u32, legs: u8) -> Option<(PageNo, LegId)>
    requires pages { pages ≤ 16 }
    requires chunks { length cells.now ≤ 63488 }
    ensures { result
        ≡ first_page_left (λ p l. not (lacks cells.now (λ c. page_of c == p) l)) (has_bit legs) pages }
{
    for p in 0..pages {
        if let Some(l) = leg_outside(legs, marked_legs(cells, p)) {
            return Some((p, l));
        }
    }
    None
}

/// The least of the legs where the chunk has no mark.
pub fn unmarked_target(cell: Cell, legs: u8) -> Option<LegId>
    ensures { result ≡ first_such (λ l. has_bit legs l && not (has_bit cell.marks l)) 0 8 }
{
    leg_outside(legs, cell.marks)
}

/// The least of the legs where a mark of one of these chunks is missing.
pub fn unmarked_target_of(cells: &[Cell], chunks: &ChunkSet, legs: u8) -> Option<LegId>
    requires { length chunks.now ≡ length cells.now }
    ensures { result
        ≡ first_such (λ l. has_bit legs l && lacks cells.now (λ c. get_or chunks.now c false) l) 0 8 }
{
    leg_outside(legs, marked_legs_of(cells, chunks))
}
