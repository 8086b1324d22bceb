ghost use Rattle.std.specs.Prelude.{◌≡◌, ◌<◌, ◌≤◌, ◌+◌, ◌-◌, ◌++◌, ◌∷◌, [], ℕ, false, map, length, vec_len, IfOk, OnOk, get_or};
ghost use Rattle.std.specs.List.{list_any};
ghost use Rattle.std.specs.Str.{bytes_eq};
ghost use Rattle.mdc_types.specs.Geometry.{chunk_of};
ghost use Rattle.cluster_model.specs.Contents.{with_new};
ghost use Rattle.image_array.specs.Legs.{AreAll};
ghost use Rattle.image_array.specs.Heads.{IsHead};
ghost use Rattle.image_array.specs.Values.{AreRows, AddsValues, HasFirstRow, JudgesData, differing_leg, differs, first_working, in_rows, is_marked, unmarked_leg, values_of};

use crate::Head;
use crate::marks::{is_marked, works};
use crew_check::compare;
use image_faults::{ImageError, ImageFault, LegImage};
use mdc_types::{LegId, Roles, Sector, SectorNo};
use std::alloc::{AllocError, Global};
use std::thread::Threads;

// The least leg that works.
fn first_working(roles: &Roles) -> LegId
    ensures value { result ≡ first_working roles.now }
    ensures range { result < 8 }
{
    for l in 0..8 {
        if works(roles, l) {
            return l;
        }
    }
    0
}

// The row of leg `l`.
fn row_of(rows: &[Vec<Sector>], l: LegId) -> &[Sector]
    requires { l < length (map (λ row. row.items) rows.now) }
    ensures { result.now ≡ get_or (map (λ row. row.items) rows.now) l [] }
{
    rows[l as usize].as_slice()
}

// Whether leg `l` works and its row differs from that of the first leg that works.
#[tactic(auto, using(crate::proofs::ValueLaws::row_there, crate::proofs::ValueLaws::first_there, crate::proofs::RowsLaws::as_long, crate::proofs::RowsLaws::first_has))]
fn row_differs<R: Threads + Sync>(
    rt: &R,
    alloc: Global,
    roles: &Roles,
    rows: &[Vec<Sector>],
    count: u32,
    l: LegId,
) -> Result<bool, AllocError>
    requires rows { AreRows roles.now count (map (λ row. row.items) rows.now) }
    requires leg { l < 8 }
    ensures { IfOk result (λ differs. differs ≡ false
        → HasFirstRow roles.now (map (λ row. row.items) rows.now) l) }
{
    let first = first_working(roles);
    if !works(roles, l) || l == first {
        return Ok(false);
    }
    let place = compare(rt, alloc, row_of(rows, l), row_of(rows, first))?;
    Ok(place.is_some())
}

// Whether the rows of some legs that work differ.
fn rows_differ<R: Threads + Sync>(
    rt: &R,
    alloc: Global,
    roles: &Roles,
    rows: &[Vec<Sector>],
    count: u32,
) -> Result<bool, AllocError>
    requires { AreRows roles.now count (map (λ row. row.items) rows.now) }
    ensures { IfOk result (λ differ. differ ≡ false
        → (l : ℕ) → l < 8 → HasFirstRow roles.now (map (λ row. row.items) rows.now) l) }
{
    for l in 0..8 {
        if row_differs(rt, alloc, roles, rows, count, l)? {
            return Ok(true);
        }
    }
    Ok(false)
}

// What leg `l` has at sector `s`, in rows that begin with sector `from`.
fn sector_at(rows: &[Vec<Sector>], from: SectorNo, l: LegId, s: SectorNo) -> Sector
    requires leg { l < length (map (λ row. row.items) rows.now) }
    requires after { from ≤ s }
    requires place { s - from < length (get_or (map (λ row. row.items) rows.now) l []) }
    ensures { result ≡ in_rows (map (λ row. row.items) rows.now) from l s }
{
    let row = row_of(rows, l);
    row[(s - from) as usize]
}

// Whether leg `l` works and differs at sector `s` from the first leg that works.
#[tactic(auto, using(crate::proofs::ValueLaws::row_there, crate::proofs::ValueLaws::row_long, crate::proofs::ValueLaws::first_there, crate::proofs::ValueLaws::first_long))]
fn differs(
    roles: &Roles,
    rows: &[Vec<Sector>],
    from: SectorNo,
    count: u32,
    s: SectorNo,
    l: LegId,
) -> bool
    requires rows { AreRows roles.now count (map (λ row. row.items) rows.now) }
    requires after { from ≤ s }
    requires before { s < from + count }
    requires leg { l < 8 }
    ensures { let stored = in_rows (map (λ row. row.items) rows.now) from in
        result ≡ differs roles.now (λ k. stored k s) l }
{
    works(roles, l)
        && sector_at(rows, from, l, s).bytes != sector_at(rows, from, first_working(roles), s).bytes
}

// The least leg that works and differs at sector `s` from the first leg that works.
fn differing_leg(
    roles: &Roles,
    rows: &[Vec<Sector>],
    from: SectorNo,
    count: u32,
    s: SectorNo,
) -> Option<LegId>
    requires rows { AreRows roles.now count (map (λ row. row.items) rows.now) }
    requires after { from ≤ s }
    requires before { s < from + count }
    ensures { let stored = in_rows (map (λ row. row.items) rows.now) from in
        result ≡ differing_leg roles.now (λ k. stored k s) }
{
    for l in 0..8 {
        if differs(roles, rows, from, count, s, l) {
            return Some(l);
        }
    }
    None
}

// Whether a slot on a leg that works marks the chunk of sector `s`.
fn is_marked_at(head: &Head, images: &[LegImage], s: SectorNo) -> bool
    requires legs { AreAll images.now }
    requires head { IsHead images.now head.now }
    requires within { s < head.now.geometry.room }
    ensures { result ≡ is_marked images.now head.now.roles (chunk_of head.now.geometry s) }
{
    // It is what tells that no chunk is empty.
    let _chunk = head.geometry.chunk();
    is_marked(images, &head.roles, head.geometry.chunk_of(s))
}

// The leg that is told where legs that work differ at sector `s` and nothing marks its chunk.
fn unmarked_leg(
    head: &Head,
    images: &[LegImage],
    rows: &[Vec<Sector>],
    from: SectorNo,
    count: u32,
    s: SectorNo,
) -> Option<LegId>
    requires legs { AreAll images.now }
    requires head { IsHead images.now head.now }
    requires rows { AreRows head.now.roles count (map (λ row. row.items) rows.now) }
    requires after { from ≤ s }
    requires before { s < from + count }
    requires within { s < head.now.geometry.room }
    ensures { let stored = in_rows (map (λ row. row.items) rows.now) from in
        result ≡ unmarked_leg head.now images.now stored s }
{
    match differing_leg(&head.roles, rows, from, count, s) {
        Some(l) if !is_marked_at(head, images, s) => Some(l),
        _ => None,
    }
}

// The same, where it is known whether rows differ: it is looked for only if so.
fn told_leg(
    head: &Head,
    images: &[LegImage],
    rows: &[Vec<Sector>],
    from: SectorNo,
    count: u32,
    differ: bool,
    s: SectorNo,
) -> Option<LegId>
    requires legs { AreAll images.now }
    requires head { IsHead images.now head.now }
    requires rows { AreRows head.now.roles count (map (λ row. row.items) rows.now) }
    requires same { differ ≡ false
        → (l : ℕ) → l < 8 → HasFirstRow head.now.roles (map (λ row. row.items) rows.now) l }
    requires after { from ≤ s }
    requires before { s < from + count }
    requires within { s < head.now.geometry.room }
    ensures { let stored = in_rows (map (λ row. row.items) rows.now) from in
        result ≡ unmarked_leg head.now images.now stored s }
{
    if differ {
        unmarked_leg(head, images, rows, from, count, s)
    } else {
        None
    }
}

fn is_among(values: &[Sector], value: &Sector) -> bool
    ensures { result ≡ list_any (λ old. bytes_eq value.now.bytes old.bytes) values.now }
{
    values.iter().any(|old| value.bytes == old.bytes)
}

fn push_value(values: &mut Vec<Sector>, value: &Sector) -> Result<(), AllocError>
    ensures { OnOk result (values.new.items ≡ values.old.items ++ value.now ∷ []) }
{
    values.push(*value)?;
    Ok(())
}

// Adds a value where it isn't there yet.
fn add_new(values: &mut Vec<Sector>, value: &Sector) -> Result<(), AllocError>
    ensures { OnOk result (values.new.items ≡ with_new value.now values.old.items) }
{
    if is_among(values, value) {
        return Ok(());
    }
    push_value(values, value)
}

// The distinct values at sector `s`, in rising order of the legs that work.
#[tactic(auto, using(crate::proofs::ValueLaws::row_there, crate::proofs::ValueLaws::row_long, crate::proofs::ValueLaws::values_none, crate::proofs::ValueLaws::values_more, crate::proofs::ValueLaws::values_stay))]
fn values_at(
    alloc: Global,
    roles: &Roles,
    rows: &[Vec<Sector>],
    from: SectorNo,
    count: u32,
    s: SectorNo,
) -> Result<Vec<Sector>, AllocError>
    requires rows { AreRows roles.now count (map (λ row. row.items) rows.now) }
    requires after { from ≤ s }
    requires before { s < from + count }
    ensures { let stored = in_rows (map (λ row. row.items) rows.now) from in
        IfOk result (λ values. values.items ≡ values_of roles.now (λ k. stored k s) 8) }
{
    let mut values = Vec::new(alloc);
    for l in 0..8 {
        if works(roles, l) {
            add_new(&mut values, &sector_at(rows, from, l, s))?;
        }
    }
    Ok(values)
}

fn push_values(base: &mut Vec<Vec<Sector>>, values: Vec<Sector>) -> Result<(), AllocError>
    ensures { OnOk result (map (λ values. values.items) base.new.items
        ≡ map (λ values. values.items) base.old.items ++ values.items ∷ []) }
{
    base.push(values)?;
    Ok(())
}

/// Takes in the data of so many sectors from `from` on, one row for each leg, of which only those of
/// legs that work are looked at: each sector's values are added to the base.
///
/// `Image` with `Unmarked` at the first sector in which legs that work differ while no slot on a leg
/// that works marks its chunk. It is told with the first leg that works and differs there from the
/// first leg that works. Else `Memory`. The base has the values of earlier sectors then.
///
/// The rows are compared first, and only where some differ it is looked sector by sector.
pub fn add_values<R: Threads + Sync>(
    rt: &R,
    alloc: Global,
    head: &Head,
    images: &[LegImage],
    rows: &[Vec<Sector>],
    from: SectorNo,
    count: u32,
    base: &mut Vec<Vec<Sector>>,
) -> Result<(), ImageError>
    requires legs { AreAll images.now }
    requires head { IsHead images.now head.now }
    requires rows { AreRows head.now.roles count (map (λ row. row.items) rows.now) }
    requires within { from + count ≤ head.now.geometry.room }
    requires base { vec_len base.old ≡ from }
    ensures judged { let stored = in_rows (map (λ row. row.items) rows.now) from in
        JudgesData head.now images.now stored from count result }
    ensures values { let stored = in_rows (map (λ row. row.items) rows.now) from in
        OnOk result (AddsValues head.now stored from count
        (map (λ values. values.items) base.old.items) (map (λ values. values.items) base.new.items)) }
{
    let differ = rows_differ(rt, alloc, &head.roles, rows, count)?;
    for s in from..from + count {
        if let Some(l) = told_leg(head, images, rows, from, count, differ, s) {
            return Err(ImageError::Image(l, ImageFault::Unmarked(s)));
        }
        let values = values_at(alloc, &head.roles, rows, from, count, s)?;
        push_values(base, values)?;
    }
    Ok(())
}
