ghost use Rattle.std.specs.Prelude.{◌≡◌, ◌<◌, ◌≤◌, ◌+◌, ◌^◌, ℕ, length, map, get_or, vec_capacity, [], None, true, IfOk, IfErr, OnOk};
ghost use Rattle.mdc_types.specs.Faults.{HasCause};
ghost use Rattle.image_files.specs.Rows.{works, AreRowsOf, GivesRow, IsReadEnd};
ghost use Rattle.image_files.specs.Ends.{IsOfLeg, HasFailed, IsTransferEnd};

use image_faults::ImageError;
use leg_store::LegDev;
use mdc_types::{Failed, LegId, Role, Roles, Sector};
use std::alloc::Global;

// Reads so many sectors of the leg, each once, into an empty row.
fn read_into<L: LegDev>(
    leg: &mut L,
    at: u32,
    count: u32,
    row: &mut Vec<Sector>,
) -> Result<(), Failed>
    requires empty { row.old.items ≡ [] }
    requires room { count ≤ vec_capacity row.old }
    requires within { at + count ≤ L.size leg.old }
    requires range { at + count < 2 ^ 32 }
    ensures long { OnOk result (length row.new.items ≡ count) }
    ensures row { OnOk result (GivesRow (L.contents leg.old) at row.new.items) }
    ensures contents { L.contents leg.new ≡ L.contents leg.old }
    ensures size { L.size leg.new ≡ L.size leg.old }
    ensures cause { HasCause (λ e. true) (L.faults leg.old) (L.faults leg.new) result }
{
    for i in 0..count {
        let sector = leg.read(at + i)?;
        row.push_reserved(sector);
    }
    Ok(())
}

// Reads so many sectors of leg `l` from `at` on, each once.
fn read_row<L: LegDev>(
    alloc: Global,
    legs: &mut Vec<L>,
    l: LegId,
    at: u32,
    count: u32,
) -> Result<Vec<Sector>, ImageError>
    requires there { l < length legs.old.items }
    requires within { at + count ≤ get_or (map L.size legs.old.items) l 0 }
    requires range { at + count < 2 ^ 32 }
    ensures long { IfOk result (λ row. length row.items ≡ count) }
    ensures row { IfOk result (λ row.
        GivesRow (get_or (map L.contents legs.old.items) l None) at row.items) }
    ensures contents { map L.contents legs.new.items ≡ map L.contents legs.old.items }
    ensures size { map L.size legs.new.items ≡ map L.size legs.old.items }
    ensures end { IfErr result (IsReadEnd l (map L.faults legs.new.items)) }
{
    let mut row = Vec::with_capacity(alloc, count as usize)?;
    let leg = &mut legs[usize::from(l)];
    match read_into(leg, at, count, &mut row) {
        Ok(()) => Ok(row),
        Err(_) => Err(ImageError::Device(l)),
    }
}

fn works(roles: &Roles, l: LegId) -> bool
    requires { l < 8 }
    ensures { result ≡ works roles.now l }
{
    roles.of(l) == Role::Working
}

// The row of leg `l` where it works, else none.
fn row_of<L: LegDev>(
    alloc: Global,
    legs: &mut Vec<L>,
    roles: &Roles,
    l: LegId,
    at: u32,
    count: u32,
) -> Result<Vec<Sector>, ImageError>
    requires leg { l < 8 }
    requires there { l < length legs.old.items }
    requires within { at + count ≤ get_or (map L.size legs.old.items) l 0 }
    requires range { at + count < 2 ^ 32 }
    ensures long { IfOk result (λ row. works roles.now l ≡ true → length row.items ≡ count) }
    ensures row { IfOk result (λ row. works roles.now l ≡ true
        → GivesRow (get_or (map L.contents legs.old.items) l None) at row.items) }
    ensures contents { map L.contents legs.new.items ≡ map L.contents legs.old.items }
    ensures size { map L.size legs.new.items ≡ map L.size legs.old.items }
    ensures end { IfErr result (IsReadEnd l (map L.faults legs.new.items)) }
{
    if works(roles, l) {
        read_row(alloc, legs, l, at, count)
    } else {
        Ok(Vec::new(alloc))
    }
}

/// The rows of the legs that work: so many sectors from `at` on, each read once. `Device` only where that
/// leg's count of faults rose, else `Memory`.
pub fn read_rows<L: LegDev>(
    alloc: Global,
    legs: &mut Vec<L>,
    roles: &Roles,
    at: u32,
    count: u32,
) -> Result<Vec<Vec<Sector>>, ImageError>
    requires few { length legs.old.items ≤ 8 }
    requires within { (l : ℕ) → l < length legs.old.items
        → at + count ≤ get_or (map L.size legs.old.items) l 0 }
    requires range { at + count < 2 ^ 32 }
    ensures rows { IfOk result (λ rows. AreRowsOf (map L.contents legs.old.items) roles.now at count
        (map (λ row. row.items) rows.items)) }
    ensures contents { map L.contents legs.new.items ≡ map L.contents legs.old.items }
    ensures size { map L.size legs.new.items ≡ map L.size legs.old.items }
    ensures leg { IfErr result IsOfLeg }
    ensures failed { IfErr result (HasFailed (map L.faults legs.new.items)) }
    ensures end { IfErr result IsTransferEnd }
{
    let mut rows = Vec::with_capacity(alloc, legs.len())?;
    for l in 0..legs.len() as u8 {
        let row = row_of(alloc, legs, roles, l, at, count)?;
        rows.push_reserved(row);
    }
    Ok(rows)
}
