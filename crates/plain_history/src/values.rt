// The candidates of each sector.
ghost use Rattle.std.specs.Prelude.{◌≡◌, ◌<◌, ◌↔◌, [], ◌∷◌, ◌++◌, length, map, slice_set, IsTrue, OnOk, OnErr};
ghost use Rattle.plain_history.specs.History.{IsIn, values_at};

use mdc_types::{Sector, SectorNo};
use std::alloc::AllocError;

fn is_one_of(list: &[Sector], v: &Sector) -> bool
    ensures { IsTrue result ↔ IsIn v.now list.now }
{
    for u in list {
        if *u == *v {
            return true;
        }
    }
    false
}

/// Whether the value is a candidate of the sector.
pub fn is_candidate(values: &[Vec<Sector>], s: SectorNo, v: &Sector) -> bool
    ensures { IsTrue result ↔ IsIn v.now (values_at (map (λ list. list.items) values.now) s) }
{
    if (s as usize) < values.len() {
        return is_one_of(&values[s as usize], v);
    }
    false
}

fn add(list: &mut Vec<Sector>, v: &Sector) -> Result<(), AllocError>
    ensures ok { OnOk result (list.new.items ≡ list.old.items ++ v.now ∷ []) }
    ensures err { OnErr result (list.new.items ≡ list.old.items) }
{
    // One at a time: most sectors never have more than one or two candidates.
    list.reserve_exact(1)?;
    list.push(*v)?;
    Ok(())
}

/// The sector gets one candidate more.
pub fn append(values: &mut Vec<Vec<Sector>>, s: SectorNo, v: &Sector) -> Result<(), AllocError>
    requires { s < length values.old.items }
    ensures ok { OnOk result (map (λ list. list.items) values.new.items ≡ slice_set (map (λ list. list.items) values.old.items) s (values_at (map (λ list. list.items) values.old.items) s ++ v.now ∷ [])) }
    ensures err { OnErr result (map (λ list. list.items) values.new.items ≡ map (λ list. list.items) values.old.items) }
{
    add(&mut values[s as usize], v)
}

fn leave_alone(list: &mut Vec<Sector>, v: &Sector) -> Result<(), AllocError>
    ensures ok { OnOk result (list.new.items ≡ v.now ∷ []) }
    ensures err { OnErr result (list.new.items ≡ list.old.items) }
{
    if list.is_empty() {
        list.push(*v)?;
    } else {
        list[0] = *v;
        list.truncate(1);
    }
    Ok(())
}

/// The sector is left with this candidate alone.
pub fn decide(values: &mut Vec<Vec<Sector>>, s: SectorNo, v: &Sector) -> Result<(), AllocError>
    requires { s < length values.old.items }
    ensures ok { OnOk result (map (λ list. list.items) values.new.items ≡ slice_set (map (λ list. list.items) values.old.items) s (v.now ∷ [])) }
    ensures err { OnErr result (map (λ list. list.items) values.new.items ≡ map (λ list. list.items) values.old.items) }
{
    leave_alone(&mut values[s as usize], v)
}
