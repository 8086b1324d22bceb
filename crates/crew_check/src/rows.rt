ghost use Rattle.std.specs.Prelude.{◌≡◌, ℕ, List, [], ◌∷◌, length, IfSome, OnOk, OnErr};
ghost use Rattle.mdc_types.specs.declared.numbers.Sector.{Sector};
ghost use Rattle.crew_check.specs.Rows.{lesser, IsKeptOf};

use crate::comparing::compare;
use mdc_types::Sector;
use std::alloc::{AllocError, Global};
use std::marker::Model;
use std::thread::Threads;

/// The first place in which two of several rows of sectors differ. The rows are equally long, and
/// come one after another: the first of them is kept, and each further one is compared with it.
#[derive(Drop)]
pub struct Rows {
    first: Option<Vec<Sector>>,
    place: Option<usize>,
}

impl Model for Rows {
    ghost use Rattle.std.specs.Option.{option_map};
    ghost use Rattle.crew_check.specs.Rows.{Kept};

    ghost Value = { Kept };

    ghost view = { λ r. record { first = option_map (λ v. v.items) r.first; place = r.place } };
}

fn lesser(a: Option<usize>, b: Option<usize>) -> Option<usize>
    ensures { result ≡ lesser a b }
{
    match (a, b) {
        (None, b) => b,
        (Some(a), None) => Some(a),
        (Some(a), Some(b)) => Some(a.min(b)),
    }
}

impl Rows {
    /// No rows yet.
    pub fn new() -> Rows
        ensures { (n : ℕ) → IsKeptOf n [] result }
    {
        Rows {
            first: None,
            place: None,
        }
    }

    /// One row more. `Err` is want of memory, and leaves what there was.
    pub fn add<R: Threads + Sync>(
        &mut self,
        rt: &R,
        alloc: Global,
        row: Vec<Sector>,
    ) -> Result<(), AllocError>
        requires { IfSome self.old.first (λ a. length row.items ≡ length a) }
        ensures ok { OnOk result ((n : ℕ) → (rows : List (List Sector)) → IsKeptOf n rows self.old
            → length row.items ≡ n → IsKeptOf n (row.items ∷ rows) self.new) }
        ensures err { OnErr result (self.new ≡ self.old) }
    {
        match &self.first {
            None => {
                self.first = Some(row);
                Ok(())
            }
            Some(first) => {
                let found = compare(rt, alloc, first.as_slice(), row.as_slice())?;
                self.place = lesser(self.place, found);
                Ok(())
            }
        }
    }

    /// The first place in which two of the rows differ.
    pub fn place(&self) -> Option<usize>
        ensures { result ≡ self.now.place }
    {
        self.place
    }
}
