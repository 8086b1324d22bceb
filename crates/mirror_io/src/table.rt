ghost use Rattle.std.specs.Prelude.{◌≡◌, ◌<◌, ◌≤◌, [], ◌∷◌, ◌++◌, length, slice_index_or, remove, IfOk};

use arrayvec::ArrayVec;
use slab::Slab;
use std::alloc::{AllocError, Global};
use std::marker::Model;

/// At most 16 values, in the order in which they were put in.
///
/// Contracts see the list of the values.
#[derive(Drop)]
pub struct Table<T> {
    values: Slab<T>,
    // The keys of the values, in their order.
    keys: ArrayVec<usize, 16>,
}

impl<T> Model for Table<T> {
    ghost use Rattle.std.specs.Prelude.{List};
    ghost use Rattle.mirror_io.specs.Table.{values_at, IsTable};

    ghost Value = { List T };

    ghost view = { λ t. values_at t.values t.keys.items };

    ghost invariant = { λ t. IsTable t.values t.keys.items };
}

impl<T> Table<T> {
    ghost use Rattle.std.specs.Borrow.{sem};
    ghost use Rattle.mirror_io.specs.Lends.{lends_at};

    /// An empty table, with the memory for 16 values.
    pub fn new(alloc: Global) -> Result<Table<T>, AllocError>
        ensures { IfOk result (λ table. table ≡ []) }
    {
        Ok(Table {
            values: Slab::with_capacity(alloc, 16)?,
            keys: ArrayVec::new(),
        })
    }

    /// The number of values.
    pub fn len(&self) -> usize
        ensures len { result ≡ length self.now }
        ensures most { result ≤ 16 }
    {
        self.keys.len()
    }

    /// Puts a value at the end.
    pub fn push(&mut self, value: T)
        requires { length self.old < 16 }
        ensures { self.new ≡ self.old ++ value ∷ [] }
    {
        let key = self.values.insert_reserved(value);
        self.keys.push(key);
    }

    /// The value at this place.
    pub fn at(&self, i: usize) -> &T
        requires { i < length self.now }
        ensures { result.now ≡ slice_index_or self.now i result.now }
    {
        &self.values[self.keys[i]]
    }

    /// The value at this place, for writing.
    pub fn at_mut(&mut self, i: usize) -> &mut T
        requires { i < length self.old }
        ensures* writes_back { sem 𝓛 (lends_at T.row self.entry i result) }
        ensures value { result.now ≡ slice_index_or self.old i result.now }
    {
        &mut self.values[self.keys[i]]
    }

    /// Takes the value at this place out.
    pub fn remove(&mut self, i: usize)
    where
        T: Drop,
        requires { i < length self.old }
        ensures { self.new ≡ remove self.old i }
    {
        let key = self.keys.remove(i);
        self.values.remove(key);
    }

    /// Takes all values out.
    pub fn clear(&mut self)
    where
        T: Drop,
        ensures { self.new ≡ [] }
    {
        self.values.clear();
        self.keys.clear();
    }
}
