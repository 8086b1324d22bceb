//! The table behind a turn, and the rule that every step keeps.
//! Word 0 is the length of the list. Word 1 is 0, or one more than the first number of the seat
//! that is in the turn.
//! The one slot has the value.
use crate::stories::Story;
use atomic_table::{Seat, Shared, Table, TableRule};
use std::alloc::Global;
use std::collections::LinkedList;
use std::snapshot::Snapshot;

/// What a seat or a note knows. No value of it is made.
pub struct View<I, O> {
    /// A beginning of the list.
    pub seen: LinkedList<I>,
    /// Another beginning of the list, which the next load compares with `seen`.
    pub told: LinkedList<I>,
    /// The numbers that it has, of which its entries name the first.
    pub numbers: LinkedList<u32>,
    /// The numbers that came with `told`.
    pub more: LinkedList<u32>,
    /// Whether it is in the turn, and has the value.
    pub inside: bool,
    /// What its tries for the turn found in word 1.
    pub words: LinkedList<u64>,
    /// How many numbers there are.
    pub seats: u32,
    pub origin: Option<O>,
}

/// What a table is told when it is made. It has no bytes but those of `seats`.
pub struct Opening<T> {
    pub seats: u32,
    pub value: Snapshot<T>,
}

impl<T> Drop for Opening<T> {
    fn drop(self) {
        let Self { seats: _, value: _ } = self;
    }
}

pub struct TurnRule;

impl<T: Story> TableRule<T, View<T::Item, T::Origin>, Opening<T>> for TurnRule {
    ghost use Rattle.turn_table.specs.Rule.{Kept};
    ghost use Rattle.turn_table.specs.Views.{opened};

    ghost holds = { λ key. Kept T.entries T.origin T.number (T.origin key.value.value) key.seats };

    ghost first = { λ key. opened key.seats (T.origin key.value.value) };
}

pub type Place<T> = Seat<T, View<<T as Story>::Item, <T as Story>::Origin>>;

pub type Board<T> = Table<
    T,
    View<<T as Story>::Item, <T as Story>::Origin>,
    Opening<T>,
    TurnRule,
    Global,
>;

pub type Top<T> = Shared<T, View<<T as Story>::Item, <T as Story>::Origin>, Opening<T>, TurnRule>;
