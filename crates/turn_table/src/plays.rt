//! What each step on the table tells.
ghost use Rattle.turn_table.specs.Rule.{Tries, Counts, Frees, Learns};
ghost use Rattle.turn_table.specs.Views.{left, right, noted, told, spent};

use crate::stories::Story;
use crate::views::View;
use atomic_table::{Join, Play, Split};

pub struct Try;

impl<T: Story> Play<T, View<T::Item, T::Origin>> for Try {
    ghost then = { Tries T.entries T.origin T.number };
}

pub struct Count;

impl<T: Story> Play<T, View<T::Item, T::Origin>> for Count {
    ghost then = { Counts T.entries T.origin T.number };
}

pub struct Free;

impl<T: Story> Play<T, View<T::Item, T::Origin>> for Free {
    ghost then = { Frees T.entries T.origin T.number };
}

pub struct Learn;

impl<T: Story> Play<T, View<T::Item, T::Origin>> for Learn {
    ghost then = { Learns T.entries T.origin T.number };
}

/// The last number goes to a new seat.
pub struct Deal;

impl<I, O> Split<View<I, O>> for Deal {
    ghost left = { left };

    ghost right = { right };
}

/// A note of what was seen.
pub struct Copied;

impl<I, O> Split<View<I, O>> for Copied {
    ghost left = { λ v. v };

    ghost right = { noted };
}

/// Another's seen list and its numbers.
pub struct Take;

impl<I, O> Join<View<I, O>> for Take {
    ghost both = { told };

    ghost spent = { spent };
}
