ghost use Rattle.std.specs.Prelude.{◌≡◌, ℕ, ◌+◌, Option, Some, MatchResult, IfOk, IfSome};
ghost use Rattle.std.specs.Option.{option_map};
ghost use Rattle.mdc_types.specs.Faults.{HasCause};
ghost use Rattle.leg_shelf.specs.Shelves.{Files, is_fault, GivesBytes, GivesSize, GivesLeg, put_file, OthersStay, TakesLeg, counted};

use leg_store::LegDev;
use std::alloc::AllocError;
use thiserror::Error;

/// Why a call of a shelf wasn't done.
#[derive(Clone, Copy, PartialEq, Eq, Debug, Error)]
pub enum ShelfEnd {
    /// The shelf failed, and its count of faults rose.
    #[error("the shelf failed")]
    Failed,
    /// There was no memory.
    #[error("out of memory")]
    Memory(AllocError),
}

impl From<AllocError> for ShelfEnd {
    ghost use Rattle.leg_shelf.specs.declared.shelf.ShelfEnd.TheVariants.{Memory};

    ghost from_gives = { λ e r. r ≡ Memory e };

    fn from(fault: AllocError) -> ShelfEnd {
        ShelfEnd::Memory(fault)
    }
}

/// Files by their names. A file is read and written whole, or opened as a leg.
///
/// A shelf counts its faults, and those of the legs that it handed out and got back. What it has can't
/// always be known to a proof: then contracts say nothing of what a call gives.
pub trait Shelf {
    /// A file that is open as a leg.
    type Leg: LegDev + Drop;

    /// The bytes under each name, where the shelf tells them.
    ghost contents: { Self → Option Files };

    /// How often it has failed.
    ghost faults: { Self → ℕ };

    /// How often the legs had failed that came back.
    ghost leg_faults: { Self → ℕ };

    /// The bytes under the name, None where there is no such name.
    fn load(&mut self, name: &str) -> Result<Option<Vec<u8>>, ShelfEnd>
        ensures bytes { IfOk result (λ found.
            GivesBytes (contents self.old) name.now (option_map (λ v. v.items) found)) }
        ensures contents { contents self.new ≡ contents self.old }
        ensures legs { leg_faults self.new ≡ leg_faults self.old }
        ensures cause { HasCause is_fault (faults self.old) (faults self.new) result };

    /// Puts the bytes under the name. Where that fails, other names are as before.
    fn store(&mut self, name: &str, bytes: &[u8]) -> Result<(), ShelfEnd>
        ensures contents { MatchResult result
            (λ _. contents self.new ≡ put_file (contents self.old) name.now (Some bytes.now))
            (λ _. OthersStay (contents self.old) name.now (contents self.new)) }
        ensures legs { leg_faults self.new ≡ leg_faults self.old }
        ensures cause { HasCause is_fault (faults self.old) (faults self.new) result };

    /// The number of bytes under the name, None where there is no such name.
    fn size(&mut self, name: &str) -> Result<Option<u64>, ShelfEnd>
        ensures size { IfOk result (λ found. GivesSize (contents self.old) name.now found) }
        ensures contents { contents self.new ≡ contents self.old }
        ensures legs { leg_faults self.new ≡ leg_faults self.old }
        ensures cause { HasCause is_fault (faults self.old) (faults self.new) result };

    /// Opens the bytes under the name as a leg, None where there is no such name. The leg has their
    /// whole sectors, where these are more than 2^32 - 1 the first of them. It has not failed yet.
    fn open_leg(&mut self, name: &str) -> Result<Option<Self::Leg>, ShelfEnd>
        ensures leg { IfOk result (λ found.
            GivesLeg (contents self.old) name.now (option_map Self.Leg.contents found)) }
        ensures sound { IfOk result (λ found. IfSome found (λ leg. Self.Leg.faults leg ≡ 0)) }
        ensures contents { contents self.new ≡ contents self.old }
        ensures legs { leg_faults self.new ≡ leg_faults self.old }
        ensures cause { HasCause is_fault (faults self.old) (faults self.new) result };

    /// Takes a leg back. The name has the leg's sectors then, followed by the bytes that it had past
    /// them. Where that fails, other names are as before.
    fn close_leg(&mut self, name: &str, leg: Self::Leg) -> Result<(), ShelfEnd>
        ensures contents { MatchResult result
            (λ _. TakesLeg (contents self.old) name.now (Self.Leg.contents leg) (contents self.new))
            (λ _. OthersStay (contents self.old) name.now (contents self.new)) }
        ensures legs { leg_faults self.new ≡ counted (leg_faults self.old) (Self.Leg.faults leg) }
        ensures cause { HasCause is_fault (faults self.old) (faults self.new) result };
}
