ghost use Rattle.md_superblock.specs.Laws.{FaultsAreExact, IsReadAgain, HasOneSpelling, HasOneValue};
ghost use Rattle.md_superblock.specs.Arrays.{SpelledIsWritten, SaysTheSuper, SaysTheState, SaysAgain};

/// A sector has no fault of `read_super` exactly where it spells a superblock whose fields are in
/// their ranges.
pub fn faults_are_exact()
    ensures { FaultsAreExact }
{}

/// A sector that spells a superblock has no fault, and is read as this superblock: what `write_super`
/// writes is read again.
pub fn what_is_written_is_read()
    ensures { IsReadAgain }
{}

/// Two sectors that spell one superblock are equal.
pub fn one_spelling()
    ensures { HasOneSpelling }
{}

/// Two superblocks that one sector spells are equal.
pub fn one_value()
    ensures { HasOneValue }
{}

/// What spells a superblock is written so.
pub fn superblocks_are_spelled()
    ensures { SpelledIsWritten }
{}

/// A sector says the superblock that is written there, and no other.
pub fn sectors_say_their_superblock()
    ensures { SaysTheSuper }
{}

/// A sector says the state that is written there for the leg of an array, and no other.
pub fn sectors_say_the_state()
    ensures { SaysTheState }
{}

/// A state that is spelled is read again.
pub fn states_are_read_again()
    ensures { SaysAgain }
{}
