ghost use Rattle.std.specs.Prelude.{◌≡◌};
ghost use Rattle.script_text.specs.Words.{fault_word};
ghost use Rattle.script_text.specs.declared.faults.ScriptEnd.TheVariants.{Fault, Memory};
ghost use Rattle.script_text.specs.Judging.{at_line};

use std::alloc::AllocFailed;

/// What is wrong with a line of a script. Of several faults of a line the first in this order is told.
#[derive(Clone, Copy, PartialEq, Eq, Debug)]
pub enum FaultKind {
    /// The line holds byte 16,777,217 of the script, its line feed included.
    Long,
    /// The line is no UTF-8.
    Utf8,
    /// A header is due, and the line begins with another word or all lines are read.
    NoArray,
    /// No line that may stand here begins with this word, or a word that is due to be one of a few, as a
    /// resource, a mode or a wish, is none of them.
    Word,
    /// The line has too few words, or too many.
    Count,
    /// A word is due to be a number and is none, or its number is too great.
    Number,
    /// A word is due to be a value and is none.
    Value,
    /// The numbers of the header and its lines are those of no array, or a lock script's node is over 15.
    Range,
    /// All lines are read, and none is `end`.
    NoEnd,
}

impl FaultKind {
    /// The word of the kind, as `no-array`.
    pub fn word(&self) -> &'static str
        ensures { result.now ≡ fault_word self.now }
    {
        match self {
            FaultKind::Long => "long",
            FaultKind::Utf8 => "utf8",
            FaultKind::NoArray => "no-array",
            FaultKind::Word => "word",
            FaultKind::Count => "count",
            FaultKind::Number => "number",
            FaultKind::Value => "value",
            FaultKind::Range => "range",
            FaultKind::NoEnd => "no-end",
        }
    }
}

/// The first line outside the grammar, counted from 1, and what is wrong with it. Where the script ends
/// too early it is the line after the last.
#[derive(Clone, Copy, PartialEq, Eq, Debug)]
pub struct ScriptFault {
    pub line: u32,
    pub kind: FaultKind,
}

/// Why bytes were not read as a script.
#[derive(Clone, Copy, PartialEq, Eq, Debug)]
pub enum ScriptEnd {
    Fault(ScriptFault),
    Memory,
}

impl From<ScriptFault> for ScriptEnd {
    ghost from_gives = { λ fault e. e ≡ Fault fault };

    fn from(fault: ScriptFault) -> ScriptEnd {
        ScriptEnd::Fault(fault)
    }
}

impl<T: Drop> From<AllocFailed<T>> for ScriptEnd {
    ghost from_gives = { λ _ e. e ≡ Memory };

    fn from(_e: AllocFailed<T>) -> ScriptEnd {
        ScriptEnd::Memory
    }
}

/// What is found of this line, or its fault.
pub(crate) fn at_line<T>(line: u32, found: Result<T, FaultKind>) -> Result<T, ScriptFault>
    ensures { result ≡ at_line line found }
{
    match found {
        Ok(x) => Ok(x),
        Err(kind) => Err(ScriptFault { line, kind }),
    }
}
