ghost use Rattle.std.specs.Prelude.{◌≡◌, IfOk};
ghost use Rattle.std.specs.Result.{result_err};
ghost use Rattle.lock_wire.specs.Locals.{mode_held, converting, not_free, not_convertible, not_releasable, kept as kept_mode};

use crate::WireEnd;
use dlm_modes::{Mode, weaker};
use dlm_space::LockError;
use mdc_types::Refusal;

/// What a node knows of its own lock on a resource.
#[derive(Clone, Copy, PartialEq, Eq, Debug)]
pub enum Local {
    /// It holds and asks nothing.
    Free,
    /// It asked for the mode, and holds nothing.
    Asking(Mode),
    Held(Mode),
    /// It holds the first mode, and asked for the second.
    Converting(Mode, Mode),
}

// What a node holds that converts from a mode to another that isn't weaker. Between CW and PR
// that is CR: the mode that is granted to it may be held elsewhere before it hears of it.
fn kept(from: Mode, to: Mode) -> Mode
    ensures { result ≡ kept_mode from to }
{
    match (from, to) {
        (Mode::CW, Mode::PR) | (Mode::PR, Mode::CW) => Mode::CR,
        _ => from,
    }
}

impl Local {
    /// The mode that is held.
    pub fn held(&self) -> Option<Mode>
        ensures { result ≡ mode_held self.now }
    {
        match self {
            Local::Free | Local::Asking(_) => None,
            Local::Held(mode) => Some(*mode),
            Local::Converting(from, _) => Some(*from),
        }
    }

    /// `NotFree` where something is held or asked.
    pub fn may_ask(&self) -> Result<(), WireEnd>
        ensures { result_err result ≡ not_free self.now }
    {
        match self {
            Local::Free => Ok(()),
            _ => Err(WireEnd::Lock(LockError::NotFree)),
        }
    }

    /// The mode that is held, from which to convert. `NotHeld` where nothing is held,
    /// `AlreadyAsked` where a conversion waits.
    pub fn may_convert(&self) -> Result<Mode, WireEnd>
        ensures refused { result_err result ≡ not_convertible self.now }
        ensures held { IfOk result (λ mode. self.now ≡ Local.Held mode) }
    {
        match self {
            Local::Free | Local::Asking(_) => Err(WireEnd::Lock(LockError::NotHeld)),
            Local::Converting(_, _) => Err(WireEnd::Lock(LockError::AlreadyAsked)),
            Local::Held(mode) => Ok(*mode),
        }
    }

    /// `NotHeld` where nothing is held or asked, `Waiting` where something is asked.
    pub fn may_release(&self) -> Result<(), WireEnd>
        ensures { result_err result ≡ not_releasable self.now }
    {
        match self {
            Local::Free => Err(WireEnd::Lock(LockError::NotHeld)),
            Local::Asking(_) | Local::Converting(_, _) => Err(WireEnd::Refused(Refusal::Waiting)),
            Local::Held(_) => Ok(()),
        }
    }

    /// What becomes of a held mode that is converted: a weaker mode is held at once.
    pub fn converting(from: Mode, to: Mode) -> Local
        ensures { result ≡ converting from to }
    {
        if weaker(from, to) {
            Local::Held(to)
        } else {
            Local::Converting(kept(from, to), to)
        }
    }
}
