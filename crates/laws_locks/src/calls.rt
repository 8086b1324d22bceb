//! The calls on the lock space that the mirror's runs make.
ghost use Rattle.laws_locks.specs.Laws.{CallsAreMade};

use dlm_space::calls_are_sound;

/// The calls of a run on the lock space, each member's at the opening and then each row's, are
/// accepted in their turn, and lead to the locks that the mirror then has. So all that holds of a
/// lock space holds of it: any two holders of a resource agree, who waits asked and was not
/// served since, each grant serves the first that waits, and a block is the last value that was
/// written, and valid unless a writer died since.
pub fn calls_are_made()
    ensures { CallsAreMade }
{
    calls_are_sound();
}
