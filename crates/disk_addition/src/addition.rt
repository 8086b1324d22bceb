ghost use Rattle.std.specs.Prelude.{◌≡◌};
ghost use Rattle.std.specs.Result.{result_err};
ghost use Rattle.dlm_modes.specs.Guards.{unless};
ghost use Rattle.mdc_types.specs.declared.refusals.Refusal.TheVariants.{NotRole};

use mdc_types::{LegId, Part, Refusal, Role, Roles, Wish, Word};

/// What a node knows of a device that is on its way in or out of the mirror: what its last round said
/// of it. A node knows of one at a time. No call takes memory.
///
/// The messages NEWDISK, REMOVE and RE_ADD, and that a new device needs EX on `no-new-dev`, are those of
/// `Documentation/driver-api/md/md-cluster.rst`. Which wishes may follow which is this project's own.
#[derive(Clone, Copy, PartialEq, Eq, Debug)]
pub enum Addition {
    /// No such device.
    Nothing,
    /// A new device was announced, and is to become that leg.
    Announced(LegId),
    /// The leg is to be removed.
    Removing(LegId),
    /// The leg is to be added again.
    ReAdd(LegId),
    /// The leg was added again, and is to be copied what it missed.
    Again(LegId),
}

// Refuses the leg's role where it isn't right.
fn expect_role(is_right: bool, l: LegId, role: Role) -> Result<(), Refusal>
    ensures { result_err result ≡ unless is_right (NotRole l role) }
{
    if is_right {
        Ok(())
    } else {
        Err(Refusal::NotRole(l, role))
    }
}

impl Addition {
    ghost use Rattle.mdc_types.specs.Roles.{role_of};
    ghost use Rattle.disk_addition.specs.Additions.{word_of, after};
    ghost use Rattle.disk_addition.specs.Wishes.{HasLeg, suits, role_refusal, wish_refusal};

    /// The word of the phase.
    pub fn word(&self) -> Word
        ensures { result ≡ word_of self.now }
    {
        match self {
            Addition::Nothing => Word::Nothing,
            Addition::Announced(_) => Word::Announced,
            Addition::Removing(_) => Word::Removing,
            Addition::ReAdd(_) => Word::ReAdd,
            Addition::Again(_) => Word::Again,
        }
    }

    /// What the finish of the wish's round makes of this addition. `NewDisk`, `Remove` and `ReAdd` put
    /// theirs in its place, a range leaves it, and all others end it; only a leg that rebuilds after its
    /// `ReAdd` is to be copied again.
    pub fn after(&self, wish: &Wish) -> Addition
        ensures { result ≡ after self.now wish.now }
    {
        match wish {
            Wish::Rebuild(l) if *self == Addition::ReAdd(*l) => Addition::Again(*l),
            Wish::Range(_) => *self,
            Wish::NewDisk(l) => Addition::Announced(*l),
            Wish::Remove(l) => Addition::Removing(*l),
            Wish::ReAdd(l) => Addition::ReAdd(*l),
            Wish::Meta
            | Wish::Spare(_)
            | Wish::Rebuild(_)
            | Wish::Work(_)
            | Wish::Grow(_)
            | Wish::Unclean => Addition::Nothing,
        }
    }

    // Whether the wish has the addition that it needs.
    fn suits(&self, wish: &Wish, holds_ex: bool) -> bool
        ensures { result ≡ suits self.now holds_ex wish.now }
    {
        match wish {
            Wish::Spare(l) => *self == Addition::Removing(*l),
            Wish::Rebuild(l) => {
                (*self == Addition::Announced(*l) && holds_ex) || *self == Addition::ReAdd(*l)
            }
            _ => true,
        }
    }

    // Whether the wish's leg has the role that it needs.
    fn may_by_role(&self, wish: &Wish, roles: &Roles) -> Result<(), Refusal>
        requires { HasLeg wish.now }
        ensures { result_err result ≡ role_refusal self.now (role_of roles.now) wish.now }
    {
        match wish {
            Wish::Spare(l) | Wish::Remove(l) | Wish::ReAdd(l) => {
                let role = roles.of(*l);
                expect_role(role == Role::Faulty, *l, role)
            }
            Wish::Rebuild(l) => {
                let role = roles.of(*l);
                let is_back = role == Role::Faulty && *self == Addition::ReAdd(*l);
                expect_role(role == Role::Spare || is_back, *l, role)
            }
            Wish::Work(l) => {
                let role = roles.of(*l);
                expect_role(role == Role::Rebuilding, *l, role)
            }
            Wish::NewDisk(l) => {
                let role = roles.of(*l);
                expect_role(role == Role::Spare, *l, role)
            }
            Wish::Meta | Wish::Range(_) | Wish::Grow(_) | Wish::Unclean => Ok(()),
        }
    }

    /// Whether the wish may be offered, as far as this addition and the roles go. `NotPhase` where the
    /// addition isn't the one that the wish needs: a spare needs `Removing` of its leg, and a leg that
    /// is to rebuild needs `Announced` of it, with EX on `no-new-dev` held, or `ReAdd` of it. Then
    /// `NotRole` where the leg hasn't the role that the wish starts from.
    pub fn may(&self, wish: &Wish, roles: &Roles, holds_ex: bool) -> Result<(), Refusal>
        requires { HasLeg wish.now }
        ensures { result_err result ≡ wish_refusal self.now (role_of roles.now) holds_ex wish.now }
    {
        if !self.suits(wish, holds_ex) {
            return Err(Refusal::NotPhase(Part::Addition, self.word()));
        }
        self.may_by_role(wish, roles)
    }
}
