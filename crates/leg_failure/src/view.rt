ghost use Rattle.std.specs.Prelude.{◌≡◌, ◌<◌, ℕ, false};
ghost use Rattle.mdc_types.specs.Bits.{has_bit};
ghost use Rattle.mdc_types.specs.Roles.{role_of};
ghost use Rattle.leg_failure.specs.Views.{view_of, works, is_target, is_unacked, proposed_role, new_view, lost_one, taken, acknowledged, finished};
ghost use Rattle.leg_failure.specs.Losses.{lose_answer};

use crate::legs::Legs;
use crate::roles::{differing, proposed_in, working_of, written_of};
use bitflags::Flags;
use mdc_types::{LegId, Roles};
use std::marker::Model;

/// What came of the loss of a leg.
#[derive(Clone, Copy, PartialEq, Eq, Debug)]
pub enum Lose {
    /// The node doesn't use the leg any more.
    Lost,
    /// It is the only leg that works, and stays.
    LastLeg,
}

/// A node's view of the legs. No call takes memory.
///
/// It has the roles that the node took last and the legs that it lost since. Its *sure* roles are those
/// of the last round that it knows as whole: what the others know too. A size of the array, in sectors,
/// goes with each. Sets of legs are bytes in which bit l is leg l.
///
/// That a failed device is told in a round of metadata, and isn't used before all have acknowledged
/// that, is from "Device Failure" in `Documentation/driver-api/md/md-cluster.rst`. The withdrawal of
/// losses is this project's own.
///
/// Contracts speak of a view leg by leg.
#[derive(Clone, Copy)]
pub struct View {
    roles: Roles,
    sure: Roles,
    lost: Legs,
    size: u32,
    sure_size: u32,
}

impl Model for View {
    ghost use Rattle.leg_failure.specs.Views.{Parts};

    ghost Value = { Parts };

    ghost view = { λ v. record { roles = v.roles; sure = v.sure; lost = v.lost.0; size = v.size; sure_size = v.sure_size } };

    ghost inverse = { λ p. record { roles = p.roles; sure = p.sure; lost = record { 0 = p.lost }; size = p.size; sure_size = p.sure_size } };
}

impl View {
    /// The view of a member at the opening: all know these roles and this size, and nothing is lost.
    pub fn new(roles: Roles, size: u32) -> View
        ensures { view_of result ≡ new_view (role_of roles) size (λ l. false) }
    {
        View::joined(roles, size, 0)
    }

    /// The view of a node that comes in with the roles and the size of a superblock. It lost the
    /// working and rebuilding legs that it didn't read.
    pub fn joined(roles: Roles, size: u32, lost: u8) -> View
        ensures { view_of result ≡ new_view (role_of roles) size (has_bit lost) }
    {
        View {
            roles,
            sure: roles,
            lost: Legs(lost),
            size,
            sure_size: size,
        }
    }

    /// The roles that the node took last.
    pub fn roles(&self) -> &Roles
        ensures { result.now ≡ self.now.roles }
    {
        &self.roles
    }

    /// The roles of the last round that the node knows as whole.
    pub fn sure(&self) -> &Roles
        ensures { result.now ≡ self.now.sure }
    {
        &self.sure
    }

    /// The legs that the node lost since it took the roles.
    pub fn lost(&self) -> u8
        ensures { result ≡ self.now.lost }
    {
        self.lost.bits()
    }

    /// The size of the array that the node took last, in sectors.
    pub fn size(&self) -> u32
        ensures { result ≡ self.now.size }
    {
        self.size
    }

    /// The size of the last round that the node knows as whole, in sectors.
    pub fn sure_size(&self) -> u32
        ensures { result ≡ self.now.sure_size }
    {
        self.sure_size
    }

    /// The legs that the node writes: the working and rebuilding ones, less those that it lost.
    pub fn targets(&self) -> u8
        ensures { (l : ℕ) → has_bit result l ≡ is_target (view_of self.now) l }
    {
        Legs(written_of(&self.roles)).without(self.lost).bits()
    }

    /// The legs that the node reads from: the working ones, less those that it lost.
    pub fn working(&self) -> u8
        ensures { (l : ℕ) → has_bit result l ≡ works (view_of self.now) l }
    {
        Legs(working_of(&self.roles)).without(self.lost).bits()
    }

    /// The legs that the others may still take for something else: those that the node lost, and those
    /// whose role isn't the sure one.
    pub fn unacked(&self) -> u8
        ensures { (l : ℕ) → has_bit result l ≡ is_unacked (view_of self.now) l }
    {
        let differing = Legs(differing(&self.roles, &self.sure));
        self.lost.either(differing).bits()
    }

    /// The node loses the leg. `LastLeg` exactly where it is the only leg that works, and then nothing
    /// changes.
    pub fn lose(&mut self, l: LegId) -> Lose
        requires { l < 8 }
        ensures answer { result ≡ lose_answer (view_of self.old) l }
        ensures lost { result ≡ Lose.Lost → view_of self.new ≡ lost_one (view_of self.old) l }
        ensures last { result ≡ Lose.LastLeg → self.new ≡ self.old }
    {
        let leg = Legs::of(l);
        if self.working() == leg.bits() {
            return Lose::LastLeg;
        }
        self.lost = self.lost.either(leg);
        Lose::Lost
    }

    /// The roles that the node proposes: a working leg that it lost is faulty, and a rebuilding leg
    /// that it lost is a spare.
    pub fn proposed(&self) -> Roles
        ensures { (l : ℕ) → role_of result l ≡ proposed_role (view_of self.now) l }
    {
        Roles {
            legs: proposed_in(self.roles.legs, self.lost.bits()),
        }
    }

    /// The node takes the roles and the size of a message. It keeps as lost what these roles call
    /// working or rebuilding. Where it lost all legs that they call working, it withdraws these losses,
    /// so that two nodes that each lost the other's leg are not left without one.
    pub fn take(&mut self, r: &Roles, size: u32)
        ensures { view_of self.new ≡ taken (view_of self.old) (role_of r.now) size }
    {
        let working = Legs(working_of(r));
        let kept = self.lost.both(Legs(written_of(r)));
        let withdraws = working.without(self.lost).has_none();
        self.lost = if withdraws {
            kept.without(working)
        } else {
            kept
        };
        self.roles = *r;
        self.size = size;
    }

    /// The node knows the last round as whole.
    pub fn acknowledge(&mut self)
        ensures { view_of self.new ≡ acknowledged (view_of self.old) }
    {
        self.sure = self.roles;
        self.sure_size = self.size;
    }

    /// The node's own round with these roles and this size is whole. It keeps as lost what they call
    /// working or rebuilding.
    pub fn finish(&mut self, r: &Roles, size: u32)
        ensures { view_of self.new ≡ finished (view_of self.old) (role_of r.now) size }
    {
        self.roles = *r;
        self.sure = *r;
        self.lost = self.lost.both(Legs(written_of(r)));
        self.size = size;
        self.sure_size = size;
    }
}
