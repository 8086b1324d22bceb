ghost use Rattle.std.specs.Prelude.{◌≡◌, ◌<◌, ℕ};
ghost use Rattle.mdc_types.specs.Bits.{has_bit};
ghost use Rattle.mdc_types.specs.Roles.{role_of, role_code, role_of_code, is_role, is_working, is_rebuilding, is_faulty, is_spare, legs_with, state_word};

use crate::LegId;
use crate::bits::with_leg;
use crate::refusals::Word;

/// What a leg is in the mirror.
#[derive(Clone, Copy, PartialEq, Eq, Debug)]
pub enum Role {
    /// It holds the data and answers reads.
    Working,
    /// It is written, and doesn't answer reads before it is resynced.
    Rebuilding,
    /// It failed, and isn't used.
    Faulty,
    /// It isn't part of the mirror.
    Spare,
}

impl Role {
    /// The number that says this role of leg `l` in a superblock and in a message: `l` where it works,
    /// `0x8000 + l` where it is rebuilding, else 0xfffe (faulty) or 0xffff (spare). After the device
    /// roles of md's superblock 1.2; that of a rebuilding leg is this project's own.
    pub fn code(&self, l: LegId) -> u16
        requires { l < 8 }
        ensures { result ≡ role_code l self.now }
    {
        match self {
            Role::Working => l as u16,
            Role::Rebuilding => 0x8000 + l as u16,
            Role::Faulty => 0xfffe,
            Role::Spare => 0xffff,
        }
    }

    /// The role of leg `l` whose number this is. None where it is no role's.
    pub fn of_code(l: LegId, code: u16) -> Option<Role>
        requires { l < 8 }
        ensures { result ≡ role_of_code l code }
    {
        match code {
            0xfffe => Some(Role::Faulty),
            0xffff => Some(Role::Spare),
            _ if code == l as u16 => Some(Role::Working),
            _ if code == 0x8000 + l as u16 => Some(Role::Rebuilding),
            _ => None,
        }
    }

    fn is(&self, role: Role) -> bool
        ensures { result ≡ is_role role self.now }
    {
        match role {
            Role::Working => matches!(self, Role::Working),
            Role::Rebuilding => matches!(self, Role::Rebuilding),
            Role::Faulty => matches!(self, Role::Faulty),
            Role::Spare => matches!(self, Role::Spare),
        }
    }
}

/// The roles of the eight legs. A leg that isn't there is a spare.
#[derive(Clone, Copy, PartialEq, Eq, Debug)]
pub struct Roles {
    pub legs: [Role; 8],
}

impl Roles {
    /// The role of a leg.
    pub fn of(&self, l: LegId) -> Role
        requires { l < 8 }
        ensures { result ≡ role_of self.now l }
    {
        self.legs[l as usize]
    }

    fn legs_with(&self, role: Role) -> u8
        ensures { (l : ℕ) → has_bit result l ≡ legs_with (is_role role) self.now l }
    {
        let mut set = 0;
        for l in 0..8 {
            if self.of(l).is(role) {
                set = with_leg(set, l);
            }
        }
        set
    }

    /// The set of the working legs, one bit for each.
    pub fn working(&self) -> u8
        ensures { (l : ℕ) → has_bit result l ≡ legs_with is_working self.now l }
    {
        self.legs_with(Role::Working)
    }

    /// The set of the rebuilding legs, one bit for each.
    pub fn rebuilding(&self) -> u8
        ensures { (l : ℕ) → has_bit result l ≡ legs_with is_rebuilding self.now l }
    {
        self.legs_with(Role::Rebuilding)
    }

    /// The set of the faulty legs, one bit for each.
    pub fn faulty(&self) -> u8
        ensures { (l : ℕ) → has_bit result l ≡ legs_with is_faulty self.now l }
    {
        self.legs_with(Role::Faulty)
    }

    /// The set of the spare legs among the eight, one bit for each.
    pub fn spare(&self) -> u8
        ensures { (l : ℕ) → has_bit result l ≡ legs_with is_spare self.now l }
    {
        self.legs_with(Role::Spare)
    }
}

/// Whether a node is a member, or on its way to become one.
#[derive(Clone, Copy, PartialEq, Eq, Debug)]
pub enum NodeState {
    Out,
    Joining,
    Loaded,
    Up,
}

impl NodeState {
    /// The word of the phase.
    pub fn word(&self) -> Word
        ensures { result ≡ state_word self.now }
    {
        match self {
            NodeState::Out => Word::Out,
            NodeState::Joining => Word::Joining,
            NodeState::Loaded => Word::Loaded,
            NodeState::Up => Word::Up,
        }
    }
}

#[cfg(test)]
mod tests {
    use super::*;

    #[test]
    fn legs_by_role(rt: HostRuntime) {
        let roles = Roles {
            legs: [
                Role::Working,
                Role::Rebuilding,
                Role::Faulty,
                Role::Spare,
                Role::Working,
                Role::Faulty,
                Role::Rebuilding,
                Role::Spare,
            ],
        };
        assert_eq!(rt;
            [
                roles.working(),
                roles.rebuilding(),
                roles.faulty(),
                roles.spare()
            ],
            [0b0001_0001, 0b0100_0010, 0b0010_0100, 0b1000_1000]
        );
    }

    #[test]
    fn numbers_of_roles(rt: HostRuntime) {
        for (l, code, role) in [
            (0, 0, Some(Role::Working)),
            (7, 7, Some(Role::Working)),
            (7, 0x8007, Some(Role::Rebuilding)),
            (3, 0xfffe, Some(Role::Faulty)),
            (3, 0xffff, Some(Role::Spare)),
            (3, 4, None),
            (3, 0x8004, None),
            (3, 0xfffd, None),
        ] {
            assert_eq!(rt; Role::of_code(l, code), role, "{code} of leg {l}");
            if let Some(role) = role {
                assert_eq!(rt; role.code(l), code, "{role:?} of leg {l}");
            }
        }
    }
}
