ghost use Rattle.disk_addition.specs.Wishes.{HasLeg};

use super::*;
use Addition::{Again, Announced, Nothing, Removing};
use Role::{Faulty, Rebuilding, Spare, Working};
use mdc_types::{Part, Range, Refusal, Role, Roles, Wish};
use std::test::Fail;

#[derive(Clone, Copy, PartialEq, Eq, Debug)]
enum Answer {
    Yes,
    NotPhase,
    NotRole(Role),
}

// Whether the wish may be offered where leg 1 has this role, and all others are spares.
fn asked(addition: Addition, wish: Wish, role: Role, holds_ex: bool) -> Answer
    requires { HasLeg wish }
{
    let mut roles = Roles { legs: [Spare; 8] };
    roles.legs[1] = role;
    match addition.may(&wish, &roles, holds_ex) {
        Err(Refusal::NotPhase(Part::Addition, _)) => Answer::NotPhase,
        Err(Refusal::NotRole(1, role)) => Answer::NotRole(role),
        _ => Answer::Yes,
    }
}

#[test]
fn wishes_by_addition(rt: HostRuntime) {
    let rebuild = Wish::Rebuild(1);
    let spare = Wish::Spare(1);
    assert_eq!(rt; asked(Removing(1), spare, Faulty, false), Answer::Yes);
    assert_eq!(rt; asked(Removing(2), spare, Faulty, false), Answer::NotPhase);
    assert_eq!(rt; asked(Announced(1), rebuild, Spare, true), Answer::Yes);
    assert_eq!(rt;
        asked(Announced(1), rebuild, Spare, false),
        Answer::NotPhase
    );
    assert_eq!(rt; asked(Announced(2), rebuild, Spare, true), Answer::NotPhase);
    assert_eq!(rt;
        asked(Addition::ReAdd(1), rebuild, Faulty, false),
        Answer::Yes
    );
    assert_eq!(rt; asked(Again(1), rebuild, Spare, true), Answer::NotPhase);
    assert_eq!(rt;
        asked(Announced(1), Wish::Meta, Working, false),
        Answer::Yes
    );
}

#[test]
fn wishes_by_role(rt: HostRuntime) {
    for role in [Working, Rebuilding, Faulty, Spare] {
        let by_role = |is_right: bool| {
            if is_right {
                Answer::Yes
            } else {
                Answer::NotRole(role)
            }
        };
        let is_out = role == Faulty || role == Spare;
        assert_eq!(rt;
            asked(Removing(1), Wish::Spare(1), role, false),
            by_role(role == Faulty)
        );
        assert_eq!(rt;
            asked(Announced(1), Wish::Rebuild(1), role, true),
            by_role(role == Spare)
        );
        assert_eq!(rt;
            asked(Addition::ReAdd(1), Wish::Rebuild(1), role, false),
            by_role(is_out)
        );
        assert_eq!(rt;
            asked(Nothing, Wish::Work(1), role, false),
            by_role(role == Rebuilding)
        );
        assert_eq!(rt;
            asked(Nothing, Wish::NewDisk(1), role, false),
            by_role(role == Spare)
        );
        assert_eq!(rt;
            asked(Again(2), Wish::Remove(1), role, false),
            by_role(role == Faulty)
        );
        assert_eq!(rt;
            asked(Nothing, Wish::ReAdd(1), role, false),
            by_role(role == Faulty)
        );
    }
}

#[test]
fn rounds(rt: HostRuntime) {
    let range = Wish::Range(Range { lo: 0, hi: 8 });
    for (addition, wish, next) in [
        (Nothing, Wish::NewDisk(3), Announced(3)),
        (Announced(3), Wish::Rebuild(3), Nothing),
        (Announced(3), Wish::Remove(2), Removing(2)),
        (Removing(2), Wish::Spare(2), Nothing),
        (Nothing, Wish::ReAdd(1), Addition::ReAdd(1)),
        (Addition::ReAdd(1), Wish::Rebuild(1), Again(1)),
        (Again(1), range, Again(1)),
        (Again(1), Wish::Work(1), Nothing),
        (Again(1), Wish::Grow(20), Nothing),
        (Again(1), Wish::Unclean, Nothing),
        (Addition::ReAdd(1), Wish::Meta, Nothing),
    ] {
        assert_eq!(rt; addition.after(&wish), next);
    }
}

#[test]
fn names(rt: HostRuntime) -> Result<(), Fail> {
    let uuid = [7; 16];
    let devices = Devices::open(rt.alloc(), 3, &uuid)?;
    for (l, leg) in [(0, Some(0)), (2, Some(2)), (3, None), (7, None)] {
        assert_eq!(rt; devices.find(&device_uuid(&uuid, l)), leg, "leg {l}");
    }
    assert_eq!(rt; devices.find(&[0; 16]), None);
    Ok(())
}
