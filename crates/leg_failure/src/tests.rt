use super::*;
use Role::{Faulty, Rebuilding, Spare, Working};
use mdc_types::{LegId, Role, Roles};

// Four roles, and four spares after them.
fn roles(legs: [Role; 4]) -> Roles {
    let [a, b, c, d] = legs;
    Roles {
        legs: [a, b, c, d, Spare, Spare, Spare, Spare],
    }
}

#[test]
fn two_nodes_that_lost_each_others_leg(rt: HostRuntime) {
    let mirror = roles([Working, Working, Spare, Spare]);
    let mut a = View::new(mirror, 16);
    let mut b = View::new(mirror, 16);
    assert_eq!(rt; a.lose(1), Lose::Lost);
    assert_eq!(rt; b.lose(0), Lose::Lost);
    assert_eq!(rt; a.lose(0), Lose::LastLeg);
    assert_eq!(rt; (a.working(), a.lost(), a.unacked()), (0b01, 0b10, 0b10));

    // The first proposes that leg 1 is faulty. The second would be left with no leg, and has leg 0 back.
    let proposed = a.proposed();
    assert_eq!(rt; proposed, roles([Working, Faulty, Spare, Spare]));
    b.take(&proposed, 16);
    assert_eq!(rt; (b.working(), b.lost(), b.unacked()), (0b01, 0, 0b10));
    b.acknowledge();
    assert_eq!(rt; b.unacked(), 0);
    a.finish(&proposed, 16);
    assert_eq!(rt; (a.working(), a.lost(), a.unacked()), (0b01, 0, 0));
}

#[test]
fn views(rt: HostRuntime) {
    let mut view = View::joined(roles([Working, Rebuilding, Working, Faulty]), 16, 0b011);
    assert_eq!(rt; view.proposed(), roles([Faulty, Spare, Working, Faulty]));
    assert_eq!(rt;
        (view.targets(), view.working(), view.unacked()),
        (0b100, 0b100, 0b011)
    );
    assert_eq!(rt; view.lose(2), Lose::LastLeg);
    assert_eq!(rt; view.lose(3), Lose::Lost);

    // Leg 2 is called faulty, and leg 0 is the only one that is called working: it is back. Leg 1 stays lost.
    view.take(&roles([Working, Rebuilding, Faulty, Faulty]), 24);
    assert_eq!(rt;
        (view.lost(), view.targets(), view.unacked()),
        (0b010, 0b001, 0b110)
    );
    assert_eq!(rt; (view.size(), view.sure_size()), (24, 16));
    view.acknowledge();
    assert_eq!(rt; (view.unacked(), view.sure_size()), (0b010, 24));

    // A node's own round gives nothing back.
    view.finish(&roles([Faulty, Working, Spare, Spare]), 32);
    assert_eq!(rt;
        (view.lost(), view.working(), view.unacked()),
        (0b010, 0, 0b010)
    );
    assert_eq!(rt; (view.size(), view.sure_size()), (32, 32));
    assert_eq!(rt; view.roles(), view.sure());
}

#[test]
fn sets(rt: HostRuntime) {
    let mirror = with_role(&roles([Working, Rebuilding, Working, Faulty]), 7, Working);
    assert_eq!(rt; working_of(&mirror), 0b1000_0101);
    assert_eq!(rt; written_of(&mirror), 0b1000_0111);
    for (set, least) in [(0, None), (0b1000_0000, Some(7)), (0b0110, Some(1))] {
        assert_eq!(rt; least_leg(set), least, "{set}");
    }
}
