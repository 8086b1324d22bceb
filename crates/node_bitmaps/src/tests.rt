ghost use Rattle.std.specs.Prelude.{IfOk};
ghost use Rattle.mdc_types.specs.Geometry.{chunks_of, pages_of};
ghost use Rattle.node_bitmaps.specs.Map.{HasSize};

use super::*;
use mdc_types::{ChunkNo, ChunkSet, Geometry, LegId, Sector};
use std::alloc::{AllocError, Global};
use std::process::Abort;
use std::test::Fail;

#[derive(Clone, Copy)]
enum Call {
    Set(ChunkNo),
    Clear(ChunkNo),
    Need(ChunkNo),
    Settled(ChunkNo),
    Enter(ChunkNo),
    Exit(ChunkNo),
    Out(LegId),
    Failed(LegId),
    NewLeg(LegId),
    Forget,
}

fn change(rt: &impl Abort, map: &mut NodeMap, call: Call) {
    match call {
        Call::Set(c) => {
            assert!(rt; c < map.chunks());
            map.set(c);
        }
        Call::Clear(c) => {
            assert!(rt; c < map.chunks());
            map.clear(c);
        }
        Call::Need(c) => {
            assert!(rt; c < map.chunks());
            map.need(c);
        }
        Call::Settled(c) => {
            assert!(rt; c < map.chunks());
            map.settled(c);
        }
        Call::Enter(c) => {
            assert!(rt; c < map.chunks());
            assert!(rt; map.writes(c) < 16);
            map.enter(c);
        }
        Call::Exit(c) => {
            assert!(rt; c < map.chunks());
            assert!(rt; map.writes(c) > 0);
            map.exit(c);
        }
        Call::Out(leg) => {
            assert!(rt; leg < 8 && 0 < map.pages());
            map.page_out(0, leg);
        }
        Call::Failed(leg) => {
            assert!(rt; leg < 8 && 0 < map.pages());
            map.page_failed(0, leg);
        }
        Call::NewLeg(leg) => {
            assert!(rt; leg < 8);
            map.new_leg(leg);
        }
        Call::Forget => map.forget(),
    }
}

// The live writes of a chunk, and whether its bit surely stands on leg 0.
fn shown(map: &NodeMap, c: ChunkNo) -> (u16, bool) {
    if c < map.chunks() {
        (map.writes(c), map.on_leg(c, 0))
    } else {
        (0, false)
    }
}

// A call, and then the first chunk of the set and the first to be copied, whether chunks 3 and 5 stand
// on leg 0, the first page that isn't fresh there, and the live writes of chunk 3.
const STORY: [(
    Call,
    Option<ChunkNo>,
    Option<ChunkNo>,
    bool,
    bool,
    Option<u32>,
    u16,
); 17] = [
    (Call::Set(3), Some(3), None, false, false, Some(0), 0),
    (Call::Set(5), Some(3), None, false, false, Some(0), 0),
    (Call::Out(1), Some(3), None, false, false, Some(0), 0),
    // A page that was written has its chunks on the leg, and is fresh there until the set changes.
    (Call::Out(0), Some(3), None, true, true, None, 0),
    (Call::Set(3), Some(3), None, true, true, None, 0),
    (Call::Clear(4), Some(3), None, true, true, None, 0),
    (Call::Clear(3), Some(5), None, true, true, Some(0), 0),
    // After a failed write only what both pages have is sure.
    (Call::Failed(0), Some(5), None, false, true, Some(0), 0),
    (Call::Set(3), Some(3), None, false, true, Some(0), 0),
    (Call::Failed(0), Some(3), None, false, true, Some(0), 0),
    (Call::Out(0), Some(3), None, true, true, None, 0),
    (Call::Enter(3), Some(3), None, true, true, None, 1),
    (Call::Enter(3), Some(3), None, true, true, None, 2),
    (Call::Exit(3), Some(3), None, true, true, None, 1),
    (Call::Need(8), Some(3), Some(8), true, true, None, 1),
    // A death leaves the marks.
    (Call::Forget, None, None, true, true, Some(0), 0),
    (Call::NewLeg(0), None, None, false, false, Some(0), 0),
];

#[test]
fn a_story(rt: HostRuntime) -> Result<(), Fail> {
    let g = Geometry::new(2, 40, 4)?;
    let mut map = NodeMap::new(rt.alloc(), &g)?;
    for (line, (call, set, need, three, five, stale, writes)) in STORY.iter().enumerate() {
        change(&rt, &mut map, *call);
        assert_eq!(rt; map.first_set_from(0), *set, "line {line}");
        assert_eq!(rt; map.first_needed_from(0), *need, "line {line}");
        assert_eq!(rt; shown(&map, 3), (*writes, *three), "line {line}");
        assert_eq!(rt; shown(&map, 5), (0, *five), "line {line}");
        assert_eq!(rt; map.first_old(1).map(|(p, _)| p), *stale, "line {line}");
    }
    Ok(())
}

#[test]
fn whole_sets(rt: HostRuntime) -> Result<(), Fail> {
    let g = Geometry::new(2, 40, 4)?;
    let mut map = NodeMap::new(rt.alloc(), &g)?;
    for call in [Call::Set(1), Call::Need(2), Call::Need(6), Call::Settled(2)] {
        change(&rt, &mut map, call);
    }
    let mut into = ChunkSet::new(rt.alloc(), map.chunks())?;
    map.needed_into(&mut into);
    assert_eq!(rt; into.first_from(0), Some(6));
    map.set_into(&mut into);
    assert_eq!(rt; into.first_from(0), Some(1));
    assert_eq!(rt; (map.first_set(), map.first_needed()), (Some(1), Some(6)));
    assert_eq!(rt; (map.chunks(), g.slot_pages()), (g.chunks(), 8));
    assert_eq!(rt; map.page(&g, &[7; 16], 0).bytes[256], 0x02);
    Ok(())
}

// Chunks 1 and 2051 are set, in pages 0 and 1, and page 1 was read with chunks 2051 and 2052.
fn two_pages(alloc: Global, g: &Geometry) -> Result<NodeMap, AllocError>
    ensures { IfOk result (λ m. HasSize m (chunks_of g.now) (pages_of g.now)) }
{
    let mut map = NodeMap::new(alloc, g)?;
    let mut page = Sector::ZERO;
    page.bytes[0] = 0x18;
    if 2051 < map.chunks() && 1 < map.pages() {
        map.set(1);
        map.set(2051);
        map.page_out(0, 0);
        map.page_out(1, 2);
        map.found_page(1, &page);
    }
    Ok(map)
}

#[test]
fn what_is_left(rt: HostRuntime) -> Result<(), Fail> {
    let g = Geometry::new(3, 4096, 1)?;
    let mut map = two_pages(rt.alloc(), &g)?;
    assert_eq!(rt; (map.chunks(), map.pages()), (4096, 2));
    // Legs: the first old page, the least leg with one, and the first page with a chunk that is unmarked.
    for (legs, old, least, unmarked) in [
        (0b001, Some((1, 0)), Some(0), Some((1, 0))),
        (0b100, Some((0, 2)), Some(2), Some((0, 2))),
        (0b101, Some((0, 2)), Some(0), Some((0, 2))),
        (0, None, None, None),
    ] {
        assert_eq!(rt; map.first_old(legs), old, "old of {legs}");
        assert_eq!(rt; map.old_target(legs), least, "least of {legs}");
        assert_eq!(rt; map.first_unmarked(legs), unmarked, "unmarked of {legs}");
    }
    let mut chunks = ChunkSet::new(rt.alloc(), map.chunks())?;
    chunks.add(1);
    chunks.add(2051);
    assert_eq!(rt; map.first_needed_of(&chunks), Some(2051));
    assert_eq!(rt; map.unmarked_target_of(0b101, &chunks), Some(0));
    assert_eq!(rt; map.unmarked_target(0b101, 1), Some(2));
    map.new_legs(0b011);
    assert_eq!(rt; map.unmarked_target(0b101, 1), Some(0));
    Ok(())
}
