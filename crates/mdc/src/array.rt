ghost use Rattle.std.specs.Prelude.{◌≡◌, ◌≤◌, ◌<◌, true, false, is_ok, IfOk};
ghost use Rattle.mdc_types.specs.Bits.{has_bit};
ghost use Rattle.cluster_model.specs.Opening.{IsOrigin};
ghost use Rattle.script_text.specs.Header.{start_sizes, most_nodes};
ghost use Rattle.cluster_core.specs.Stands.{stand};
ghost use Rattle.mdc.specs.Opened.{Starts, origin_of, sizes_of, faults_of, left_by};
ghost use Rattle.mdc.specs.Opened.{IsNewLeg, AreNewLegs};

use cluster_core::World;
use faulty_leg::FaultyLeg;
use leg_store::Left;
use mdc_types::{Geometry, LegId};
use script_text::{FaultLine, Script, Start};
use std::alloc::{AllocError, Global};
use world_openings::{Opening, header_leg};

// What a write leaves that fails.
fn left_by(new: bool) -> Left
    ensures { result ≡ left_by new }
{
    if new { Left::New } else { Left::Old }
}

// The transfers of a leg that fail, in the order of their lines.
fn leg_faults(alloc: Global, faults: &[FaultLine], l: LegId) -> Result<Vec<(u32, Left)>, AllocError>
    ensures { IfOk result (λ list. list.items ≡ faults_of faults.now l) }
{
    let mut list = Vec::new(alloc);
    for f in faults {
        if f.leg == l {
            list.push((f.transfer, left_by(f.new)))?;
        }
    }
    Ok(list)
}

// A leg of the header.
fn new_leg(
    alloc: Global,
    opening: &Opening,
    faults: &[FaultLine],
    l: LegId,
) -> Result<FaultyLeg, AllocError>
    requires origin { IsOrigin opening.now }
    requires leg { l < opening.now.sizes.legs }
    ensures { IfOk result (λ leg. IsNewLeg opening.now faults.now l leg) }
{
    let leg = header_leg(alloc, opening, l, Vec::new(alloc))?;
    FaultyLeg::new(alloc, leg, leg_faults(alloc, faults, l)?)
}

fn new_legs(
    alloc: Global,
    opening: &Opening,
    faults: &[FaultLine],
) -> Result<Vec<FaultyLeg>, AllocError>
    requires { IsOrigin opening.now }
    ensures { IfOk result (λ legs.
        AreNewLegs opening.now faults.now opening.now.sizes.legs legs.items) }
{
    let count = opening.geometry().legs();
    let mut legs = Vec::with_capacity(alloc, count as usize)?;
    for l in 0..count {
        legs.push(new_leg(alloc, opening, faults, l)?)?;
    }
    Ok(legs)
}

fn geometry_of(start: &Start) -> Geometry
    requires { is_ok (start_sizes start.now) ≡ true }
    ensures { result ≡ sizes_of start.now }
{
    start.geometry()
}

/// The world of a script's header, over legs in memory.
pub fn open_world(alloc: Global, script: &Script) -> Result<World<FaultyLeg>, AllocError>
    requires array { is_ok (start_sizes script.now.start) ≡ true }
    requires some_node { 1 ≤ script.now.start.nodes }
    requires nodes { script.now.start.nodes ≤ most_nodes script.now.start.second }
    requires leg_0 { has_bit script.now.start.spares 0 ≡ false }
    ensures origin { IfOk result (λ world. world.origin ≡ origin_of script.now.start) }
    ensures starts { IfOk result (λ world. Starts script.now (stand world)) }
{
    let start = script.start();
    let geometry = geometry_of(start);
    let opening = Opening::header(alloc, geometry, start.nodes, start.warm, start.spares)?;
    let legs = new_legs(alloc, &opening, script.faults())?;
    match World::open(alloc, legs, opening) {
        Ok(world) => Ok(world),
        Err(_) => Err(AllocError),
    }
}
