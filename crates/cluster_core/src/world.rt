ghost use Rattle.std.specs.Prelude.{◌≡◌, ◌<◌, ◌≤◌, ◌-◌, ◌^◌, ◌⊎◌, ◌↔◌, [], ◌∷◌, ℕ, true, false, None, Some, Ok, Err, min, map, reverse, length, get_or, IfOk, IfErr, IsErr, IsOk, OnOk, OnErr, IsErrOf};
ghost use Rattle.mdc_types.specs.Geometry.{length_of};
ghost use Rattle.mdc_types.specs.declared.refusals.Refusal.{Refusal};
ghost use Rattle.mdc_types.specs.declared.roles.NodeState.TheVariants.{Out};
ghost use Rattle.cluster_model.specs.Opening.{IsOrigin, core_at};
ghost use Rattle.cluster_model.specs.Contents.{IsHeader, IsImages};
ghost use Rattle.cluster_model.specs.Table.{refusal};
ghost use Rattle.cluster_model.specs.Run.{entry};
ghost use Rattle.node_bits.specs.Bitmaps.{map_at};
ghost use Rattle.world_state.specs.Kept.{core_of, no_parts};
ghost use Rattle.world_state.specs.Ready.{Ready};
ghost use Rattle.world_state.specs.Told.{Fits, Carries, Received, legs_of, seen_of as legs_seen};
ghost use Rattle.cluster_core.specs.World.{Reachable, trace_limit};
ghost use Rattle.cluster_core.specs.Promises.{KeepsPromises};

use crate::apply::{apply, may};
use laws_rounds::told_rounds_go_on;
use leg_failure::View;
use leg_store::LegDev;
use mdc_types::{
    Entry, Event, Failed, Geometry, LegId, NodeId, NodeState, Outcome, Refusal, Sector,
};
use node_bitmaps::NodeMap;
use node_member::Record;
use std::alloc::{AllocError, Global};
use std::marker::Model;
use world_openings::{Opening, open_state};
use world_state::{CoreState, read_leg};

/// The most entries of a trace.
pub const TRACE_LIMIT: usize = 65_536;

/// Why an event was not done.
#[derive(Clone, Copy)]
pub enum StepEnd {
    /// That guard fails.
    Refused(Refusal),
    /// The trace has as many entries as it may have, and the guards hold.
    TraceFull,
    Memory,
}

/// Memory is wanting for a world. What it was to be made of comes back.
#[derive(Drop)]
pub struct NoWorld<L: LegDev> {
    pub legs: Vec<L>,
    pub opening: Opening,
}

/// A machine over legs, that a run from its opening has led to where it is.
#[derive(Drop)]
pub struct World<L: LegDev> {
    opening: Opening,
    core: CoreState,
    legs: Vec<L>,
    trace: Vec<Entry>,
}

impl<L: LegDev> Model for World<L> {
    ghost use Rattle.std.specs.Prelude.{◌-◌, vec_len, vec_capacity};
    ghost use Rattle.cluster_core.specs.World.{Seen, seen_of, Reachable};

    ghost Value = { Seen };

    ghost view = { λ w. seen_of L.contents L.size L.faults L.plan w.opening w.core w.legs.items w.trace.items (vec_capacity w.trace - vec_len w.trace) };

    ghost invariant = { λ w. Reachable (seen_of L.contents L.size L.faults L.plan w.opening w.core w.legs.items w.trace.items (vec_capacity w.trace - vec_len w.trace)) };
}

fn node_state(core: &CoreState, n: NodeId) -> NodeState
    requires { n < 16 }
    ensures { result ≡ get_or core.now.states n Out }
{
    core.states[n as usize]
}

fn view(core: &CoreState, n: NodeId) -> &View
    requires { n < 16 }
    ensures { result.now ≡ get_or core.now.views n no_parts }
{
    &core.views[n as usize]
}

impl<L: LegDev> World<L> {
    /// The world at an opening, over legs that have what the opening says where they tell their
    /// contents. `Err` is want of memory, and hands both back.
    pub fn open(alloc: Global, legs: Vec<L>, opening: Opening) -> Result<World<L>, NoWorld<L>>
        requires origin { IsOrigin opening }
        requires fits { Fits opening.sizes (map L.size legs.items) }
        requires contents { IsHeader opening (legs_of (map L.contents legs.items)) ⊎ IsImages opening (legs_of (map L.contents legs.items)) }
        ensures opening { IfOk result (λ w. w.origin ≡ opening) }
        ensures core { IfOk result (λ w. core_of w.kept ≡ core_at opening) }
        ensures legs { IfOk result (λ w. w.legs ≡ legs_seen L.contents L.size L.faults L.plan legs.items) }
        ensures past { IfOk result (λ w. w.past ≡ []) }
        ensures back { IfErr result (λ e. (e.legs ≡ legs) × (e.opening ≡ opening)) }
    {
        match open_state(alloc, &opening) {
            Err(_) => Err(NoWorld { legs, opening }),
            Ok(core) => Ok(World {
                opening,
                core,
                legs,
                trace: Vec::new(alloc),
            }),
        }
    }

    /// Gives the legs back as they are, with all that was promised of the world: where they tell
    /// their contents, superblocks and pages of slots can be read again.
    pub fn into_legs(self) -> Vec<L>
        ensures legs { legs_seen L.contents L.size L.faults L.plan result.items ≡ self.legs }
        ensures promises { KeepsPromises self }
    {
        self.promises();
        let World {
            opening: _,
            core: _,
            legs,
            trace: _,
        } = self;
        legs
    }

    /// What the world was opened with.
    pub fn opening(&self) -> &Opening
        ensures { result.now ≡ self.now.origin }
    {
        &self.opening
    }

    /// The entries, the oldest first.
    pub fn trace(&self) -> &[Entry]
        ensures { self.now.past ≡ reverse result.now }
    {
        self.trace.as_slice()
    }

    /// The state without the legs, for those who choose what to do next: it has what every place of
    /// every run has.
    pub fn core(&self) -> &CoreState
        ensures kept { result.now ≡ self.now.kept }
        ensures ready { Ready (core_of result.now) }
    {
        told_rounds_go_on();
        &self.core
    }

    /// The first guard of the event that fails, if one does.
    pub fn refusal(&self, e: &Event) -> Option<Refusal>
        ensures { result ≡ refusal (core_of self.now.kept) e.now }
    {
        may(self.core(), e).err()
    }

    /// The sizes of the array.
    pub fn geometry(&self) -> Geometry
        ensures { result ≡ self.now.kept.identity.geometry }
    {
        self.core.identity.geometry
    }

    /// Whether the node is out, joining, loaded or up.
    pub fn node_state(&self, n: NodeId) -> NodeState
        requires { n < 16 }
        ensures { result ≡ get_or self.now.kept.states n Out }
    {
        node_state(&self.core, n)
    }

    /// The node's view of the legs.
    pub fn view(&self, n: NodeId) -> &View
        requires { n < 16 }
        ensures { result.now ≡ get_or self.now.kept.views n no_parts }
    {
        view(&self.core, n)
    }

    /// The node's bitmap.
    pub fn map(&self, n: NodeId) -> &NodeMap
        requires { n < 16 }
        ensures { result.now ≡ map_at self.now.kept.bitmaps.maps n }
    {
        self.core.bitmaps.map(n)
    }

    /// The record of the members.
    pub fn member_record(&self) -> &Record
        ensures { result.now ≡ self.now.kept.members }
    {
        &self.core.members
    }

    /// Reads the sector `at` of leg `l`, over no node's path: a transfer of that leg, which counts as one.
    /// The world stays as it is.
    pub fn look(&mut self, l: LegId, at: u32) -> Result<Sector, Failed>
        requires leg { l < self.old.kept.identity.geometry.legs }
        requires within { at < length_of self.old.kept.identity.geometry }
        ensures read { Received false l at result self.old.legs self.new.legs }
        ensures same { self.new ≡ record self.old { legs = self.new.legs } }
    {
        read_leg(&mut self.legs, l as usize, at)
    }

    /// A run from a state that belongs to the opening led to where the world is.
    pub fn history(&self)
        ensures { Reachable self.now }
    {
        let _legs = &self.legs;
    }

    /// How many entries more there is memory for, as far as a `u32` tells.
    pub fn spare(&self) -> u32
        ensures { result ≡ min self.now.spare (2 ^ 32 - 1) }
    {
        let spare = self.trace.capacity() - self.trace.len();
        u32::try_from(spare).unwrap_or(u32::MAX)
    }

    /// Takes the memory for `n` entries more, so that the next `n` accepted events take none.
    pub fn reserve(&mut self, n: u32) -> Result<(), AllocError>
        ensures ok { OnOk result (n ≤ self.new.spare) }
        ensures more { self.old.spare ≤ self.new.spare }
        ensures same { self.new ≡ record self.old { spare = self.new.spare } }
    {
        self.trace.reserve(n as usize)
    }

    /// One event: its outcome and one entry more where its guards hold, and nothing else.
    pub fn step(&mut self, e: Event) -> Result<Outcome, StepEnd>
        ensures carried { IfOk result (λ o. Carries e o self.old.kept self.old.legs self.new.kept self.new.legs) }
        ensures entry { IfOk result (λ o. self.new.past ≡ entry e o ∷ self.old.past) }
        ensures origin { self.new.origin ≡ self.old.origin }
        ensures err { OnErr result (self.new ≡ self.old) }
        ensures refused { (r : Refusal) → result ≡ Err (StepEnd.Refused r) → refusal (core_of self.old.kept) e ≡ Some r }
        ensures exact { (r : Refusal) → refusal (core_of self.old.kept) e ≡ Some r → result ≡ Err (StepEnd.Refused r) }
        ensures full { result ≡ Err StepEnd.TraceFull → (refusal (core_of self.old.kept) e ≡ None) × (length self.old.past ≡ trace_limit) }
        ensures limit { refusal (core_of self.old.kept) e ≡ None → length self.old.past ≡ trace_limit → result ≡ Err StepEnd.TraceFull }
        ensures reserved { 0 < self.old.spare → result ≡ Err StepEnd.Memory → ⊥ }
        ensures spare { OnOk result (self.old.spare - 1 ≤ self.new.spare) }
    {
        told_rounds_go_on();
        if let Err(r) = may(&self.core, &e) {
            return Err(StepEnd::Refused(r));
        }
        if self.trace.len() >= TRACE_LIMIT {
            return Err(StepEnd::TraceFull);
        }
        if self.trace.reserve(1).is_err() {
            return Err(StepEnd::Memory);
        }
        let outcome = apply(&mut self.core, &mut self.legs, e);
        self.trace.push_reserved(Entry { event: e, outcome });
        Ok(outcome)
    }
}
