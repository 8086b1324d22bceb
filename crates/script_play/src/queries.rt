ghost use Rattle.std.specs.Prelude.{◌≡◌, IfOk, string_bytes};
ghost use Rattle.script_play.specs.QueryAnswers.{refused_line, query_line};
ghost use Rattle.script_text.specs.declared.script.Line.TheVariants.{View as AskView};
ghost use Rattle.script_text.specs.declared.script.Line.TheVariants.{Map as AskMap};
ghost use Rattle.script_text.specs.declared.script.Line.TheVariants.{Slot as AskSlot};
ghost use Rattle.script_text.specs.declared.script.Line.TheVariants.{Record as AskRecord};
ghost use Rattle.script_text.specs.declared.script.Line.TheVariants.{Size as AskSize};

use cluster_core::World;
use leg_store::LegDev;
use mdc_types::{LegId, NodeId, Refusal};
use report_text::{map_text, record_text, refusal_text, size_text, slot_text, view_text};
use std::alloc::{AllocError, Global};

/// The text of an event or a query that is refused. It has no line feed.
pub fn refused_text(alloc: Global, r: &Refusal) -> Result<String, AllocError>
    ensures { IfOk result (λ t. string_bytes t ≡ refused_line r.now) }
{
    let why = refusal_text(alloc, r)?;
    let mut text = String::from_str(alloc, "refused ")?;
    text.push_str(why.as_str())?;
    Ok(text)
}

/// The answer to `view N`.
pub fn view_answer<L: LegDev>(
    alloc: Global,
    world: &World<L>,
    n: NodeId,
) -> Result<String, AllocError>
    ensures { IfOk result (λ t. string_bytes t ≡ query_line world.now.kept (AskView n)) }
{
    let geometry = world.geometry();
    if n >= geometry.nodes() {
        return refused_text(alloc, &Refusal::NoNode(n));
    }
    view_text(
        alloc,
        n,
        world.node_state(n),
        world.view(n),
        geometry.legs(),
    )
}

/// The answer to `size N`.
pub fn size_answer<L: LegDev>(
    alloc: Global,
    world: &World<L>,
    n: NodeId,
) -> Result<String, AllocError>
    ensures { IfOk result (λ t. string_bytes t ≡ query_line world.now.kept (AskSize n)) }
{
    if n >= world.geometry().nodes() {
        return refused_text(alloc, &Refusal::NoNode(n));
    }
    size_text(alloc, n, world.node_state(n), world.view(n))
}

/// The answer to `map N`.
pub fn map_answer<L: LegDev>(
    alloc: Global,
    world: &World<L>,
    n: NodeId,
) -> Result<String, AllocError>
    ensures { IfOk result (λ t. string_bytes t ≡ query_line world.now.kept (AskMap n)) }
{
    if n >= world.geometry().nodes() {
        return refused_text(alloc, &Refusal::NoNode(n));
    }
    map_text(alloc, n, world.map(n))
}

/// The answer to `slot L D`.
pub fn slot_answer<L: LegDev>(
    alloc: Global,
    world: &World<L>,
    l: LegId,
    d: NodeId,
) -> Result<String, AllocError>
    ensures { IfOk result (λ t. string_bytes t ≡ query_line world.now.kept (AskSlot l d)) }
{
    let geometry = world.geometry();
    if l >= geometry.legs() {
        return refused_text(alloc, &Refusal::NoLeg(l));
    }
    if d >= geometry.nodes() {
        return refused_text(alloc, &Refusal::NoNode(d));
    }
    slot_text(alloc, l, d, world.map(d))
}

/// The answer to `record`.
pub fn record_answer<L: LegDev>(alloc: Global, world: &World<L>) -> Result<String, AllocError>
    ensures { IfOk result (λ t. string_bytes t ≡ query_line world.now.kept AskRecord) }
{
    record_text(alloc, world.member_record())
}
