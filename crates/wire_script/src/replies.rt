ghost use Rattle.std.specs.Prelude.{◌≡◌, IfOk, OnErr};
ghost use Rattle.std.specs.Result.{result_ok};
ghost use Rattle.lock_wire.specs.Parts.{wire_of};
ghost use Rattle.mdc_types.specs.Resources.{IsResource};
ghost use Rattle.script_text.specs.Wire.{IsWireLine};
ghost use Rattle.wire_script.specs.Replies.{refused_reply, Takes};

use dlm_modes::Mode;
use dlm_space::Converted;
use lock_wire::{Wire, WireEnd};
use mdc_types::{NodeId, Res};
use report_text::WireReply;
use script_text::WireLine;
use std::alloc::AllocError;

// The reply to a call that is refused.
fn refused(end: WireEnd) -> Result<WireReply, AllocError>
    ensures { result_ok result ≡ refused_reply end }
{
    match end {
        WireEnd::Refused(why) => Ok(WireReply::Refused(why)),
        WireEnd::Lock(why) => Ok(WireReply::Denied(why)),
        WireEnd::Memory => Err(AllocError),
    }
}

fn ask(wire: &mut Wire, node: NodeId, res: Res, mode: Mode) -> Result<WireReply, AllocError>
    requires { IsResource res }
    ensures ok { IfOk result (λ reply.
        Takes (wire_of wire.old) (WireLine.Ask node res mode) (wire_of wire.new) reply) }
    ensures err { OnErr result (wire_of wire.new ≡ wire_of wire.old) }
{
    match wire.ask(node, res.number(), mode) {
        Ok(()) => Ok(WireReply::Asked),
        Err(end) => refused(end),
    }
}

fn convert(wire: &mut Wire, node: NodeId, res: Res, mode: Mode) -> Result<WireReply, AllocError>
    requires { IsResource res }
    ensures ok { IfOk result (λ reply.
        Takes (wire_of wire.old) (WireLine.Convert node res mode) (wire_of wire.new) reply) }
    ensures err { OnErr result (wire_of wire.new ≡ wire_of wire.old) }
{
    match wire.convert(node, res.number(), mode, None) {
        Ok(Converted::Now) => Ok(WireReply::Converted),
        Ok(Converted::Queued) => Ok(WireReply::Asked),
        Err(end) => refused(end),
    }
}

fn release(wire: &mut Wire, node: NodeId, res: Res) -> Result<WireReply, AllocError>
    requires { IsResource res }
    ensures ok { IfOk result (λ reply.
        Takes (wire_of wire.old) (WireLine.Release node res) (wire_of wire.new) reply) }
    ensures err { OnErr result (wire_of wire.new ≡ wire_of wire.old) }
{
    match wire.release(node, res.number(), None) {
        Ok(()) => Ok(WireReply::Released),
        Err(end) => refused(end),
    }
}

fn deliver(wire: &mut Wire, from: NodeId, to: NodeId) -> Result<WireReply, AllocError>
    ensures ok { IfOk result (λ reply.
        Takes (wire_of wire.old) (WireLine.Deliver from to) (wire_of wire.new) reply) }
    ensures err { OnErr result (wire_of wire.new ≡ wire_of wire.old) }
{
    match wire.deliver(from, to) {
        Ok(kind) => Ok(WireReply::Took(kind)),
        Err(end) => refused(end),
    }
}

fn serve(wire: &mut Wire, res: Res) -> Result<WireReply, AllocError>
    requires { IsResource res }
    ensures ok { IfOk result (λ reply.
        Takes (wire_of wire.old) (WireLine.Serve res) (wire_of wire.new) reply) }
    ensures err { OnErr result (wire_of wire.new ≡ wire_of wire.old) }
{
    match wire.serve(res.number()) {
        Ok(granted) => Ok(WireReply::Granted {
            node: granted.node,
            mode: granted.mode,
        }),
        Err(end) => refused(end),
    }
}

fn die(wire: &mut Wire, node: NodeId) -> Result<WireReply, AllocError>
    ensures ok { IfOk result (λ reply.
        Takes (wire_of wire.old) (WireLine.Die node) (wire_of wire.new) reply) }
    ensures err { OnErr result (wire_of wire.new ≡ wire_of wire.old) }
{
    match wire.die(node) {
        Ok(()) => Ok(WireReply::Died),
        Err(end) => refused(end),
    }
}

fn holds(wire: &Wire, node: NodeId, res: Res) -> WireReply
    requires { IsResource res }
    ensures { Takes (wire_of wire.now) (WireLine.Holds node res) (wire_of wire.now) result }
{
    WireReply::Holds {
        node,
        held: wire.holds(node, res.number()),
    }
}

/// Takes one line, and replies to it. Where memory is wanting nothing changes.
pub fn reply(wire: &mut Wire, line: WireLine) -> Result<WireReply, AllocError>
    requires { IsWireLine line }
    ensures ok { IfOk result (λ reply. Takes (wire_of wire.old) line (wire_of wire.new) reply) }
    ensures err { OnErr result (wire_of wire.new ≡ wire_of wire.old) }
{
    match line {
        WireLine::Ask { node, res, mode } => ask(wire, node, res, mode),
        WireLine::Convert { node, res, mode } => convert(wire, node, res, mode),
        WireLine::Release { node, res } => release(wire, node, res),
        WireLine::Deliver { from, to } => deliver(wire, from, to),
        WireLine::Serve(res) => serve(wire, res),
        WireLine::Die(node) => die(wire, node),
        WireLine::Holds { node, res } => Ok(holds(wire, node, res)),
    }
}
