ghost use Rattle.std.specs.Prelude.{◌≡◌, ◌<◌};
ghost use Rattle.dlm_space.specs.Parts.{locks_of};
ghost use Rattle.mdc_types.specs.Resources.{IsResource};
ghost use Rattle.script_text.specs.Locks.{IsLockLine, IsNodeRes};
ghost use Rattle.lock_script.specs.Replies.{Takes};

use dlm_modes::Mode;
use dlm_space::{Converted, Space};
use mdc_types::{NodeId, Res};
use report_text::LockReply;
use script_text::LockLine;

fn ask(space: &mut Space, node: NodeId, res: Res, mode: Mode) -> LockReply
    requires { IsNodeRes node res }
    ensures { Takes (locks_of space.old) (LockLine.Ask node res mode) (locks_of space.new) result }
{
    match space.ask(node, res.number(), mode) {
        Ok(()) => LockReply::Asked,
        Err(why) => LockReply::Refused(why),
    }
}

fn ask_now(space: &mut Space, node: NodeId, res: Res, mode: Mode) -> LockReply
    requires { IsNodeRes node res }
    ensures { Takes (locks_of space.old) (LockLine.Now node res mode) (locks_of space.new) result }
{
    match space.ask_now(node, res.number(), mode) {
        Ok(_) => LockReply::Granted { node, mode },
        Err(why) => LockReply::Refused(why),
    }
}

fn convert(space: &mut Space, node: NodeId, res: Res, mode: Mode) -> LockReply
    requires { IsNodeRes node res }
    ensures { Takes (locks_of space.old) (LockLine.Convert node res mode) (locks_of space.new) result }
{
    match space.convert(node, res.number(), mode, None) {
        Ok(Converted::Now) => LockReply::Converted,
        Ok(Converted::Queued) => LockReply::Asked,
        Err(why) => LockReply::Refused(why),
    }
}

fn convert_now(space: &mut Space, node: NodeId, res: Res, mode: Mode) -> LockReply
    requires { IsNodeRes node res }
    ensures { Takes (locks_of space.old) (LockLine.Up node res mode) (locks_of space.new) result }
{
    match space.convert_now(node, res.number(), mode) {
        Ok(()) => LockReply::Converted,
        Err(why) => LockReply::Refused(why),
    }
}

fn grant(space: &mut Space, res: Res) -> LockReply
    requires { IsResource res }
    ensures { Takes (locks_of space.old) (LockLine.Grant res) (locks_of space.new) result }
{
    match space.grant(res.number()) {
        Ok(granted) => LockReply::Granted {
            node: granted.node,
            mode: granted.mode,
        },
        Err(why) => LockReply::Refused(why),
    }
}

fn release(space: &mut Space, node: NodeId, res: Res) -> LockReply
    requires { IsNodeRes node res }
    ensures { Takes (locks_of space.old) (LockLine.Release node res) (locks_of space.new) result }
{
    match space.release(node, res.number(), None) {
        Ok(()) => LockReply::Released,
        Err(why) => LockReply::Refused(why),
    }
}

fn die(space: &mut Space, node: NodeId) -> LockReply
    requires { node < 16 }
    ensures { Takes (locks_of space.old) (LockLine.Die node) (locks_of space.new) result }
{
    space.die(node);
    LockReply::Died
}

fn calls(space: &mut Space, node: NodeId, res: Res) -> LockReply
    requires { IsNodeRes node res }
    ensures { Takes (locks_of space.old) (LockLine.Calls node res) (locks_of space.new) result }
{
    LockReply::Calls(space.calls(node, res.number()))
}

/// Takes one line, and replies to it.
pub fn reply(space: &mut Space, line: LockLine) -> LockReply
    requires { IsLockLine line }
    ensures { Takes (locks_of space.old) line (locks_of space.new) result }
{
    match line {
        LockLine::Ask { node, res, mode } => ask(space, node, res, mode),
        LockLine::Now { node, res, mode } => ask_now(space, node, res, mode),
        LockLine::Convert { node, res, mode } => convert(space, node, res, mode),
        LockLine::Up { node, res, mode } => convert_now(space, node, res, mode),
        LockLine::Grant(res) => grant(space, res),
        LockLine::Release { node, res } => release(space, node, res),
        LockLine::Die(node) => die(space, node),
        LockLine::Calls { node, res } => calls(space, node, res),
    }
}
