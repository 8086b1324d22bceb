ghost use Rattle.std.specs.Prelude.{◌≡◌, IfOk};
ghost use Rattle.std.specs.List.{AllByRecursion};
ghost use Rattle.std.specs.Option.{option_copied};
ghost use Rattle.script_text.specs.Lines.{words_after};
ghost use Rattle.script_text.specs.Locks.{node_word, node_res_mode, node_res, one_node, lock_line_of, IsLockLine, ReadsLocks};

use crate::arguments::{fits_mode, fits_res, mode_word, one_res, res_word};
use crate::lines::{one, second, third, three, two};
use crate::numbers::byte_word;
use crate::reading::{ScriptLine, lines_at, read_places};
use crate::{FaultKind, ScriptEnd};
use dlm_modes::Mode;
use mdc_types::{NodeId, Res};
use std::alloc::Global;
use std::marker::Model;

// Of a lock space.
const NODES: NodeId = 16;

/// A line of a lock script, before the line `end`. Nodes are below 16, and a bitmap is that of one.
#[derive(Clone, Copy, PartialEq, Eq, Debug)]
pub enum LockLine {
    /// `ask N RES MODE`: the node asks for the mode.
    Ask { node: NodeId, res: Res, mode: Mode },
    /// `now N RES MODE`: it takes the mode at once, with nobody asked.
    Now { node: NodeId, res: Res, mode: Mode },
    /// `convert N RES MODE`: it converts what it holds to the mode.
    Convert { node: NodeId, res: Res, mode: Mode },
    /// `up N RES MODE`: it converts what it holds to the mode at once.
    Up { node: NodeId, res: Res, mode: Mode },
    /// `grant RES`: the resource's first conversion, else its first request, is granted.
    Grant(Res),
    /// `release N RES`: the node lets go of the resource.
    Release { node: NodeId, res: Res },
    /// `die N`: the node dies.
    Die(NodeId),
    /// The query `calls N RES`: who waits there for what the node holds.
    Calls { node: NodeId, res: Res },
}

/// A lock script that is in the grammar.
#[derive(Drop)]
pub struct LockScript {
    lines: Vec<LockLine>,
}

impl Model for LockScript {
    ghost use Rattle.std.specs.Prelude.{List};
    ghost use Rattle.script_text.specs.declared.locks.LockLine.{LockLine};

    ghost Value = { List LockLine };

    ghost view = { λ s. s.lines.items };
}

impl LockScript {
    /// The lines in order.
    pub fn lines(&self) -> &[LockLine]
        ensures { result.now ≡ self.now }
    {
        self.lines.as_slice()
    }
}

fn node_word(word: &str) -> Result<NodeId, FaultKind>
    ensures { result ≡ node_word word.now }
{
    let node = byte_word(word)?;
    if node >= NODES {
        return Err(FaultKind::Range);
    }
    Ok(node)
}

fn node_res_mode(args: Option<&str>) -> Result<(NodeId, Res, Mode), FaultKind>
    ensures { result ≡ node_res_mode (words_after (option_copied args.entry)) }
{
    if !(fits_res(second(args)) && fits_mode(third(args))) {
        return Err(FaultKind::Word);
    }
    let (node, res, mode) = three(args).ok_or(FaultKind::Count)?;
    Ok((node_word(node)?, res_word(res)?, mode_word(mode)?))
}

fn node_res(args: Option<&str>) -> Result<(NodeId, Res), FaultKind>
    ensures { result ≡ node_res (words_after (option_copied args.entry)) }
{
    if !fits_res(second(args)) {
        return Err(FaultKind::Word);
    }
    let (node, res) = two(args).ok_or(FaultKind::Count)?;
    Ok((node_word(node)?, res_word(res)?))
}

fn one_node(args: Option<&str>) -> Result<NodeId, FaultKind>
    ensures { result ≡ one_node (words_after (option_copied args.entry)) }
{
    node_word(one(args).ok_or(FaultKind::Count)?)
}

impl ScriptLine for LockLine {
    ghost says = { lock_line_of };

    fn of_words(word: &str, args: Option<&str>) -> Result<LockLine, FaultKind> {
        match word {
            "ask" => {
                let (node, res, mode) = node_res_mode(args)?;
                Ok(LockLine::Ask { node, res, mode })
            }
            "now" => {
                let (node, res, mode) = node_res_mode(args)?;
                Ok(LockLine::Now { node, res, mode })
            }
            "convert" => {
                let (node, res, mode) = node_res_mode(args)?;
                Ok(LockLine::Convert { node, res, mode })
            }
            "up" => {
                let (node, res, mode) = node_res_mode(args)?;
                Ok(LockLine::Up { node, res, mode })
            }
            "grant" => Ok(LockLine::Grant(one_res(args)?)),
            "release" => {
                let (node, res) = node_res(args)?;
                Ok(LockLine::Release { node, res })
            }
            "die" => Ok(LockLine::Die(one_node(args)?)),
            "calls" => {
                let (node, res) = node_res(args)?;
                Ok(LockLine::Calls { node, res })
            }
            _ => Err(FaultKind::Word),
        }
    }
}

/// Reads a lock script. What follows its line `end` isn't judged.
pub fn read_locks(alloc: Global, bytes: &[u8]) -> Result<LockScript, ScriptEnd>
    // It is this script, or the bytes have this fault, or memory is wanting.
    ensures reads { ReadsLocks result bytes.now }

    // Its lines are of nodes below 16.
    ensures lines { IfOk result (λ lines. AllByRecursion IsLockLine lines) }
{
    let places = read_places::<LockLine>(alloc, bytes, 0, 1)?;
    match lines_at(alloc, bytes, &places) {
        Ok(lines) => Ok(LockScript { lines }),
        Err(_) => Err(ScriptEnd::Memory),
    }
}
