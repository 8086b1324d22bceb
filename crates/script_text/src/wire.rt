ghost use Rattle.std.specs.Prelude.{◌≡◌, ◌≤◌, ◌+◌, IfOk};
ghost use Rattle.std.specs.List.{AllByRecursion};
ghost use Rattle.std.specs.Option.{option_copied};
ghost use Rattle.script_text.specs.Lines.{words_after, script_limit};
ghost use Rattle.script_text.specs.Wire.{nodes_in, nodes_of, byte_res_mode, byte_res};
ghost use Rattle.script_text.specs.Wire.{wire_line_of, IsWireLine, ReadsNodes, ReadsWire};

use crate::arguments::{
    fits_mode, fits_res, mode_word, one_byte, one_number, one_res, res_word, two_bytes,
};
use crate::faults::at_line;
use crate::lines::{second, third, three, two};
use crate::numbers::byte_word;
use crate::reading::{ScriptLine, lines_at, next_line, read_places};
use crate::{FaultKind, ScriptEnd, ScriptFault};
use dlm_modes::Mode;
use mdc_types::{NodeId, Res};
use std::alloc::Global;
use std::marker::Model;

/// A line of a wire script, between its header and the line `end`. Nodes are any numbers of 8 bits,
/// and a bitmap is that of one of sixteen nodes.
#[derive(Clone, Copy, PartialEq, Eq, Debug)]
pub enum WireLine {
    /// `ask N RES MODE`: the node asks for the mode.
    Ask { node: NodeId, res: Res, mode: Mode },
    /// `convert N RES MODE`: it converts what it holds to the mode.
    Convert { node: NodeId, res: Res, mode: Mode },
    /// `release N RES`: it lets go of the resource.
    Release { node: NodeId, res: Res },
    /// `deliver FROM TO`: the second node takes the first packet on the link from the first node.
    Deliver { from: NodeId, to: NodeId },
    /// `serve RES`: the resource's master serves the head of its queues.
    Serve(Res),
    /// `die N`: the node dies.
    Die(NodeId),
    /// The query `holds N RES`: what the node holds.
    Holds { node: NodeId, res: Res },
}

/// A wire script that is in the grammar.
#[derive(Drop)]
pub struct WireScript {
    nodes: u8,
    lines: Vec<WireLine>,
}

impl Model for WireScript {
    ghost use Rattle.script_text.specs.Wire.{WireValue};

    ghost Value = { WireValue };

    ghost view = { λ s. record { nodes = s.nodes; lines = s.lines.items } };
}

impl WireScript {
    /// The number of nodes that the header says, 1 to 16.
    pub fn nodes(&self) -> u8
        ensures { result ≡ self.now.nodes }
    {
        self.nodes
    }

    /// The lines in order.
    pub fn lines(&self) -> &[WireLine]
        ensures { result.now ≡ self.now.lines }
    {
        self.lines.as_slice()
    }
}

fn nodes_in(nodes: u32) -> Result<u8, FaultKind>
    ensures { result ≡ nodes_in nodes }
{
    if !(1..=16).contains(&nodes) {
        return Err(FaultKind::Range);
    }
    Ok(nodes as u8)
}

// The number of nodes that the header of this first word and the words after it says.
fn nodes(word: &str, args: Option<&str>) -> Result<u8, FaultKind>
    ensures { result ≡ nodes_of word.now (words_after (option_copied args.entry)) }
{
    if word != "nodes" {
        return Err(FaultKind::NoArray);
    }
    nodes_in(one_number(args)?)
}

fn byte_res_mode(args: Option<&str>) -> Result<(NodeId, Res, Mode), FaultKind>
    ensures { result ≡ byte_res_mode (words_after (option_copied args.entry)) }
{
    if !(fits_res(second(args)) && fits_mode(third(args))) {
        return Err(FaultKind::Word);
    }
    let (node, res, mode) = three(args).ok_or(FaultKind::Count)?;
    Ok((byte_word(node)?, res_word(res)?, mode_word(mode)?))
}

fn byte_res(args: Option<&str>) -> Result<(NodeId, Res), FaultKind>
    ensures { result ≡ byte_res (words_after (option_copied args.entry)) }
{
    if !fits_res(second(args)) {
        return Err(FaultKind::Word);
    }
    let (node, res) = two(args).ok_or(FaultKind::Count)?;
    Ok((byte_word(node)?, res_word(res)?))
}

impl ScriptLine for WireLine {
    ghost says = { wire_line_of };

    fn of_words(word: &str, args: Option<&str>) -> Result<WireLine, FaultKind> {
        match word {
            "ask" => {
                let (node, res, mode) = byte_res_mode(args)?;
                Ok(WireLine::Ask { node, res, mode })
            }
            "convert" => {
                let (node, res, mode) = byte_res_mode(args)?;
                Ok(WireLine::Convert { node, res, mode })
            }
            "release" => {
                let (node, res) = byte_res(args)?;
                Ok(WireLine::Release { node, res })
            }
            "deliver" => {
                let (from, to) = two_bytes(args)?;
                Ok(WireLine::Deliver { from, to })
            }
            "serve" => Ok(WireLine::Serve(one_res(args)?)),
            "die" => Ok(WireLine::Die(one_byte(args)?)),
            "holds" => {
                let (node, res) = byte_res(args)?;
                Ok(WireLine::Holds { node, res })
            }
            _ => Err(FaultKind::Word),
        }
    }
}

// The number of nodes of the header, where the line after it begins, and that line's number.
fn read_nodes(bytes: &[u8]) -> Result<(u8, usize, u32), ScriptFault>
    ensures found { ReadsNodes bytes.now result }
    ensures few { IfOk result (λ x. (x.2 ≤ x.1 + 1) × (x.1 ≤ script_limit)) }
{
    let mut at = 0;
    let mut line = 1;
    while at < bytes.len() {
        let (said, next) = at_line(line, next_line(bytes, at))?;
        if let Some((word, args)) = said {
            let nodes = at_line(line, nodes(word, args))?;
            return Ok((nodes, next, line + 1));
        }
        at = next;
        line += 1;
    }
    Err(ScriptFault {
        line,
        kind: FaultKind::NoArray,
    })
}

/// Reads a wire script. What follows its line `end` isn't judged.
pub fn read_wire(alloc: Global, bytes: &[u8]) -> Result<WireScript, ScriptEnd>
    // It is this script, or the bytes have this fault, or memory is wanting.
    ensures reads { ReadsWire result bytes.now }

    // It is of 1 to 16 nodes.
    ensures some_node { IfOk result (λ s. 1 ≤ s.nodes) }
    ensures nodes { IfOk result (λ s. s.nodes ≤ 16) }

    // Its lines are of resources.
    ensures lines { IfOk result (λ s. AllByRecursion IsWireLine s.lines) }
{
    let (nodes, at, line) = read_nodes(bytes)?;
    let places = read_places::<WireLine>(alloc, bytes, at, line)?;
    match lines_at(alloc, bytes, &places) {
        Ok(lines) => Ok(WireScript { nodes, lines }),
        Err(_) => Err(ScriptEnd::Memory),
    }
}
