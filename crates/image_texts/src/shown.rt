// What is shown of the images of an array.
ghost use Rattle.std.specs.Prelude.{◌≡◌, ◌<◌, ◌++◌, All, IfOk, OnOk, string_bytes};
ghost use Rattle.image_texts.specs.Lines.{printed};
ghost use Rattle.image_texts.specs.Shown.{leg_line, slot_line, slot_lines, leg_text, show_text, HasSlots};

use crate::sets::{push_chunks, push_roles, push_sum};
use image_faults::LegImage;
use md_superblock::Super;
use mdc_types::{ChunkSet, NodeId};
use std::alloc::{AllocError, Global};
use std::fmt::Write;

// Appends what the superblock of leg `l` says, and its checksum.
fn push_leg_line(
    text: &mut String,
    l: usize,
    superblock: &Super,
    sum: u32,
) -> Result<(), AllocError>
    ensures { OnOk result
        (string_bytes text.new ≡ string_bytes text.old ++ printed (leg_line l superblock.now sum)) }
{
    write!(text, "leg {l} events {} roles ", superblock.events)?;
    push_roles(text, &superblock.roles, superblock.geometry_legs)?;
    text.push_str(" sum ")?;
    push_sum(text, sum)?;
    text.push_str("\n")
}

// Appends the chunks that slot `k` of leg `l` marks.
fn push_slot_line(
    alloc: Global,
    text: &mut String,
    l: usize,
    k: NodeId,
    set: &ChunkSet,
) -> Result<(), AllocError>
    ensures { OnOk result
        (string_bytes text.new ≡ string_bytes text.old ++ printed (slot_line l k set.now)) }
{
    write!(text, "slot {l} {k} set ")?;
    push_chunks(alloc, text, set)?;
    text.push_str("\n")
}

// Appends a line for each slot of leg `l`.
#[tactic(auto, using(crate::proofs::TextLaws::one_line_more))]
fn push_slot_lines(
    alloc: Global,
    text: &mut String,
    l: usize,
    image: &LegImage,
) -> Result<(), AllocError>
    requires { HasSlots image.now }
    ensures { OnOk result (string_bytes text.new ≡ string_bytes text.old ++ slot_lines l image.now) }
{
    for k in 0..image.geometry.nodes() {
        push_slot_line(alloc, text, l, k, &image.slots[usize::from(k)])?;
    }
    Ok(())
}

fn push_leg(alloc: Global, text: &mut String, l: usize, image: &LegImage) -> Result<(), AllocError>
    requires { HasSlots image.now }
    ensures { OnOk result (string_bytes text.new ≡ string_bytes text.old ++ leg_text l image.now) }
{
    push_leg_line(text, l, &image.superblock, image.sum)?;
    push_slot_lines(alloc, text, l, image)
}

/// What is shown of the images of an array, from leg 0 on: for each a line with its events number, the
/// roles of the legs and its checksum, and a line for each slot, with the chunks that it marks. Each
/// line has its line feed.
#[tactic(auto, using(crate::proofs::TextLaws::one_leg_more))]
pub fn show_text(alloc: Global, images: &[LegImage]) -> Result<String, AllocError>
    requires { All HasSlots images.now }
    ensures { IfOk result (λ t. string_bytes t ≡ show_text images.now) }
{
    let mut text = String::new(alloc);
    for (l, image) in images.iter().enumerate() {
        push_leg(alloc, &mut text, l, image)?;
    }
    Ok(text)
}
