// Sets of numbers, and roles of legs.
ghost use Rattle.std.specs.Prelude.{◌≡◌, ◌<◌, ◌++◌, map, take, IfOk, OnOk, string_bytes};
ghost use Rattle.std.specs.List.{flat_map};
ghost use Rattle.mdc_types.specs.Bits.{has_bit};
ghost use Rattle.node_bitmaps.specs.Map.{bitmap_of, chunks_in};
ghost use Rattle.node_member.specs.Parts.{members_of};
ghost use Rattle.report_text.specs.Sets.{members, after_comma, numbers_text, role_letter, roles_text};

use mdc_types::{LegId, Role, Roles, has_leg};
use node_bitmaps::NodeMap;
use node_member::Record;
use std::alloc::{AllocError, Global};
use std::fmt::Write;

const LEGS: u8 = 8;

const NODES: u8 = 16;

/// The legs of a set, which has one bit for each.
pub fn legs_of(alloc: Global, set: u8) -> Result<Vec<u32>, AllocError>
    ensures { IfOk result (λ v. v.items ≡ members (has_bit set) 8) }
{
    let mut legs = Vec::new(alloc);
    for l in 0..LEGS {
        if has_leg(set, l) {
            legs.push(u32::from(l))?;
        }
    }
    Ok(legs)
}

/// The live nodes.
pub fn live_nodes(alloc: Global, r: &Record) -> Result<Vec<u32>, AllocError>
    ensures { IfOk result (λ v. v.items ≡ members (members_of r.now).live 16) }
{
    let mut nodes = Vec::new(alloc);
    for n in 0..NODES {
        if r.live(n) {
            nodes.push(u32::from(n))?;
        }
    }
    Ok(nodes)
}

/// The nodes whose slots are pending.
pub fn pending_nodes(alloc: Global, r: &Record) -> Result<Vec<u32>, AllocError>
    ensures { IfOk result (λ v. v.items ≡ members (members_of r.now).pending 16) }
{
    let mut nodes = Vec::new(alloc);
    for n in 0..NODES {
        if r.pending(n) {
            nodes.push(u32::from(n))?;
        }
    }
    Ok(nodes)
}

/// The chunks of a node's set.
pub fn set_chunks(alloc: Global, m: &NodeMap) -> Result<Vec<u32>, AllocError>
    ensures { IfOk result (λ v. v.items ≡ members (bitmap_of m.now).set (chunks_in m.now)) }
{
    let mut chunks = Vec::new(alloc);
    for c in 0..m.chunks() {
        if m.has(c) {
            chunks.push(c)?;
        }
    }
    Ok(chunks)
}

/// The chunks that a node is to copy.
pub fn needed_chunks(alloc: Global, m: &NodeMap) -> Result<Vec<u32>, AllocError>
    ensures { IfOk result (λ v. v.items ≡ members (bitmap_of m.now).need (chunks_in m.now)) }
{
    let mut chunks = Vec::new(alloc);
    for c in 0..m.chunks() {
        if m.needs(c) {
            chunks.push(c)?;
        }
    }
    Ok(chunks)
}

/// The chunks whose bits surely stand on the leg.
pub fn chunks_on_leg(alloc: Global, m: &NodeMap, l: LegId) -> Result<Vec<u32>, AllocError>
    requires { l < 8 }
    ensures { IfOk result (λ v. v.items ≡ members (λ c. (bitmap_of m.now).marks c l) (chunks_in m.now)) }
{
    let mut chunks = Vec::new(alloc);
    for c in 0..m.chunks() {
        if m.on_leg(c, l) {
            chunks.push(c)?;
        }
    }
    Ok(chunks)
}

/// Appends the numbers with commas between them, or a dash where there is none.
pub fn push_numbers(text: &mut String, numbers: &[u32]) -> Result<(), AllocError>
    ensures { OnOk result (string_bytes text.new ≡ string_bytes text.old ++ numbers_text numbers.now) }
{
    match numbers.split_first() {
        None => text.push_str("-"),
        Some((first, rest)) => {
            write!(text, "{first}")?;
            push_after(text, rest)
        }
    }
}

fn push_after(text: &mut String, numbers: &[u32]) -> Result<(), AllocError>
    ensures { OnOk result (string_bytes text.new ≡ string_bytes text.old ++ flat_map after_comma numbers.now) }
{
    for n in numbers {
        write!(text, ",{n}")?;
    }
    Ok(())
}

fn role_letter(role: Role) -> char
    ensures value { result ≡ role_letter role }
    ensures ascii { result < 128 }
{
    match role {
        Role::Working => 'W',
        Role::Rebuilding => 'R',
        Role::Faulty => 'F',
        Role::Spare => 'S',
    }
}

fn push_letters(text: &mut String, roles: &[Role]) -> Result<(), AllocError>
    ensures { OnOk result (string_bytes text.new ≡ string_bytes text.old ++ map role_letter roles.now) }
{
    for role in roles {
        text.push(role_letter(*role))?;
    }
    Ok(())
}

fn push_first(text: &mut String, roles: &[Role], count: usize) -> Result<(), AllocError>
    ensures { OnOk result (string_bytes text.new ≡ string_bytes text.old ++ map role_letter (take count roles.now)) }
{
    let shown = count.min(roles.len());
    push_letters(text, &roles[..shown])
}

/// Appends a letter for the role of each of the first legs, of which there are eight.
pub fn push_roles(text: &mut String, roles: &Roles, legs: u8) -> Result<(), AllocError>
    ensures { OnOk result (string_bytes text.new ≡ string_bytes text.old ++ roles_text roles.now legs) }
{
    push_first(text, &roles.legs, usize::from(legs))
}
