// Lines of a report: a name, and fields after it.
ghost use Rattle.std.specs.Prelude.{◌≡◌, ◌++◌, map, IfOk, OnOk, string_bytes};
ghost use Rattle.report_text.specs.Fields.{field_text, line_text};
ghost use Rattle.report_text.specs.Lines.{spaced, line};
ghost use Rattle.report_text.specs.Words.{res_word, three_digits};

use crate::sets::{push_numbers, push_roles};
use crate::value::push_value;
use mdc_types::{NodeId, Res, Roles, Sector};
use std::alloc::{AllocError, Global};
use std::fmt::Write;

/// A field of a line.
#[derive(Clone, Copy)]
pub enum Field<'a> {
    Number(u64),
    Word(&'static str),
    Lock(Res),
    /// Printed in hexadecimal.
    Value(&'a Sector),
    /// Printed with commas between them.
    Numbers(&'a [u32]),
    /// The roles of the first so many legs, printed with one letter each.
    RoleLetters(&'a Roles, u8),
}

/// A line: its name, and the fields after it.
#[derive(Clone, Copy)]
pub enum Line<'a> {
    Name(&'static str),
    One(&'static str, Field<'a>),
    Two(&'static str, Field<'a>, Field<'a>),
    Three(&'static str, Field<'a>, Field<'a>, Field<'a>),
    Four(&'static str, Field<'a>, Field<'a>, Field<'a>, Field<'a>),
}

impl Line<'_> {
    /// The line's text, without a line feed.
    pub fn text(&self, alloc: Global) -> Result<String, AllocError>
        ensures { IfOk result (λ t. string_bytes t ≡ line_text self.now) }
    {
        match self {
            Line::Name(name) => String::from_str(alloc, name),
            Line::One(name, a) => join(alloc, name, &[*a]),
            Line::Two(name, a, b) => join(alloc, name, &[*a, *b]),
            Line::Three(name, a, b, c) => join(alloc, name, &[*a, *b, *c]),
            Line::Four(name, a, b, c, d) => join(alloc, name, &[*a, *b, *c, *d]),
        }
    }
}

/// The text of a line of this name and these fields, without a line feed.
pub fn join(alloc: Global, name: &str, fields: &[Field]) -> Result<String, AllocError>
    ensures { IfOk result (λ t. string_bytes t ≡ line name.now (map field_text fields.now)) }
{
    let mut text = String::from_str(alloc, name)?;
    for field in fields {
        text.push_str(" ")?;
        push_field(&mut text, field)?;
    }
    Ok(text)
}

fn push_field(text: &mut String, field: &Field) -> Result<(), AllocError>
    ensures { OnOk result (string_bytes text.new ≡ string_bytes text.old ++ field_text field.now) }
{
    match field {
        Field::Number(n) => write!(text, "{n}"),
        Field::Word(word) => text.push_str(word),
        Field::Lock(res) => push_res(text, *res),
        Field::Value(sector) => push_value(text, &sector.bytes),
        Field::Numbers(numbers) => push_numbers(text, numbers),
        Field::RoleLetters(roles, legs) => push_roles(text, roles, *legs),
    }
}

fn push_res(text: &mut String, res: Res) -> Result<(), AllocError>
    ensures { OnOk result (string_bytes text.new ≡ string_bytes text.old ++ res_word res) }
{
    match res {
        Res::Bitmap(n) => {
            text.push_str("bitmap")?;
            push_node(text, n)
        }
        Res::Token => text.push_str("token"),
        Res::Message => text.push_str("message"),
        Res::Ack => text.push_str("ack"),
        Res::NoNewDev => text.push_str("no-new-dev"),
        Res::Resync => text.push_str("resync"),
    }
}

fn push_node(text: &mut String, n: NodeId) -> Result<(), AllocError>
    ensures { OnOk result (string_bytes text.new ≡ string_bytes text.old ++ three_digits n) }
{
    text.push(char::from(b'0' + n / 100))?;
    text.push(char::from(b'0' + n / 10 % 10))?;
    text.push(char::from(b'0' + n % 10))
}
