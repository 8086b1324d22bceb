ghost use Rattle.std.specs.Prelude.{◌≡◌, ◌<◌, ◌≤◌, ◌++◌, IfOk, OnOk, string_bytes};
ghost use Rattle.image_texts.specs.Lines.{leg_file, printed, created_text, upgraded_text, image_text, shelf_text};

use crate::faults::push_fault;
use image_faults::ImageFault;
use mdc_types::LegId;
use std::alloc::{AllocError, Global};
use std::fmt::Write;

// Appends a word, the name of leg `l`'s file, and the line feed.
fn push_file(text: &mut String, word: &str, name: &str, l: LegId) -> Result<(), AllocError>
    requires { l < 8 }
    ensures { OnOk result
        (string_bytes text.new ≡ string_bytes text.old ++ printed (word.now ++ leg_file name.now l)) }
{
    text.push_str(word)?;
    text.push_str(name)?;
    text.push_str(".")?;
    text.push(char::from(b'0' + l))?;
    text.push_str("\n")
}

/// The lines `created NAME.L` of so many legs, each with its line feed.
#[tactic(auto, using(crate::proofs::TextLaws::one_line_more))]
pub fn created_text(alloc: Global, name: &str, legs: u8) -> Result<String, AllocError>
    requires { legs ≤ 8 }
    ensures { IfOk result (λ t. string_bytes t ≡ created_text name.now legs) }
{
    let mut text = String::new(alloc);
    for l in 0..legs {
        push_file(&mut text, "created ", name, l)?;
    }
    Ok(text)
}

/// The lines `upgraded NAME.L` of so many legs, each with its line feed.
#[tactic(auto, using(crate::proofs::TextLaws::one_line_more))]
pub fn upgraded_text(alloc: Global, name: &str, legs: u8) -> Result<String, AllocError>
    requires { legs ≤ 8 }
    ensures { IfOk result (λ t. string_bytes t ≡ upgraded_text name.now legs) }
{
    let mut text = String::new(alloc);
    for l in 0..legs {
        push_file(&mut text, "upgraded ", name, l)?;
    }
    Ok(text)
}

/// The line `image L FAULT`, with its line feed.
pub fn image_text(alloc: Global, l: LegId, fault: &ImageFault) -> Result<String, AllocError>
    ensures { IfOk result (λ t. string_bytes t ≡ image_text l fault.now) }
{
    let mut text = String::new(alloc);
    write!(text, "image {l} ")?;
    push_fault(&mut text, fault)?;
    text.push_str("\n")?;
    Ok(text)
}

/// The line `shelf NAME.L`, with its line feed.
pub fn shelf_text(alloc: Global, name: &str, l: LegId) -> Result<String, AllocError>
    requires { l < 8 }
    ensures { IfOk result (λ t. string_bytes t ≡ shelf_text name.now l) }
{
    let mut text = String::new(alloc);
    push_file(&mut text, "shelf ", name, l)?;
    Ok(text)
}
