// The words of what is wrong with an image.
ghost use Rattle.std.specs.Prelude.{◌≡◌, ◌++◌, OnOk, string_bytes};
ghost use Rattle.image_texts.specs.Faults.{super_words, fault_words};

use image_faults::ImageFault;
use md_superblock::SuperFault;
use std::alloc::AllocError;
use std::fmt::Write;

fn push_super(text: &mut String, fault: &SuperFault) -> Result<(), AllocError>
    ensures { OnOk result (string_bytes text.new ≡ string_bytes text.old ++ super_words fault.now) }
{
    match fault {
        SuperFault::Magic(found) => write!(text, "magic {found}"),
        SuperFault::Version(found) => write!(text, "version {found}"),
        SuperFault::Sum { stored, found } => write!(text, "sum {stored} {found}"),
        SuperFault::Level(found) => write!(text, "level {found}"),
        SuperFault::Range(field) => write!(text, "range {}", field.word()),
        SuperFault::Role(i) => write!(text, "role {i}"),
    }
}

/// Appends the words of the fault.
pub fn push_fault(text: &mut String, fault: &ImageFault) -> Result<(), AllocError>
    ensures { OnOk result (string_bytes text.new ≡ string_bytes text.old ++ fault_words fault.now) }
{
    match fault {
        ImageFault::Missing => text.push_str("missing"),
        ImageFault::Short => text.push_str("short"),
        ImageFault::Long => text.push_str("long"),
        ImageFault::Super(fault) => push_super(text, fault),
        ImageFault::Slot(k) => write!(text, "slot {k}"),
        ImageFault::Geometry => text.push_str("geometry"),
        ImageFault::Unmarked(s) => write!(text, "unmarked {s}"),
        ImageFault::Upgraded => text.push_str("upgraded"),
    }
}
