ghost use Rattle.std.specs.Prelude.{◌≡◌, ◌<◌, ◌+◌, ◌∷◌, [], string_bytes, IfOk};
ghost use Rattle.image_files.specs.Names.{leg_name, leg_names, file_of};

use mdc_types::LegId;
use std::alloc::{AllocError, Global};
use std::marker::Model;

fn ending(l: LegId) -> &'static str
    requires { l < 8 }
    ensures { result.now ≡ 46 ∷ (48 + l) ∷ [] }
{
    match l {
        0 => ".0",
        1 => ".1",
        2 => ".2",
        3 => ".3",
        4 => ".4",
        5 => ".5",
        6 => ".6",
        _ => ".7",
    }
}

fn leg_name(alloc: Global, name: &str, l: LegId) -> Result<String, AllocError>
    requires { l < 8 }
    ensures { IfOk result (λ file. string_bytes file ≡ leg_name name.now l) }
{
    let mut file = String::from_str(alloc, name)?;
    file.push_str(ending(l))?;
    Ok(file)
}

/// The names of an array's files: `NAME.0` to `NAME.7`.
#[derive(Drop)]
pub struct FileNames {
    files: Vec<String>,
}

impl Model for FileNames {
    ghost use Rattle.std.specs.Prelude.{map, string_bytes, List, ℕ};

    ghost Value = { List (List ℕ) };

    ghost view = { λ n. map string_bytes n.files.items };
}

impl FileNames {
    /// The names of the files of the array of this name.
    pub fn new(alloc: Global, name: &str) -> Result<FileNames, AllocError>
        ensures { IfOk result (λ names. names ≡ leg_names name.now) }
    {
        let mut files = Vec::with_capacity(alloc, 8)?;
        for l in 0..8 {
            files.push(leg_name(alloc, name, l)?)?;
        }
        Ok(FileNames { files })
    }

    /// The name of leg `l`'s file, empty from leg 8 on.
    pub fn of(&self, l: LegId) -> &str
        ensures { result.now ≡ file_of self.now l }
    {
        match self.files.get(usize::from(l)) {
            Some(file) => file.as_str(),
            None => "",
        }
    }
}
