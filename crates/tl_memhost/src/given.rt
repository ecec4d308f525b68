// The files that a device in memory is made of.
ghost use Rattle.std.specs.Prelude.{◌≡◌, OnOk, IfOk, IfErr};
ghost use Rattle.tl_memhost.specs.Given.{given, AreApart, IsRefusal};

use crate::files::Files;
use std::alloc::Global;
use tl_file::FileBytes;
use tl_path::Path;

/// Why a device isn't made.
#[derive(Debug, Drop)]
pub enum MemError {
    /// This is the path of the first file whose path an earlier one has.
    Repeated {
        /// The path.
        path: Path,
    },
    /// There was no memory.
    NoMemory,
}

// The files by name.
pub(crate) fn files_of(alloc: Global, files: Vec<FileBytes>) -> Result<Files, MemError>
    ensures made { IfOk result (λ made. made ≡ given files.items) }
    ensures apart { OnOk result (AreApart files.items) }
    ensures refused { IfErr result (IsRefusal files.items) }
{
    let mut made = Files::new(alloc);
    for file in files {
        let FileBytes { path, bytes } = file;
        let name = match Vec::from_slice(alloc, path.bytes()) {
            Ok(name) => name,
            Err(_) => return Err(MemError::NoMemory),
        };
        match made.insert(name, bytes.into_vec()) {
            Ok(None) => (),
            Ok(Some(_)) => return Err(MemError::Repeated { path }),
            Err(_) => return Err(MemError::NoMemory),
        }
    }
    Ok(made)
}
