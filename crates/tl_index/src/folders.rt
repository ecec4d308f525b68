//! The folders of paths, by their names.
ghost use Rattle.std.specs.Prelude.{◌≡◌, ◌≤◌, ◌<◌, ◌+◌, ◌++◌, ◌∷◌, [], true, length, OnOk, take};
ghost use Rattle.tl_path.specs.Components.{components};
ghost use Rattle.tl_pattern.specs.Form.{last_of};
ghost use Rattle.tl_index.specs.Fronts.{begins};
ghost use Rattle.tl_index.specs.Folders.{key_of, has_folder, Knows, AreFolders, Keeps};

use crate::key::FolderKey;
use std::alloc::{AllocError, Global};
use std::collections::BTreeSet;
use std::marker::Model;

// The folders that were given, each behind its name.
#[derive(Drop)]
pub(crate) struct Folders {
    pub(crate) keys: BTreeSet<FolderKey>,
}

impl Model for Folders {
    ghost use Rattle.std.specs.Prelude.{List, ℕ};

    ghost Value = { List (List ℕ) };

    ghost view = { λ a. a.keys.keys };
}

// How many bytes two texts have in common at their fronts.
pub(crate) fn shared(a: &[u8], b: &[u8]) -> usize
    ensures { (result ≤ length a.now) × (result ≤ length b.now) × (take result a.now ≡ take result b.now) }
{
    let most = a.len().min(b.len());
    for at in 0..most {
        if a[at] != b[at] {
            return at;
        }
    }
    most
}

impl Folders {
    ghost use Rattle.std.specs.Prelude.{ℕ, List};

    pub(crate) fn new(alloc: Global) -> Folders
        ensures { result ≡ [] }
    {
        Folders {
            keys: BTreeSet::new(alloc),
        }
    }

    fn add(&mut self, alloc: Global, name: &[u8], folder: &[u8]) -> Result<(), AllocError>
        requires { name.now ≡ last_of (components folder.now) }
        ensures ok { OnOk result (has_folder self.new (key_of folder.now) ≡ true) }
        ensures keeps { Keeps self.old self.new }
    {
        let key = FolderKey::new(alloc, name, folder)?;
        self.keys.insert(key)?;
        Ok(())
    }

    // Adds the folders of a path whose '/' stands from a place on.
    pub(crate) fn add_all(
        &mut self,
        alloc: Global,
        path: &[u8],
        from: usize,
    ) -> Result<(), AllocError>
        ensures ok { OnOk result ((folder : List ℕ) → begins (folder ++ 47 ∷ []) path.now ≡ true → from ≤ length folder → has_folder self.new (key_of folder) ≡ true) }
        ensures keeps { Keeps self.old self.new }
    {
        let mut start = 0;
        for (at, byte) in path.iter().enumerate() {
            if *byte == b'/' {
                if at >= from {
                    self.add(alloc, &path[start..at], &path[..at])?;
                }
                start = at + 1;
            }
        }
        Ok(())
    }
}
