// A checked path that borrows its bytes.
ghost use Rattle.std.specs.Prelude.{◌≡◌, IfOk, MatchResult, None, Some};
ghost use Rattle.tl_path.specs.Path.{IsPath, path_fault, form_fault, size_fault};
ghost use Rattle.tl_path.specs.Components.{components};
ghost use Rattle.tl_path.specs.Reserved.{is_reserved};

use crate::below::is_reserved;
use crate::components::Components;
use crate::fault::{PathFault, PathKind, earlier_of, place_fault, size_fault};
use crate::path::Path;
use crate::word::text_of;
use std::alloc::{AllocError, Global};
use std::marker::Model;

/// A checked path that borrows its text, so that a host is called without memory.
#[derive(Drop)]
pub struct PathRef<'a> {
    text: &'a str,
}

impl<'a> Model for PathRef<'a> {
    ghost use Rattle.std.specs.Prelude.{List, ℕ};
    ghost use Rattle.tl_path.specs.Path.{IsPath};

    ghost Value = { List ℕ };

    ghost view = { λ a. a.text.now };

    ghost invariant = { λ a. IsPath a.text.now };
}

impl<'a> PathRef<'a> {
    ghost use Rattle.tl_path.specs.Inside.{components_left};

    /// Reads a path without memory. The error is the text's first fault.
    pub fn check(text: &'a [u8]) -> Result<PathRef<'a>, PathFault>
        ensures path { MatchResult result (λ path. (path ≡ text.now) × IsPath text.now)
            (λ fault. path_fault text.now ≡ Some fault) }
    {
        let text = path_text(text)?;
        Ok(PathRef { text })
    }

    /// A path that is known where it is written: the form of a literal is proved at the call.
    pub fn known(text: &'a str) -> PathRef<'a>
        requires { form_fault text.now ≡ None }
        ensures { result ≡ text.now }
    {
        PathRef { text }
    }

    /// A path of bytes that are known to be one. Takes no memory.
    pub fn of_bytes(bytes: &'a [u8]) -> PathRef<'a>
        requires { IsPath bytes.now }
        ensures { result ≡ bytes.now }
    {
        PathRef {
            text: text_of(bytes),
        }
    }

    pub(crate) fn of(text: &'a str) -> PathRef<'a>
        requires { IsPath text.now }
        ensures { result ≡ text.now }
    {
        PathRef { text }
    }

    /// The path's bytes.
    pub fn bytes(&self) -> &'a [u8]
        ensures bytes { result.now ≡ self.now }
        ensures path { IsPath self.now }
    {
        let text = self.text;
        text.as_bytes()
    }

    /// The path's text.
    pub fn text(&self) -> &'a str
        ensures text { result.now ≡ self.now }
        ensures path { IsPath self.now }
    {
        self.text
    }

    /// The same path once more.
    pub fn again(&self) -> PathRef<'a>
        ensures { result ≡ self.now }
    {
        PathRef { text: self.text }
    }

    /// An owned path of the same bytes.
    pub fn to_path(&self, alloc: Global) -> Result<Path, AllocError>
        ensures { IfOk result (λ path. path ≡ self.now) }
    {
        Path::of(alloc, self.text())
    }

    /// Whether the path touches one that the program keeps for itself, as its journal, backups and settings.
    pub fn is_reserved(&self) -> bool
        ensures { result ≡ is_reserved self.now }
    {
        is_reserved(self.bytes())
    }

    /// The path's components, from the first on.
    pub fn components(&self) -> Components<'a>
        ensures { components_left result ≡ components self.now }
    {
        Components::of(self.bytes())
    }
}

// The text of a path, or its first fault.
pub(crate) fn path_text(text: &[u8]) -> Result<&str, PathFault>
    ensures { MatchResult result (λ path. (path.now ≡ text.now) × IsPath text.now)
        (λ fault. path_fault text.now ≡ Some fault) }
{
    match size_fault(text) {
        Some(fault) => Err(fault),
        None => sized_text(text),
    }
}

fn sized_text(text: &[u8]) -> Result<&str, PathFault>
    requires { size_fault text.now ≡ None }
    ensures { MatchResult result (λ path. (path.now ≡ text.now) × IsPath text.now)
        (λ fault. path_fault text.now ≡ Some fault) }
{
    let form = place_fault(text);
    match std::str::from_utf8(text) {
        Ok(valid) => match form {
            Some(fault) => Err(fault),
            None => Ok(valid),
        },
        Err(error) => {
            let at = error.valid_up_to() as u32;
            Err(earlier_of(
                PathFault {
                    at,
                    kind: PathKind::Utf8,
                },
                form,
            ))
        }
    }
}
