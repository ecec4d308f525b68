//! The entries of one source of a master, as text.
ghost use Rattle.std.specs.Prelude.{◌≡◌, ◌++◌, IfOk, IfErr, OnOk};
ghost use Rattle.std.specs.Option.{option_copied};
ghost use Rattle.tl_model.specs.Acks.{IsPlain};
ghost use Rattle.tl_auto.specs.Pushing as judges;
ghost use Rattle.tl_db.specs.Text.{db_text, entry_text};
ghost use Rattle.tl_master.specs.Answers.{Judges};
ghost use Rattle.tl_master.specs.Masters.{entries_of, expanded, source_named, text_of};

use crate::error::MasterError;
use crate::master::{MarkedSource, Master};
use crate::sources::pattern_fault;
use std::alloc::{AllocError, Global};
use tl_auto::AutoError;
use tl_expand::{Stamp, expand};
use tl_object::{Object, append_object};
use tl_path::Name;
use tl_pattern::Regexps;

// Adds the text of an entry, and the empty line behind it.
fn append_entry(text: &mut Vec<u8>, object: &Object) -> Result<(), AllocError>
    ensures written { OnOk result (text.new.items ≡ text.old.items ++ entry_text object.now) }
    ensures plain { OnOk result (IsPlain text.old.items → IsPlain text.new.items) }
{
    append_object(text, object)?;
    text.push(b'\n')?;
    Ok(())
}

// The text of some entries.
fn text_of(alloc: Global, objects: &[Object]) -> Result<Vec<u8>, AllocError>
    ensures text { IfOk result (λ text. text.items ≡ db_text objects.now) }
    ensures plain { IfOk result (λ text. IsPlain text.items) }
{
    let mut text = Vec::new(alloc);
    for object in objects {
        append_entry(&mut text, object)?;
    }
    Ok(text)
}

// The source of a package.
fn source_named<'m>(name: &Name, sources: &'m [MarkedSource]) -> Option<&'m MarkedSource>
    ensures { option_copied result ≡ source_named name.now sources.now }
{
    sources
        .iter()
        .find(|marked| marked.source.fields().name == *name)
}

impl Master {
    // The entries of a source.
    fn entries_of(
        &self,
        alloc: Global,
        marked: &MarkedSource,
        regexps: &mut Regexps,
    ) -> Result<Vec<Object>, AutoError>
        ensures { judges.Judges (λ objects. objects.items) (λ verdicts. entries_of verdicts self.now marked.now)
            regexps.old regexps.new result }
    {
        let stamp = Stamp {
            source: marked.mark,
            platforms: self.platforms_mark,
        };
        expand(
            alloc,
            &marked.source,
            stamp,
            &self.index,
            &self.platforms,
            regexps,
        )
    }

    /// The text of the entries of a package's source: the package's own, then its parts in the order of the platforms, each followed by one
    /// empty line. No line of it is one that acknowledges a step. `NoSource` exactly where there is no such source.
    pub fn expand(
        &self,
        alloc: Global,
        name: &Name,
        regexps: &mut Regexps,
    ) -> Result<Vec<u8>, MasterError>
        ensures text { Judges (λ text. text.items) (λ verdicts. expanded verdicts name.now self.now) regexps.old regexps.new result }
        ensures plain { IfOk result (λ text. IsPlain text.items) }
    {
        let Some(marked) = source_named(name, &self.sources) else {
            return Err(MasterError::NoSource);
        };
        let objects = match self.entries_of(alloc, marked, regexps) {
            Ok(objects) => objects,
            Err(fault) => return Err(pattern_fault(name.clone()?, fault)),
        };
        let text = text_of(alloc, &objects)?;
        Ok(text)
    }
}
