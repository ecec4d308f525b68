//! The formats to be made anew.
ghost use Rattle.std.specs.Prelude.{◌≡◌, ◌<◌, ◌^◌, [], length, IfOk, OnOk};
ghost use Rattle.std.specs.List.{flat_map, list_any};
ghost use Rattle.std.specs.HashSet.{contains_text};
ghost use Rattle.tl_execute.specs.Executes.{read_execute};
ghost use Rattle.tl_trigger.specs.Stale.{stale_in, stale_read, stale_among, stale_by, with_formats, stale, HasChanges};

use crate::formats::Formats;
use crate::known::changed_names;
use std::alloc::{AllocError, Global};
use std::collections::HashSet;
use tl_db::Db;
use tl_execute::{Execute, ExecuteError};
use tl_object::Object;
use tl_path::Name;
use tl_text::Text;

// Whether a name's entry has changed.
fn is_known(changed: &HashSet<String>, name: &str) -> bool
    ensures { result ≡ contains_text changed.now name.now }
{
    changed.contains(name)
}

// Whether one of some triggers is among the names whose entries have changed.
fn has_changed_trigger(changed: &HashSet<String>, triggers: &[Text]) -> bool
    ensures { result ≡ list_any (contains_text changed.now) triggers.now }
{
    for trigger in triggers {
        if is_known(changed, trigger.text()) {
            return true;
        }
    }
    false
}

// Adds the format of an execute, where it is to be made anew.
fn add_stale(
    alloc: Global,
    formats: &mut Formats,
    changed: &HashSet<String>,
    own: bool,
    execute: &Execute,
) -> Result<(), AllocError>
    ensures { OnOk result (formats.new ≡ with_formats formats.old (stale_in (contains_text changed.now) own execute.now)) }
{
    if let Execute::Format {
        name,
        disabled: false,
        triggers,
        ..
    } = execute
        && (own || has_changed_trigger(changed, triggers.as_slice()))
    {
        return formats.add(alloc, name);
    }
    Ok(())
}

// The same for the text of an execute; one that doesn't read says no format.
fn add_read(
    alloc: Global,
    formats: &mut Formats,
    changed: &HashSet<String>,
    own: bool,
    text: &[u8],
) -> Result<(), AllocError>
    requires { length text.now < 2 ^ 32 }
    ensures { OnOk result (formats.new ≡ with_formats formats.old (stale_read (contains_text changed.now) own (read_execute text.now))) }
{
    match Execute::parse(alloc, text) {
        Ok(execute) => add_stale(alloc, formats, changed, own, &execute),
        Err(ExecuteError::BadExecute { .. }) => Ok(()),
        Err(ExecuteError::NoMemory) => Err(AllocError),
    }
}

// The same for some executes of an entry, in order.
fn add_among(
    alloc: Global,
    formats: &mut Formats,
    changed: &HashSet<String>,
    own: bool,
    executes: &[Text],
) -> Result<(), AllocError>
    ensures { OnOk result (formats.new ≡ with_formats formats.old (stale_among (contains_text changed.now) own executes.now)) }
{
    for execute in executes {
        add_read(alloc, formats, changed, own, execute.bytes())?;
    }
    Ok(())
}

// The same for an entry.
fn add_entry(
    alloc: Global,
    formats: &mut Formats,
    changed: &HashSet<String>,
    entry: &Object,
) -> Result<(), AllocError>
    ensures { OnOk result (formats.new ≡ with_formats formats.old (stale_by (contains_text changed.now) entry.now)) }
{
    let own = is_known(changed, entry.name.text());
    add_among(alloc, formats, changed, own, entry.executes.as_slice())
}

// The formats of a database that are to be made anew where these names have changed.
fn stale_in_all(alloc: Global, changed: &HashSet<String>, db: &Db) -> Result<Formats, AllocError>
    ensures { IfOk result (λ formats. formats ≡ with_formats [] (flat_map (stale_by (contains_text changed.now)) db.now)) }
{
    let mut formats = Formats::new(alloc);
    for entry in db.entries() {
        add_entry(alloc, &mut formats, changed, entry)?;
    }
    Ok(formats)
}

/// The formats to be made anew where one database becomes another: those that an execute of the new one names, that aren't disabled and
/// whose own entry or that of one of their triggers isn't the same in both, absence included; in the order of the entries, each once. Each
/// name at which the two differ is among those that are given. It walks over the executes of all entries once.
pub fn stale(alloc: Global, old: &Db, new: &Db, changed: &[Name]) -> Result<Vec<Text>, AllocError>
    requires { HasChanges old.now new.now changed.now }
    ensures { IfOk result (λ formats. formats.items ≡ stale old.now new.now) }
{
    let names = changed_names(alloc, old, new, changed)?;
    let formats = stale_in_all(alloc, &names, new)?;
    Ok(formats.into_vec())
}
