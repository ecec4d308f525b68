//! What needs a name.
ghost use Rattle.std.specs.Prelude.{true, find, ◌≡◌, ◌≢◌, ◌++◌, ◌∷◌, ℕ, List, MatchOption, option_copied};
ghost use Rattle.std.specs.List.{list_any};
ghost use Rattle.tl_model.specs.Volume.{same_name};
ghost use Rattle.tl_path.specs.Names.{is_name};
ghost use Rattle.tl_model.specs.Words.{fields};
ghost use Rattle.tl_entry.specs.FilePaths.{rising_of};
ghost use Rattle.tl_object.specs.Values.{stripped};
ghost use Rattle.tl_db.specs.Entries.{entry_of};
ghost use Rattle.tl_db.specs.Options.{installation, option_prefix, first_after, kept_value};
ghost use Rattle.tl_db.specs.declared.options.TreeOption.TheVariants.{Platforms};
ghost use Rattle.tl_depend.specs.Needed.{tree_platforms, is_meta, stands_for, needs_name, needed_by};

use crate::words::{are_platforms, has_word};
use indexmap::IndexSet;
use tl_db::Db;
use tl_object::Object;
use tl_path::{Category, Name};
use tl_text::Text;

const INSTALLATION: &[u8] = b"00texlive.installation";

const PLATFORMS: &[u8] = b"setting_available_architectures:";

// What a line says, where it keeps the platforms of a tree.
fn platforms_in(line: &Text) -> Option<&[u8]>
    ensures { option_copied result ≡ stripped (option_prefix Platforms) line.now }
{
    line.bytes().strip_prefix(PLATFORMS)
}

// What the first line that keeps platforms says.
fn first_platforms(lines: &[Text]) -> Option<&[u8]>
    ensures { option_copied result ≡ first_after (option_prefix Platforms) lines.now }
{
    for line in lines {
        if let Some(platforms) = platforms_in(line) {
            return Some(platforms);
        }
    }
    None
}

// The entry that keeps the options of a tree.
fn installation(db: &Db) -> Option<&Object>
    ensures { option_copied result ≡ entry_of installation db.now }
{
    for entry in db.entries() {
        if entry.name.bytes() == INSTALLATION {
            return Some(entry);
        }
    }
    None
}

// What a tree keeps as its platforms.
fn kept_platforms(db: &Db) -> Option<&[u8]>
    ensures { option_copied result ≡ kept_value Platforms db.now }
{
    match installation(db) {
        Some(entry) => first_platforms(entry.depends.as_slice()),
        None => None,
    }
}

// A text whose words are the platforms of a tree.
fn platforms_text(db: &Db) -> &[u8]
    ensures { tree_platforms db.now ≡ rising_of (fields result.now) }
{
    match kept_platforms(db) {
        Some(text) if are_platforms(text) => text,
        _ => &[],
    }
}

// What stands behind a front and a point in a name.
fn behind_point<'a>(name: &'a [u8], front: &[u8]) -> Option<&'a [u8]>
    ensures { MatchOption result ((platform : List ℕ) → front.now ++ 46 ∷ platform ≢ name.now)
        (λ platform. name.now ≡ front.now ++ 46 ∷ platform.now) }
{
    match name.strip_prefix(front) {
        Some(rest) => rest.strip_prefix(b"."),
        None => None,
    }
}

// Whether a name is a front and a point with one of some platforms behind them.
fn is_on_platform(name: &[u8], front: &[u8], platforms: &[u8]) -> bool
    ensures { result ≡ list_any (λ platform. same_name (front.now ++ 46 ∷ platform) name.now) (fields platforms.now) }
{
    match behind_point(name, front) {
        Some(platform) => has_word(platforms, platform),
        None => false,
    }
}

// Whether a depend stands for a name on some platforms.
fn stands_for(depend: &[u8], name: &[u8], platforms: &[u8]) -> bool
    requires { is_name name.now ≡ true }
    ensures { result ≡ stands_for (fields platforms.now) name.now depend.now }
{
    match depend.strip_suffix(b".ARCH") {
        Some(front) => is_on_platform(name, front, platforms),
        None => depend == name,
    }
}

fn has_depend_for(depends: &[Text], name: &[u8], platforms: &[u8]) -> bool
    requires { is_name name.now ≡ true }
    ensures { result ≡ list_any (stands_for (fields platforms.now) name.now) depends.now }
{
    depends
        .iter()
        .any(|depend| stands_for(depend.bytes(), name, platforms))
}

/// Whether a category is that of a collection or a scheme. Takes no memory.
pub fn is_meta(category: Category) -> bool
    ensures { result ≡ is_meta category }
{
    matches!(category, Category::Collection | Category::Scheme)
}

fn needs_name(entry: &Object, name: &[u8], leaving: &IndexSet<Name>, platforms: &[u8]) -> bool
    requires { is_name name.now ≡ true }
    ensures { result ≡ needs_name (fields platforms.now) name.now leaving.now.keys entry.now }
{
    is_meta(entry.category)
        && !leaving.contains(&entry.name)
        && has_depend_for(entry.depends.as_slice(), name, platforms)
}

// The first entry that needs a name on some platforms.
fn needing<'d>(
    db: &'d Db,
    name: &[u8],
    leaving: &IndexSet<Name>,
    platforms: &[u8],
) -> Option<&'d Object>
    requires { is_name name.now ≡ true }
    ensures { option_copied result ≡ find (needs_name (fields platforms.now) name.now leaving.now.keys) db.now }
{
    for entry in db.entries() {
        if needs_name(entry, name, leaving, platforms) {
            return Some(entry);
        }
    }
    None
}

/// The least name of a collection or a scheme that isn't among those that leave and has a depend that stands for a name, on the platforms
/// of the tree's option; `None` exactly where there is none. It walks over all entries. Takes no memory.
pub fn needed_by<'d>(db: &'d Db, name: &Name, leaving: &IndexSet<Name>) -> Option<&'d Name>
    ensures { option_copied result ≡ needed_by db.now name.now leaving.now.keys }
{
    match needing(db, name.bytes(), leaving, platforms_text(db)) {
        Some(entry) => Some(&entry.name),
        None => None,
    }
}
