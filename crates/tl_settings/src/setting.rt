//! `option`: the options of a tree, shown and set.
ghost use Rattle.std.specs.Prelude.{◌≡◌, ◌++◌, [], ◌∷◌, Ok, None, Some, IfOk, OnOk, String, string_bytes};
ghost use Rattle.std.specs.List.{join_with_byte};
ghost use Rattle.tl_model.specs.Acks.{IsLabel, IsPlain};
ghost use Rattle.tl_path.specs.Names.{is_name};
ghost use Rattle.tl_db.specs.Options.{option_name, option_named, entry_with};
ghost use Rattle.tl_action.specs.Texts.{texts};
ghost use Rattle.tl_tree.specs.Planted.{database_text};
ghost use Rattle.tl_tree.specs.declared.change.Part.TheVariants.{Entry};
ghost use Rattle.tl_command.specs.Endings.{no_devices};
ghost use Rattle.tl_command.specs.Performs.{Performs};
ghost use Rattle.tl_command.specs.Runs.{over_database, finished, saying, stepping};
ghost use Rattle.tl_settings.specs.Settings.{option_label, option_line, option_lines, option_run, set_run, show_run};

use std::alloc::{AllocError, Global};
use tl_command::{Acted, Refusal, Session, finish, give_up, load, refuse, say, step};
use tl_db::{Db, OptionError, TreeOption};
use tl_file::Bytes;
use tl_host::Host;
use tl_object::Object;
use tl_path::Name;
use tl_tree::{Change, Part, PartList, Tree};

// A value that is longer never comes: the words of a command are shorter together.
const MOST_BYTES: usize = 4_294_967_295;

// A value's words, joined by one space.
fn joined(alloc: Global, first: &[u8], others: &[Vec<u8>]) -> Result<Vec<u8>, AllocError>
    ensures { IfOk result (λ value. value.items ≡ join_with_byte 32 (first.now ∷ texts others.now)) }
{
    let mut value = Vec::from_slice(alloc, first)?;
    for word in others {
        value.push(b' ')?;
        value.extend_from_slice(word)?;
    }
    Ok(value)
}

// Adds the line of an option with this value.
fn push_line(lines: &mut Vec<u8>, option: TreeOption, value: &[u8]) -> Result<(), AllocError>
    ensures { OnOk result (lines.new.items ≡ lines.old.items ++ option_name option ++ 32 ∷ value.now ++ 10 ∷ []) }
{
    lines.extend_from_slice(option.name().as_bytes())?;
    lines.push(b' ')?;
    lines.extend_from_slice(value)?;
    lines.push(b'\n')?;
    Ok(())
}

// The line of one option.
fn line_for(alloc: Global, option: TreeOption, db: &Db) -> Result<Vec<u8>, OptionError>
    ensures line { IfOk result (λ line. line.items ≡ option_line option db.now) }
    ensures plain { IfOk result (λ line. IsPlain line.items) }
{
    let value = db.option(alloc, option.name().as_bytes())?;
    let mut line = Vec::new(alloc);
    push_line(&mut line, option, &value)?;
    Ok(line)
}

// The lines of all options, in the order of their names.
fn lines_of(alloc: Global, db: &Db) -> Result<Vec<u8>, OptionError>
    ensures lines { IfOk result (λ lines. lines.items ≡ option_lines db.now) }
    ensures plain { IfOk result (λ lines. IsPlain lines.items) }
{
    let mut lines = line_for(alloc, TreeOption::Autobackup, db)?;
    let more = line_for(alloc, TreeOption::Platforms, db)?;
    match lines.extend_from_slice(&more) {
        Ok(()) => Ok(lines),
        Err(error) => Err(AllocError::from(error).into()),
    }
}

// The line that acknowledges an option's setting.
fn label_of(alloc: Global, option: &Name) -> Result<Vec<u8>, AllocError>
    ensures { IfOk result (λ label. label.items ≡ option_label option.now) }
{
    let option = option.text();
    Ok(format!(in alloc; "step 1/1 option {option} done\n")?.into_bytes())
}

// The change that puts the entry which keeps the options.
fn change_of(alloc: Global, option: &Name, entry: Object) -> Result<Change, AllocError>
    ensures parts { IfOk result (λ change. change.parts ≡ Entry entry ∷ []) }
    ensures label { IfOk result (λ change. change.label ≡ option_label option.now) }
{
    let label = Bytes::new(label_of(alloc, option)?);
    let mut parts = Vec::new(alloc);
    parts.push(Part::Entry { entry })?;
    Ok(Change {
        parts: PartList::new(parts),
        label,
    })
}

// Makes the step that puts the entry which keeps the options.
fn put_entry<H: Host>(alloc: Global, option: &Name, entry: Object, tree: Tree<H>) -> Acted<H>
    requires { IsLabel (option_label option.now) }
    ensures { Performs H.tells H.seen (λ t. stepping tree.db (Entry entry ∷ []) (option_label option.now) finished t)
        0 tree.seen no_devices no_devices result.ending result.state }
{
    let Ok(change) = change_of(alloc, option, entry) else {
        return give_up(Session::of_tree(tree));
    };
    match step(alloc, &change, tree) {
        Ok(tree) => finish(Session::of_tree(tree)),
        Err(acted) => acted,
    }
}

// Sets an option to a value.
fn set<H: Host>(alloc: Global, option: Name, value: &[u8], tree: Tree<H>) -> Acted<H>
    ensures { Performs H.tells H.seen (λ t. set_run option (entry_with option value.now tree.db) t tree.db)
        0 tree.seen no_devices no_devices result.ending result.state }
{
    if value.len() > MOST_BYTES {
        return give_up(Session::of_tree(tree));
    }
    match tree.db().option_entry(alloc, option.bytes(), value) {
        Ok(entry) => put_entry(alloc, &option, entry, tree),
        Err(OptionError::UnknownOption) => {
            let refusal = Refusal::UnknownOption { name: option };
            refuse(alloc, refusal, Session::of_tree(tree))
        }
        Err(OptionError::BadValue) => {
            let refusal = Refusal::BadValue { option };
            refuse(alloc, refusal, Session::of_tree(tree))
        }
        Err(OptionError::NoMemory) => give_up(Session::of_tree(tree)),
    }
}

// Says one option.
fn show<H: Host>(alloc: Global, option: Name, tree: Tree<H>) -> Acted<H>
    ensures { Performs H.tells H.seen (λ _. show_run option (option_named option) tree.db)
        0 tree.seen no_devices no_devices result.ending result.state }
{
    let Some(named) = TreeOption::named(option.bytes()) else {
        let refusal = Refusal::UnknownOption { name: option };
        return refuse(alloc, refusal, Session::of_tree(tree));
    };
    match line_for(alloc, named, tree.db()) {
        Ok(line) => say(&line, Session::of_tree(tree)),
        Err(_) => give_up(Session::of_tree(tree)),
    }
}

// Says all options.
fn show_all<H: Host>(alloc: Global, tree: Tree<H>) -> Acted<H>
    ensures { Performs H.tells H.seen (λ _. saying (option_lines tree.db))
        0 tree.seen no_devices no_devices result.ending result.state }
{
    match lines_of(alloc, tree.db()) {
        Ok(lines) => say(&lines, Session::of_tree(tree)),
        Err(_) => give_up(Session::of_tree(tree)),
    }
}

// Says all options, or one, or sets one to the values joined by one space.
fn set_or_show<H: Host>(
    alloc: Global,
    option: Option<Name>,
    values: &[Vec<u8>],
    tree: Tree<H>,
) -> Acted<H>
    ensures { Performs H.tells H.seen (λ t. option_run option (texts values.now) t tree.db)
        0 tree.seen no_devices no_devices result.ending result.state }
{
    let Some(option) = option else {
        return show_all(alloc, tree);
    };
    let Some((first, others)) = values.split_first() else {
        return show(alloc, option, tree);
    };
    match joined(alloc, first, others) {
        Ok(value) => set(alloc, option, &value, tree),
        Err(_) => give_up(Session::of_tree(tree)),
    }
}

/// Carries `option` out: says all options, or one, or sets one to the values joined by one space, in one step.
///
/// `UnknownOption` where no option has this name, else `BadValue` where the value isn't in the option's form, else `TooLarge`
/// where the database that the step would leave passes a limit.
pub fn option<H: Host>(
    alloc: Global,
    option: Option<Name>,
    values: &[Vec<u8>],
    session: Session<H>,
) -> Acted<H>
    ensures { Performs H.tells H.seen (λ tree. over_database (option_run option (texts values.now) tree) (database_text tree))
        0 session no_devices no_devices result.ending result.state }
{
    match load(alloc, session) {
        Ok(tree) => set_or_show(alloc, option, values, tree),
        Err(acted) => acted,
    }
}
