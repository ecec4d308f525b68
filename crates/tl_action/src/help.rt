// How the program is called, from the table of actions and options.
ghost use Rattle.std.specs.Prelude.{◌≡◌, ◌++◌, string_bytes, false, IfOk, OnOk};
ghost use Rattle.std.specs.List.{flat_map};
ghost use Rattle.tl_action.specs.Table.{known_options};
ghost use Rattle.tl_action.specs.Usage.{option_usage, action_usage, usage_text};

use crate::action_name::ActionName;
use crate::table::{OPTIONS, OptionName};
use std::alloc::{AllocError, Global};

// An option in the line of an action.
fn push_option(text: &mut String, action: ActionName, option: OptionName) -> Result<(), AllocError>
    ensures { OnOk result (string_bytes text.new ≡ string_bytes text.old ++ option_usage action option) }
{
    if !action.is_own(option) {
        return Ok(());
    }
    if action.needs_local() {
        text.push_str(" -")?;
        return text.push_str(option.text());
    }
    text.push_str(" [-")?;
    text.push_str(option.text())?;
    text.push_str(option.value_text())?;
    text.push_str("]")
}

fn push_options(
    text: &mut String,
    action: ActionName,
    options: &[OptionName],
) -> Result<(), AllocError>
    ensures { OnOk result (string_bytes text.new ≡ string_bytes text.old ++ flat_map (option_usage action) options.now) }
{
    for option in options {
        push_option(text, action, *option)?;
    }
    Ok(())
}

// All options that are the action's own.
fn push_own_options(text: &mut String, action: ActionName) -> Result<(), AllocError>
    ensures { OnOk result (string_bytes text.new ≡ string_bytes text.old ++ flat_map (option_usage action) (known_options false)) }
{
    push_options(text, action, &OPTIONS)
}

// The lines of an action.
fn push_action(text: &mut String, action: ActionName) -> Result<(), AllocError>
    ensures { OnOk result (string_bytes text.new ≡ string_bytes text.old ++ action_usage action) }
{
    text.push_str("  ")?;
    text.push_str(action.text())?;
    push_own_options(text, action)?;
    text.push_str(action.operands_text())?;
    text.push_str("\n      ")?;
    text.push_str(action.effect_text())?;
    text.push_str("\n")
}

fn push_actions(text: &mut String, actions: &[ActionName]) -> Result<(), AllocError>
    ensures { OnOk result (string_bytes text.new ≡ string_bytes text.old ++ flat_map action_usage actions.now) }
{
    for action in actions {
        push_action(text, *action)?;
    }
    Ok(())
}

/// How the program is called, where some actions are on: each of them, with its operands, its options and a line of what it does, and
/// the options that go with every action.
pub fn usage(alloc: Global, on: &[ActionName]) -> Result<String, AllocError>
    ensures { IfOk result (λ text. string_bytes text ≡ usage_text on.now) }
{
    let mut text = String::from_str(
        alloc,
        "Usage: texlive ROOT ACTION [OPTION..] [OPERAND..]\n\nActions:\n",
    )?;
    push_actions(&mut text, on)?;
    text.push_str("\nOptions of every action:\n")?;
    text.push_str(
        "  -repository=[TAG=]DIR\n      A repository's folder; the tag is main where none is given.\n",
    )?;
    text.push_str("  -workers=N\n      How many workers, 1 to 64; 4 where it isn't given.\n")?;
    Ok(text)
}
