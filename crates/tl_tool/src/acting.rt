//! Which action carries a command out.
ghost use Rattle.std.specs.Prelude.{◌≡◌, true, false};
ghost use Rattle.tl_action.specs.Actions.{IsOn};
ghost use Rattle.tl_tool.specs.Acts.{Acts, ActsAlone, ActsMatching, ActsOver};
ghost use Rattle.tl_tool.specs.Commands.{built_actions, install_ask, reads_patterns, reads_repositories, update_ask};

use crate::actions::{
    backup, candidates, check, dump_tlpdb, expand, info, install, lsr, option, pinning, remove,
    restore, search, update, which,
};
use std::alloc::Global;
use tl_bring::InstallAsk;
use tl_command::{Acted, Session};
use tl_host::{Host, Shelf};
use tl_regexp::Regexps;
use tl_renew::UpdateAsk;
use tl_words::{Action, Command, Repository};

fn reads_repositories(action: &Action) -> bool
    ensures { result ≡ reads_repositories action.now }
{
    match action {
        Action::Info { .. }
        | Action::Search { .. }
        | Action::Candidates { .. }
        | Action::Install { .. }
        | Action::Update { .. }
        | Action::Mirror
        | Action::Shell => true,
        _ => false,
    }
}

fn reads_patterns(action: &Action) -> bool
    ensures { result ≡ reads_patterns action.now }
{
    matches!(
        action,
        Action::Expand { .. } | Action::Edit | Action::Build | Action::Shell
    )
}

// Carries an action out that reads neither repositories nor the input, and compiles no patterns.
fn act_alone<H: Host>(alloc: Global, action: Action, formats: bool, session: Session<H>) -> Acted<H>
    requires on { IsOn built_actions action }
    requires alone { reads_repositories action ≡ false }
    requires plain { reads_patterns action ≡ false }
    ensures { ActsAlone H.tells H.seen action formats session result.ending result.state }
{
    match action {
        Action::DumpTlpdb { local: _ } => dump_tlpdb(alloc, session),
        Action::Check { what } => check(alloc, what, session),
        Action::Remove { names, force } => remove(alloc, names.as_slice(), force, formats, session),
        Action::Backup { names, all } => backup(alloc, names.as_slice(), all, session),
        Action::Restore { name, revision } => restore(alloc, name, revision, session),
        Action::Setting {
            option: name,
            values,
        } => option(alloc, name, values.as_slice(), session),
        Action::Pinning { pins } => pinning(alloc, pins, session),
        Action::Lsr => lsr(alloc, session),
        Action::Which { word } => which(alloc, word.as_slice(), session),
        _ => unreachable!(),
    }
}

// Carries an action out that compiles patterns, and reads neither repositories nor the input.
fn act_matching<H: Host>(
    alloc: Global,
    action: Action,
    regexps: &mut Regexps,
    session: Session<H>,
) -> Acted<H>
    requires on { IsOn built_actions action }
    requires matching { reads_patterns action ≡ true }
    requires alone { reads_repositories action ≡ false }
    ensures { ActsMatching H.tells H.seen action session regexps.new result.ending result.state }
{
    match action {
        Action::Expand { name } => expand(alloc, &name, regexps, session),
        _ => unreachable!(),
    }
}

// How packages are asked to come by the words' options.
fn install_ask(no_depends: bool, no_depends_at_all: bool, reinstall: bool) -> InstallAsk
    ensures { result ≡ install_ask no_depends no_depends_at_all reinstall }
{
    InstallAsk {
        depends: !no_depends,
        parts: !no_depends_at_all,
        reinstall,
    }
}

// How packages are asked to be updated by the words' options.
fn update_ask(
    all: bool,
    no_auto_install: bool,
    no_auto_remove: bool,
    reinstall_forced: bool,
) -> UpdateAsk
    ensures { result ≡ update_ask all no_auto_install no_auto_remove reinstall_forced }
{
    UpdateAsk {
        all,
        auto_install: !no_auto_install,
        auto_remove: !no_auto_remove,
        reinstall_forced,
    }
}

// Carries an action out that reads repositories and not the input.
fn act_over<H: Host, S: Shelf>(
    alloc: Global,
    action: Action,
    repositories: &[Repository],
    formats: bool,
    shelf: &mut S,
    session: Session<H>,
) -> Acted<H>
    requires on { IsOn built_actions action }
    requires over { reads_repositories action ≡ true }
    ensures { ActsOver S.tells H.tells H.seen action repositories.now formats session
        (S.seen shelf.old) (S.seen shelf.new) result.ending result.state }
{
    match action {
        Action::Info { name } => info(alloc, name, repositories, shelf, session),
        Action::Search { word } => search(alloc, word.as_slice(), repositories, shelf, session),
        Action::Candidates { name } => candidates(alloc, name, repositories, shelf, session),
        Action::Install {
            names,
            no_depends,
            no_depends_at_all,
            reinstall,
        } => {
            let ask = install_ask(no_depends, no_depends_at_all, reinstall);
            install(
                alloc,
                names.as_slice(),
                &ask,
                formats,
                repositories,
                shelf,
                session,
            )
        }
        Action::Update {
            names,
            all,
            no_auto_install,
            no_auto_remove,
            reinstall_forcibly_removed,
        } => {
            let ask = update_ask(
                all,
                no_auto_install,
                no_auto_remove,
                reinstall_forcibly_removed,
            );
            update(
                alloc,
                names.as_slice(),
                &ask,
                formats,
                repositories,
                shelf,
                session,
            )
        }
        _ => unreachable!(),
    }
}

// Carries a command out.
pub(crate) fn act<H: Host, S: Shelf>(
    alloc: Global,
    command: Command,
    shelf: &mut S,
    regexps: &mut Regexps,
    session: Session<H>,
) -> Acted<H>
    requires { IsOn built_actions command.action }
    ensures { Acts S.tells H.tells H.seen command session (S.seen shelf.old) (S.seen shelf.new) regexps.new
        result.ending result.state }
{
    let Command {
        action,
        repositories,
        formats,
        ..
    } = command;
    if reads_repositories(&action) {
        act_over(
            alloc,
            action,
            repositories.as_slice(),
            formats,
            shelf,
            session,
        )
    } else if reads_patterns(&action) {
        act_matching(alloc, action, regexps, session)
    } else {
        act_alone(alloc, action, formats, session)
    }
}
