//! The real devices, and a command over them.
use crate::told::{Reading, has_database, tell};
use crate::want_of_memory;
use std::alloc::{AllocError, Global};
use std::fs::File;
use std::io::Input;
use std::rt::Files;
use std::thread::Threads;
use tl_real::{FolderHost, FolderShelf, StdSource};
use tl_tool::actions::BUILT;
use tl_tool::{Regexps, texlive};
use tl_words::{Action, Command, Repository, WordsError, read_words};

// The folder that is meant where none is named.
const HERE: &[u8] = b".";

// The folders that a command's words name, and whether the command reads the tree's database.
#[derive(Drop)]
struct Folders {
    root: Vec<u8>,
    repositories: Vec<Vec<u8>>,
    reads_database: bool,
}

/// Carries a command out over the folders that its words name, and gives its status. Where the words are no command, the folder is
/// the one that the program runs in, and there are no repositories.
pub fn command<R>(rt: &R, words: &[Vec<u8>]) -> u8
where
    R: Files<File = File> + Input + Print + Eprint + AllocGlobal + Threads + Sync,
{
    match named_folders(rt.alloc(), words) {
        Ok(folders) => match devices(rt, &folders) {
            Ok((host, shelf)) => carried_out(rt, words, &folders, host, shelf),
            Err(_) => want_of_memory(rt),
        },
        Err(_) => want_of_memory(rt),
    }
}

fn named_folders(alloc: Global, words: &[Vec<u8>]) -> Result<Folders, AllocError> {
    match read_words(alloc, &BUILT, words) {
        Ok(command) => command_folders(alloc, &command),
        Err(WordsError::BadWords { .. }) => Ok(Folders {
            root: Vec::from_slice(alloc, HERE)?,
            repositories: Vec::new(alloc),
            reads_database: false,
        }),
        Err(WordsError::NoMemory) => Err(AllocError),
    }
}

fn command_folders(alloc: Global, command: &Command) -> Result<Folders, AllocError> {
    Ok(Folders {
        root: Vec::from_slice(alloc, command.root.as_slice())?,
        repositories: repository_folders(alloc, command.repositories.as_slice())?,
        reads_database: reads_database(&command.action),
    })
}

// Whether the action is of no use over a folder without a database.
fn reads_database(action: &Action) -> bool {
    matches!(
        action,
        Action::DumpTlpdb { .. }
            | Action::Info { .. }
            | Action::Search { .. }
            | Action::Candidates { .. }
            | Action::Check { .. }
            | Action::Install { .. }
            | Action::Update { .. }
            | Action::Remove { .. }
            | Action::Backup { .. }
            | Action::Restore { .. }
            | Action::Setting { .. }
    )
}

fn repository_folders(
    alloc: Global,
    repositories: &[Repository],
) -> Result<Vec<Vec<u8>>, AllocError> {
    let mut folders = Vec::new(alloc);
    for repository in repositories {
        folders.push(folder_of(alloc, repository.folder.as_slice())?)?;
    }
    Ok(folders)
}

// A repository of no bytes is the folder that the program runs in.
fn folder_of(alloc: Global, folder: &[u8]) -> Result<Vec<u8>, AllocError> {
    Vec::from_slice(alloc, if folder.is_empty() { HERE } else { folder })
}

fn devices<'r, R: Files<File = File> + Print + AllocGlobal>(
    rt: &'r R,
    folders: &Folders,
) -> Result<(FolderHost<'r, R>, FolderShelf<'r, R>), AllocError> {
    let host = FolderHost::new(rt, folders.root.as_slice())?;
    let shelf = FolderShelf::new(rt, folders.repositories.as_slice())?;
    Ok((host, shelf))
}

fn carried_out<'r, R>(
    rt: &'r R,
    words: &[Vec<u8>],
    folders: &Folders,
    host: FolderHost<'r, R>,
    shelf: FolderShelf<'r, R>,
) -> u8
where
    R: Files<File = File> + Input + Print + Eprint + AllocGlobal + Threads + Sync,
{
    let mut host = host;
    let had_database = !folders.reads_database || has_database(&mut host);
    let mut shelf = shelf;
    let mut input = StdSource::new(rt);
    let mut regexps = Regexps::new();
    let (ending, host) = texlive(
        rt,
        rt.alloc(),
        words,
        host,
        &mut shelf,
        &mut input,
        &mut regexps,
    );
    let reading = Reading {
        words,
        root: folders.root.as_slice(),
        reads_database: folders.reads_database,
        had_database,
    };
    tell(rt, &reading, &ending, host, &shelf, &input);
    ending.status()
}
