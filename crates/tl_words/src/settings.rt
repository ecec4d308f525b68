// What the options of words say, and their first fault.
ghost use Rattle.std.specs.Prelude.{◌≡◌, ◌++◌, [], ◌∷◌, Some, None, true, false, option_map, bytes_eq, codes, OnOk, IfOk, IfErr, IfNone, IfSome};
ghost use Rattle.std.specs.List.{list_any};
ghost use Rattle.tl_words.specs.Settings.{options_fault, given_fault, setting_fault, is_worker_count};
ghost use Rattle.tl_words.specs.Settings.{repositories_of, repository_list, repository_of, workers_of, workers_after, user_of, user_after, tags_in};
ghost use Rattle.tl_model.specs.Decimal.{decimal_value};
ghost use Rattle.tl_words.specs.Inside.{parts_left, placed_of};
ghost use Rattle.tl_words.specs.Errors.{IsReadError};

use crate::error::WordKind;
use crate::faults::{Fault, ReadError};
use crate::parts::{PartRef, PartsIter, Placed, first_equals};
use std::alloc::{AllocError, Global};
use tl_action::{Bytes, OptionName, Repository, number_within};
use tl_path::{Tag, TagError};

/// What the options with a value say.
#[derive(Drop)]
pub(crate) struct Settings {
    pub(crate) repositories: Vec<Repository>,
    pub(crate) workers: u32,
    pub(crate) user: Option<Bytes>,
}

// A repository's value: its tag, `main` where it gives none, and its folder.
fn read_repository(alloc: Global, value: &[u8]) -> Result<Repository, AllocError>
    ensures { IfOk result (λ repository. repository ≡ repository_of value.now) }
{
    let end = first_equals(value);
    if end < value.len() {
        match Tag::parse(alloc, &value[..end]) {
            Ok(tag) => return repository(alloc, tag, &value[end + 1..]),
            Err(TagError::NotTag) => {}
            Err(TagError::NoMemory) => return Err(AllocError),
        }
    }
    repository(alloc, main_tag(alloc)?, value)
}

fn main_tag(alloc: Global) -> Result<Tag, AllocError>
    ensures { IfOk result (λ tag. tag ≡ codes "main") }
{
    match Tag::parse(alloc, b"main") {
        Ok(tag) => Ok(tag),
        Err(TagError::NoMemory) => Err(AllocError),
        Err(TagError::NotTag) => unreachable!(),
    }
}

fn repository(alloc: Global, tag: Tag, folder: &[u8]) -> Result<Repository, AllocError>
    ensures { IfOk result (λ repository. (repository.tag ≡ tag) × (repository.folder ≡ folder.now)) }
{
    let folder = Bytes::new(Vec::from_slice(alloc, folder)?);
    Ok(Repository { tag, folder })
}

fn has_tag(repositories: &[Repository], tag: &Tag) -> bool
    ensures { result ≡ list_any (bytes_eq tag.now) (tags_in repositories.now) }
{
    has_bytes(repositories, tag.bytes())
}

fn has_bytes(repositories: &[Repository], tag: &[u8]) -> bool
    ensures { result ≡ list_any (λ other. bytes_eq tag.now other.tag) repositories.now }
{
    repositories.iter().any(|other| tag == other.tag.bytes())
}

// A number of workers.
fn worker_count(value: &[u8]) -> Option<u32>
    ensures none { IfNone result (is_worker_count value.now ≡ false) }
    ensures some { IfSome result (λ n. (is_worker_count value.now ≡ true) × (n ≡ decimal_value value.now)) }
{
    number_within(1, 64, value)
}

impl Settings {
    // One repository more, where no other has its tag and fewer than 16 are there.
    fn add_repository(&mut self, alloc: Global, at: usize, value: &[u8]) -> Result<(), ReadError>
        ensures none { OnOk result (setting_fault (tags_in self.old.repositories.items) OptionName.Repository at value.now ≡ None) }
        ensures added { OnOk result (self.new.repositories.items ≡ self.old.repositories.items ++ repository_of value.now ∷ []) }
        ensures workers { self.new.workers ≡ self.old.workers }
        ensures user { self.new.user ≡ self.old.user }
        ensures fault { IfErr result (IsReadError (setting_fault (tags_in self.old.repositories.items) OptionName.Repository at value.now)) }
    {
        let repository = match read_repository(alloc, value) {
            Ok(repository) => repository,
            Err(_) => return Err(ReadError::NoMemory),
        };
        if has_tag(&self.repositories, &repository.tag) {
            return Err(ReadError::Bad(Fault {
                at,
                kind: WordKind::Value,
            }));
        }
        if self.repositories.len() >= 16 {
            return Err(ReadError::Bad(Fault {
                at,
                kind: WordKind::Number,
            }));
        }
        match self.repositories.push(repository) {
            Ok(()) => Ok(()),
            Err(_) => Err(ReadError::NoMemory),
        }
    }

    // What a value that isn't empty says for its option.
    fn set(
        &mut self,
        alloc: Global,
        option: OptionName,
        at: usize,
        value: &[u8],
    ) -> Result<(), ReadError>
        ensures none { OnOk result (setting_fault (tags_in self.old.repositories.items) option at value.now ≡ None) }
        ensures added { OnOk result (self.new.repositories.items
            ≡ self.old.repositories.items ++ repository_list (Some option) (Some (at, value.now))) }
        ensures workers { OnOk result (self.new.workers ≡ workers_after self.old.workers (Some option) (Some (at, value.now))) }
        ensures user { OnOk result (self.new.user ≡ user_after self.old.user (Some option) (Some (at, value.now))) }
        ensures fault { IfErr result (IsReadError (setting_fault (tags_in self.old.repositories.items) option at value.now)) }
    {
        match option {
            OptionName::Repository => self.add_repository(alloc, at, value),
            OptionName::Workers => match worker_count(value) {
                Some(workers) => {
                    self.workers = workers;
                    Ok(())
                }
                None => Err(ReadError::Bad(Fault {
                    at,
                    kind: WordKind::Number,
                })),
            },
            OptionName::Usertree => match Vec::from_slice(alloc, value) {
                Ok(folder) => {
                    self.user = Some(Bytes::new(folder));
                    Ok(())
                }
                Err(_) => Err(ReadError::NoMemory),
            },
            _ => Ok(()),
        }
    }

    // What one option says.
    fn give(
        &mut self,
        alloc: Global,
        at: usize,
        option: Option<OptionName>,
        value: Option<Placed<'_>>,
    ) -> Result<(), ReadError>
        ensures none { OnOk result (given_fault (tags_in self.old.repositories.items) at option (option_map placed_of value.entry) ≡ None) }
        ensures added { OnOk result (self.new.repositories.items
            ≡ self.old.repositories.items ++ repository_list option (option_map placed_of value.entry)) }
        ensures workers { OnOk result (self.new.workers ≡ workers_after self.old.workers option (option_map placed_of value.entry)) }
        ensures user { OnOk result (self.new.user ≡ user_after self.old.user option (option_map placed_of value.entry)) }
        ensures fault { IfErr result (IsReadError
            (given_fault (tags_in self.old.repositories.items) at option (option_map placed_of value.entry))) }
    {
        let Some(option) = option else {
            return Err(ReadError::Bad(Fault {
                at,
                kind: WordKind::Option,
            }));
        };
        let Some(value) = value else {
            return Ok(());
        };
        if !option.takes_value() {
            return Err(ReadError::Bad(Fault {
                at,
                kind: WordKind::Value,
            }));
        }
        if value.word.is_empty() {
            return Err(ReadError::Bad(Fault {
                at: value.at,
                kind: WordKind::Value,
            }));
        }
        self.set(alloc, option, value.at, value.word)
    }
}

// What all options say, or their first fault.
pub(crate) fn read_options(alloc: Global, parts: PartsIter<'_>) -> Result<Settings, ReadError>
    ensures none { OnOk result (options_fault [] (parts_left parts.entry) ≡ None) }
    ensures repositories { IfOk result (λ settings. settings.repositories.items ≡ repositories_of (parts_left parts.entry)) }
    ensures workers { IfOk result (λ settings. settings.workers ≡ workers_of 4 (parts_left parts.entry)) }
    ensures user { IfOk result (λ settings. settings.user ≡ user_of None (parts_left parts.entry)) }
    ensures fault { IfErr result (IsReadError (options_fault [] (parts_left parts.entry))) }
{
    let mut settings = Settings {
        repositories: Vec::new(alloc),
        workers: 4,
        user: None,
    };
    for part in parts {
        if let PartRef::Given { at, option, value } = part {
            settings.give(alloc, at, option, value)?;
        }
    }
    Ok(settings)
}
