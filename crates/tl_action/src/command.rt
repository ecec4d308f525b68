// The command that words stand for.
use crate::lists::{Names, Texts};
use std::marker::Model;
use tl_file::Bytes;
use tl_path::{Check, Name, Tag};

/// A repository: its tag and its folder.
#[derive(Drop)]
pub struct Repository {
    /// The tag, `main` where the words give none.
    pub tag: Tag,
    /// The folder's name, which may be of 0 bytes: the current folder.
    pub folder: Bytes,
}

/// Repositories in order, seen as the list of them.
#[derive(Drop)]
pub struct Repositories {
    items: Vec<Repository>,
}

impl Model for Repositories {
    ghost use Rattle.std.specs.Prelude.{List};
    ghost use Rattle.tl_action.specs.declared.command.Repository.{Repository};

    ghost Value = { List Repository };

    ghost view = { λ a. a.items.items };
}

impl Repositories {
    ghost use Rattle.std.specs.Prelude.{◌≡◌};

    /// These repositories. No memory.
    pub fn new(items: Vec<Repository>) -> Repositories
        ensures { result ≡ items.items }
    {
        Repositories { items }
    }

    /// The repositories.
    pub fn as_slice(&self) -> &[Repository]
        ensures { result.now ≡ self.now }
    {
        self.items.as_slice()
    }

    /// The repositories as a vector. No memory.
    pub fn into_vec(self) -> Vec<Repository>
        ensures { result.items ≡ self }
    {
        self.items
    }
}

/// What is done with the pins.
#[derive(Drop)]
pub enum PinAction {
    /// They are said.
    Show,
    /// Globs are added.
    Add {
        /// The tag of a repository.
        tag: Tag,
        /// The globs, each once and one at least.
        globs: Texts,
    },
    /// Globs are removed.
    Remove {
        /// The tag of a repository.
        tag: Tag,
        /// The globs, each once.
        globs: Texts,
        /// Whether all globs of the tag are meant, whichever are listed.
        all: bool,
    },
}

/// What a command does. A flag is true where the words have the option that is written like it.
#[derive(Drop)]
pub enum Action {
    /// `dump-tlpdb`: says the database's text.
    DumpTlpdb {
        /// The local database, which is the only one.
        local: bool,
    },
    /// `info`: says what is known of a package, or of all.
    Info {
        /// The package; all where there is none.
        name: Option<Name>,
    },
    /// `search`: says the packages that a word stands in.
    Search {
        /// The word.
        word: Bytes,
    },
    /// `candidates`: says which repositories have a package.
    Candidates {
        /// The package.
        name: Name,
    },
    /// `check`: says what is wrong in the tree.
    Check {
        /// What is looked at.
        what: Check,
    },
    /// `install`: installs packages.
    Install {
        /// The packages, each once and one at least.
        names: Names,
        /// Without what the packages depend on.
        no_depends: bool,
        /// Without their binary parts too.
        no_depends_at_all: bool,
        /// Also what is installed.
        reinstall: bool,
    },
    /// `update`: updates packages.
    Update {
        /// The packages, each once; one at least without `all`.
        names: Names,
        /// All packages.
        all: bool,
        /// No new packages.
        no_auto_install: bool,
        /// No package is removed.
        no_auto_remove: bool,
        /// Removed packages come back.
        reinstall_forcibly_removed: bool,
    },
    /// `remove`: removes packages.
    Remove {
        /// The packages, each once and one at least.
        names: Names,
        /// Also those that others need.
        force: bool,
    },
    /// `backup`: backs packages up.
    Backup {
        /// The packages, each once; one at least without `all`.
        names: Names,
        /// All packages.
        all: bool,
    },
    /// `restore`: says the backups, or brings one back.
    Restore {
        /// The package.
        name: Option<Name>,
        /// The revision of the backup; only with a package.
        revision: Option<u32>,
    },
    /// `option`: says options of the tree, or sets one.
    Setting {
        /// The option; all where there is none.
        option: Option<Name>,
        /// The values that it is set to; it is said where there are none.
        values: Texts,
    },
    /// `pinning`: says or changes the pins.
    Pinning {
        /// What is done with them.
        pins: PinAction,
    },
    /// `expand`: says the objects of a source.
    Expand {
        /// The source's package.
        name: Name,
    },
    /// `edit`: changes sources and files by the lines of the input.
    Edit,
    /// `build`: publishes the repository.
    Build,
    /// `mirror`: copies a repository.
    Mirror,
    /// `lsr`: writes the list of the tree's files.
    Lsr,
    /// `which`: says where files of a name stand.
    Which {
        /// The file's name, a component of a path.
        word: Bytes,
    },
    /// `shell`: carries out the commands of the input's lines.
    Shell,
    /// `generate-master`: makes a master of packages for trials.
    GenerateMaster {
        /// How many, from 1 to 1000.
        count: u32,
    },
}

/// A command.
#[derive(Drop)]
pub struct Command {
    /// The folder of the tree; of 0 bytes in a session's line.
    pub root: Bytes,
    /// The repositories, each with a tag of its own; none in a session's line.
    pub repositories: Repositories,
    /// How many workers, from 1 to 64.
    pub workers: u32,
    /// What to do.
    pub action: Action,
    /// The folder of the user's tree.
    pub user: Option<Bytes>,
    /// Whether formats are made too.
    pub formats: bool,
}
