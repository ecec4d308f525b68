// The actions that the program knows: how each is written, its options and its operands.
ghost use Rattle.std.specs.Prelude.{◌≡◌};
ghost use Rattle.tl_action.specs.Usage.{operands_text, effect_text};
ghost use Rattle.tl_action.specs.Table.{action_text, action_named_among, is_own, goes_with, needs_local, names_expected, operands_of, is_served};

use crate::expected::Expected;
use crate::table::OptionName;

/// The actions, also those that are off. Each but `Setting`, which is `option`, is named like the text that stands for it.
#[derive(Clone, Copy, Debug, PartialEq, Eq)]
pub enum ActionName {
    DumpTlpdb,
    Info,
    Search,
    Candidates,
    Check,
    Install,
    Update,
    Remove,
    Backup,
    Restore,
    Setting,
    Pinning,
    Expand,
    Edit,
    Build,
    Mirror,
    Lsr,
    Which,
    Shell,
    GenerateMaster,
}

impl ActionName {
    pub(crate) fn text(self) -> &'static str
        ensures { result.now ≡ action_text self }
    {
        match self {
            ActionName::DumpTlpdb => "dump-tlpdb",
            ActionName::Info => "info",
            ActionName::Search => "search",
            ActionName::Candidates => "candidates",
            ActionName::Check => "check",
            ActionName::Install => "install",
            ActionName::Update => "update",
            ActionName::Remove => "remove",
            ActionName::Backup => "backup",
            ActionName::Restore => "restore",
            ActionName::Setting => "option",
            ActionName::Pinning => "pinning",
            ActionName::Expand => "expand",
            ActionName::Edit => "edit",
            ActionName::Build => "build",
            ActionName::Mirror => "mirror",
            ActionName::Lsr => "lsr",
            ActionName::Which => "which",
            ActionName::Shell => "shell",
            ActionName::GenerateMaster => "generate-master",
        }
    }

    /// The action of a word, where some are on. No memory.
    pub fn named(on: &[ActionName], word: &[u8]) -> Option<ActionName>
        ensures { result ≡ action_named_among on.now word.now }
    {
        on.iter()
            .copied()
            .find(|action| action.text().as_bytes() == word)
    }

    // Whether the option goes with this action and not with every one.
    pub(crate) fn is_own(self, option: OptionName) -> bool
        ensures { result ≡ is_own self option }
    {
        match self {
            ActionName::DumpTlpdb => option.is_of_dump(),
            ActionName::Install => option.is_of_install(),
            ActionName::Update => option.is_of_update(),
            ActionName::Remove => option.is_of_remove(),
            ActionName::Backup | ActionName::Pinning => option.is_all(),
            _ => false,
        }
    }

    /// Whether the option goes with the action. No memory.
    pub fn goes_with(self, option: OptionName) -> bool
        ensures { result ≡ goes_with self option }
    {
        option.is_common() || self.is_own(option)
    }

    /// Whether it needs the flag `local`. No memory.
    pub fn needs_local(self) -> bool
        ensures { result ≡ needs_local self }
    {
        matches!(self, ActionName::DumpTlpdb)
    }

    /// Its operands, with the flag `all` or without it. No memory.
    pub fn operands(self, with_all: bool) -> Expected
        ensures { result ≡ operands_of self with_all }
    {
        match self {
            ActionName::Info => Expected::MayName,
            ActionName::Search => Expected::OneWord,
            ActionName::Candidates | ActionName::Expand => Expected::OneName,
            ActionName::Check => Expected::OneCheck,
            ActionName::Install | ActionName::Remove => Expected::SomeNames,
            ActionName::Update | ActionName::Backup => names_expected(with_all),
            ActionName::Restore => Expected::MayNameAndRevision,
            ActionName::Setting => Expected::MayNameAndWords,
            ActionName::Pinning if with_all => Expected::PinsWithAll,
            ActionName::Pinning => Expected::Pins,
            ActionName::Which => Expected::OneComponent,
            ActionName::GenerateMaster => Expected::OneCount,
            _ => Expected::Nothing,
        }
    }

    // Its operands in a usage text, each with a blank before it.
    pub(crate) fn operands_text(self) -> &'static str
        ensures { result.now ≡ operands_text self }
    {
        match self {
            ActionName::Info => " [NAME]",
            ActionName::Search => " WORD",
            ActionName::Candidates | ActionName::Expand => " NAME",
            ActionName::Check => " files|depends|duplicates|executes|all",
            ActionName::Install | ActionName::Remove => " NAME..",
            ActionName::Update | ActionName::Backup => " [NAME..]",
            ActionName::Restore => " [NAME [REV]]",
            ActionName::Setting => " [OPTION [VALUE..]]",
            ActionName::Pinning => " show|add TAG GLOB..|remove TAG [GLOB..]",
            ActionName::Which => " FILE",
            ActionName::GenerateMaster => " N",
            _ => "",
        }
    }

    // What it does, in a line.
    pub(crate) fn effect_text(self) -> &'static str
        ensures { result.now ≡ effect_text self }
    {
        match self {
            ActionName::DumpTlpdb => "Says the text of the local database.",
            ActionName::Info => "Says what is known of a package, or which packages there are.",
            ActionName::Search =>
                "Says the packages that have a word in their name or description.",
            ActionName::Candidates => "Says which repositories have a package.",
            ActionName::Check => "Says what is wrong in the tree.",
            ActionName::Install => "Installs packages.",
            ActionName::Update => "Updates packages.",
            ActionName::Remove => "Removes packages.",
            ActionName::Backup => "Backs packages up.",
            ActionName::Restore => "Says which backups there are, or brings one back.",
            ActionName::Setting => "Says the options of the tree, or sets one.",
            ActionName::Pinning => "Says or changes the pins.",
            ActionName::Expand => "Says the objects of a source.",
            ActionName::Edit => "Changes sources and files by the lines of the input.",
            ActionName::Build => "Publishes the repository.",
            ActionName::Mirror => "Copies a repository.",
            ActionName::Lsr => "Writes the list of the tree's files.",
            ActionName::Which => "Says where files of a name stand.",
            ActionName::Shell => "Carries out the commands of the input's lines.",
            ActionName::GenerateMaster => "Makes packages for trials, from 1 to 1000.",
        }
    }

    /// Whether it may be asked for with so many repositories. No memory.
    pub fn is_served(self, count: usize) -> bool
        ensures { result ≡ is_served self count }
    {
        match self {
            ActionName::Install | ActionName::Update | ActionName::Candidates => count != 0,
            ActionName::Mirror => count == 1,
            _ => true,
        }
    }
}

fn names_expected(with_all: bool) -> Expected
    ensures { result ≡ names_expected with_all }
{
    if with_all {
        Expected::AnyNames
    } else {
        Expected::SomeNames
    }
}
