// The options that the program knows.
ghost use Rattle.std.specs.Prelude.{◌≡◌, bytes_eq, find};
ghost use Rattle.tl_action.specs.Table.{option_text, takes_value, option_named, is_common, is_same_option};
ghost use Rattle.tl_action.specs.Table.{is_dump_option, is_install_option, is_update_option, is_remove_option, is_all_option, is_unfit_for_users, is_for_users};
ghost use Rattle.tl_action.specs.Usage.{value_text};

/// The options, each named like the text that stands for it.
#[derive(Clone, Copy, Debug, PartialEq, Eq)]
pub enum OptionName {
    Repository,
    Workers,
    Usertree,
    Usermode,
    Local,
    All,
    Force,
    Formats,
    Reinstall,
    NoDepends,
    NoDependsAtAll,
    NoAutoInstall,
    NoAutoRemove,
    ReinstallForciblyRemoved,
}

// All options; those behind the first are known in a session's lines too.
pub(crate) const OPTIONS: [OptionName; 14] = [
    OptionName::Repository,
    OptionName::Workers,
    OptionName::Usertree,
    OptionName::Usermode,
    OptionName::Local,
    OptionName::All,
    OptionName::Force,
    OptionName::Formats,
    OptionName::Reinstall,
    OptionName::NoDepends,
    OptionName::NoDependsAtAll,
    OptionName::NoAutoInstall,
    OptionName::NoAutoRemove,
    OptionName::ReinstallForciblyRemoved,
];

impl OptionName {
    pub(crate) fn text(self) -> &'static str
        ensures { result.now ≡ option_text self }
    {
        match self {
            OptionName::Repository => "repository",
            OptionName::Workers => "workers",
            OptionName::Usertree => "usertree",
            OptionName::Usermode => "usermode",
            OptionName::Local => "local",
            OptionName::All => "all",
            OptionName::Force => "force",
            OptionName::Formats => "formats",
            OptionName::Reinstall => "reinstall",
            OptionName::NoDepends => "no-depends",
            OptionName::NoDependsAtAll => "no-depends-at-all",
            OptionName::NoAutoInstall => "no-auto-install",
            OptionName::NoAutoRemove => "no-auto-remove",
            OptionName::ReinstallForciblyRemoved => "reinstall-forcibly-removed",
        }
    }

    /// Whether it takes a value. No memory.
    pub fn takes_value(self) -> bool
        ensures { result ≡ takes_value self }
    {
        match self {
            OptionName::Repository | OptionName::Workers | OptionName::Usertree => true,
            _ => false,
        }
    }

    // What stands for its value in a usage text.
    pub(crate) fn value_text(self) -> &'static str
        ensures { result.now ≡ value_text self }
    {
        match self {
            OptionName::Repository => "=[TAG=]DIR",
            OptionName::Workers => "=N",
            OptionName::Usertree => "=DIR",
            _ => "",
        }
    }

    // Whether it goes with every action.
    pub(crate) fn is_common(self) -> bool
        ensures { result ≡ is_common self }
    {
        match self {
            OptionName::Repository | OptionName::Workers => true,
            _ => false,
        }
    }

    /// Whether it is the other one. No memory.
    pub fn is(self, other: OptionName) -> bool
        ensures { result ≡ is_same_option self other }
    {
        self.text().as_bytes() == other.text().as_bytes()
    }

    pub(crate) fn is_of_dump(self) -> bool
        ensures { result ≡ is_dump_option self }
    {
        matches!(self, OptionName::Local)
    }

    pub(crate) fn is_of_install(self) -> bool
        ensures { result ≡ is_install_option self }
    {
        match self {
            OptionName::NoDepends
            | OptionName::NoDependsAtAll
            | OptionName::Reinstall
            | OptionName::Formats
            | OptionName::Usermode
            | OptionName::Usertree => true,
            _ => false,
        }
    }

    pub(crate) fn is_of_update(self) -> bool
        ensures { result ≡ is_update_option self }
    {
        match self {
            OptionName::All
            | OptionName::NoAutoInstall
            | OptionName::NoAutoRemove
            | OptionName::ReinstallForciblyRemoved
            | OptionName::Formats => true,
            _ => false,
        }
    }

    pub(crate) fn is_of_remove(self) -> bool
        ensures { result ≡ is_remove_option self }
    {
        match self {
            OptionName::Force | OptionName::Formats | OptionName::Usermode | OptionName::Usertree =>
                true,
            _ => false,
        }
    }

    pub(crate) fn is_all(self) -> bool
        ensures { result ≡ is_all_option self }
    {
        matches!(self, OptionName::All)
    }

    /// Whether it may not stand beside `usermode`. No memory.
    pub fn is_unfit_for_users(self) -> bool
        ensures { result ≡ is_unfit_for_users self }
    {
        match self {
            OptionName::NoDependsAtAll | OptionName::Reinstall | OptionName::Formats => true,
            _ => false,
        }
    }

    /// Whether it needs `usermode` beside it. No memory.
    pub fn is_for_users(self) -> bool
        ensures { result ≡ is_for_users self }
    {
        matches!(self, OptionName::Usertree)
    }

    /// The option of a name, if one is known, in a session's line or among the program's words. No memory.
    pub fn named(in_session: bool, name: &[u8]) -> Option<OptionName>
        ensures { result ≡ option_named in_session name.now }
    {
        if in_session {
            option_among(&OPTIONS[1..], name)
        } else {
            option_among(&OPTIONS, name)
        }
    }
}

fn option_among(all: &[OptionName], name: &[u8]) -> Option<OptionName>
    ensures { result ≡ find (λ option. bytes_eq (option_text option) name.now) all.now }
{
    all.iter()
        .copied()
        .find(|option| option.text().as_bytes() == name)
}
