//! How a source, a line of an edit and a regular expression fail to read.
ghost use Rattle.std.specs.Prelude.{◌≡◌};
ghost use Rattle.tl_kind.specs.Kinds.{source_kind_name, edit_kind_name, regexp_kind_name};

/// How a line of a source is bad.
#[derive(Clone, Copy, Debug, PartialEq, Eq)]
pub enum SourceKind {
    /// It isn't UTF-8.
    Utf8,
    /// No key has this name.
    Key,
    /// The value is empty where it may not be.
    Value,
    /// The value is longer than a text may be.
    TooLong,
    /// The name isn't the file's, or the file's name may not be a source's.
    Name,
    /// It is no category.
    Category,
    /// The variable or its value hasn't its form.
    Variable,
    /// The pattern hasn't its form.
    Pattern,
}

impl SourceKind {
    /// The kind's name, as a refusal says it. No memory.
    pub fn name(self) -> &'static str
        ensures { result.now ≡ source_kind_name self }
    {
        match self {
            SourceKind::Utf8 => "Utf8",
            SourceKind::Key => "Key",
            SourceKind::Value => "Value",
            SourceKind::TooLong => "TooLong",
            SourceKind::Name => "Name",
            SourceKind::Category => "Category",
            SourceKind::Variable => "Variable",
            SourceKind::Pattern => "Pattern",
        }
    }
}

/// How a line of an edit is bad.
#[derive(Clone, Copy, Debug, PartialEq, Eq)]
pub enum EditKind {
    /// No edit has this word.
    Command,
    /// There are too few or too many operands.
    Operand,
    /// The operand is no name.
    Name,
    /// The operand is no path.
    Path,
    /// The operand is no number.
    Number,
    /// The operands are no platforms.
    Platforms,
    /// The bytes aren't whole, or no line end follows them.
    Cut,
}

impl EditKind {
    /// The kind's name, as a refusal says it. No memory.
    pub fn name(self) -> &'static str
        ensures { result.now ≡ edit_kind_name self }
    {
        match self {
            EditKind::Command => "Command",
            EditKind::Operand => "Operand",
            EditKind::Name => "Name",
            EditKind::Path => "Path",
            EditKind::Number => "Number",
            EditKind::Platforms => "Platforms",
            EditKind::Cut => "Cut",
        }
    }
}

/// How a regular expression is refused.
#[derive(Clone, Copy, Debug, PartialEq, Eq)]
pub enum RegexpKind {
    /// The grammar reads no pattern from it, or it nests too deep.
    Syntax,
    /// It would become too large.
    Size,
}

impl RegexpKind {
    /// The kind's name, as a refusal says it. No memory.
    pub fn name(self) -> &'static str
        ensures { result.now ≡ regexp_kind_name self }
    {
        match self {
            RegexpKind::Syntax => "Syntax",
            RegexpKind::Size => "Size",
        }
    }
}
