//! The fields of kinds and quantities.
ghost use Rattle.std.specs.Prelude.{◌≡◌, codes};
ghost use Rattle.tl_model.specs.Lines.{IsLine};
ghost use Rattle.tl_kind.specs.Kinds.{source_kind_name, edit_kind_name, regexp_kind_name};
ghost use Rattle.tl_kind.specs.Quantities.{quantity_name};
ghost use Rattle.tl_refusal.specs.Kinds.{word_kind_name, line_kind_name, execute_kind_name};

use crate::field::Field;
use tl_execute::ExecuteKind;
use tl_kind::{EditKind, RegexpKind, SourceKind, What};
use tl_object::LineKind;
use tl_words::WordKind;

// How words fail.
pub(crate) fn word_kind(kind: WordKind) -> Field<'static>
    ensures field { result ≡ (codes "kind", word_kind_name kind) }
    ensures line { IsLine (word_kind_name kind) }
{
    Field::word(
        "kind",
        match kind {
            WordKind::Root => "Root",
            WordKind::Option => "Option",
            WordKind::Value => "Value",
            WordKind::Number => "Number",
            WordKind::Action => "Action",
            WordKind::Name => "Name",
            WordKind::Operand => "Operand",
            WordKind::Repository => "Repository",
        },
    )
}

// How a line of an entry fails.
pub(crate) fn line_kind(kind: LineKind) -> Field<'static>
    ensures field { result ≡ (codes "kind", line_kind_name kind) }
    ensures line { IsLine (line_kind_name kind) }
{
    Field::word(
        "kind",
        match kind {
            LineKind::Missing => "Missing",
            LineKind::Utf8 => "Utf8",
            LineKind::Key => "Key",
            LineKind::Value => "Value",
            LineKind::Repeated => "Repeated",
            LineKind::File => "File",
            LineKind::TooLong => "TooLong",
        },
    )
}

// How an execute fails.
pub(crate) fn execute_kind(kind: ExecuteKind) -> Field<'static>
    ensures field { result ≡ (codes "kind", execute_kind_name kind) }
    ensures line { IsLine (execute_kind_name kind) }
{
    Field::word(
        "kind",
        match kind {
            ExecuteKind::Quote => "Quote",
            ExecuteKind::Word => "Word",
            ExecuteKind::Key => "Key",
            ExecuteKind::Repeated => "Repeated",
            ExecuteKind::Missing => "Missing",
            ExecuteKind::Number => "Number",
            ExecuteKind::Value => "Value",
        },
    )
}

// How a line of a source fails.
pub(crate) fn source_kind(kind: SourceKind) -> Field<'static>
    ensures field { result ≡ (codes "kind", source_kind_name kind) }
    ensures line { IsLine (source_kind_name kind) }
{
    Field::word("kind", kind.name())
}

// How a command of an edit fails.
pub(crate) fn edit_kind(kind: EditKind) -> Field<'static>
    ensures field { result ≡ (codes "kind", edit_kind_name kind) }
    ensures line { IsLine (edit_kind_name kind) }
{
    Field::word("kind", kind.name())
}

// How a regular expression fails.
pub(crate) fn regexp_kind(kind: RegexpKind) -> Field<'static>
    ensures field { result ≡ (codes "kind", regexp_kind_name kind) }
    ensures line { IsLine (regexp_kind_name kind) }
{
    Field::word("kind", kind.name())
}

// A quantity that has a limit.
pub(crate) fn quantity(what: What) -> Field<'static>
    ensures field { result ≡ (codes "what", quantity_name what) }
    ensures line { IsLine (quantity_name what) }
{
    Field::word("what", what.name())
}
