//! A source that was read.
ghost use Rattle.std.specs.Prelude.{◌≡◌};

use crate::fields::SourceFields;
use std::marker::Model;

/// A source that was read from a text.
#[derive(Drop)]
pub struct SourceText {
    fields: SourceFields,
}

impl Model for SourceText {
    ghost use Rattle.tl_srctext.specs.declared.fields.SourceFields.{SourceFields};

    ghost Value = { SourceFields };

    ghost view = { λ a. a.fields };
}

impl SourceText {
    // The source with these fields.
    pub(crate) fn of(fields: SourceFields) -> SourceText
        ensures { result ≡ fields }
    {
        SourceText { fields }
    }

    /// What the source says. Takes no memory.
    pub fn fields(&self) -> &SourceFields
        ensures { result.now ≡ self.now }
    {
        &self.fields
    }
}
