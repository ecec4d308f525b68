// The first fault of some operands.
ghost use Rattle.std.specs.Prelude.{◌≡◌, IfOk};
ghost use Rattle.tl_words.specs.Operands.{form_kind, operand_fault, missing_fault, operands_fault};
ghost use Rattle.tl_words.specs.Inside.{placed_of, plains_left};

use crate::error::WordKind;
use crate::faults::Fault;
use crate::parts::Placed;
use crate::plains::PlainsIter;
use std::alloc::{AllocError, Global};
use tl_action::{Expected, Form};

// The kind of an operand that hasn't its form.
fn form_kind(form: Form) -> WordKind
    ensures { result ≡ form_kind form }
{
    match form {
        Form::Name => WordKind::Name,
        Form::Count | Form::Revision => WordKind::Number,
        _ => WordKind::Operand,
    }
}

// The fault of one operand: it is too many, or it hasn't its form.
fn operand_fault(
    alloc: Global,
    form: Option<Form>,
    operand: Placed<'_>,
) -> Result<Option<Fault>, AllocError>
    ensures { IfOk result (λ found. found ≡ operand_fault form (placed_of operand.entry)) }
{
    let at = operand.at;
    let Some(form) = form else {
        return Ok(Some(Fault {
            at,
            kind: WordKind::Operand,
        }));
    };
    if form.fits(alloc, operand.word)? {
        Ok(None)
    } else {
        Ok(Some(Fault {
            at,
            kind: form_kind(form),
        }))
    }
}

// The fault of an operand that is missing.
fn missing_fault(expected: Expected, end: usize) -> Option<Fault>
    ensures { result ≡ missing_fault expected end }
{
    if expected.is_needed() {
        Some(Fault {
            at: end,
            kind: WordKind::Operand,
        })
    } else {
        None
    }
}

// The first fault of some operands; `end` is the number of words.
pub(crate) fn operands_fault(
    alloc: Global,
    start: Expected,
    end: usize,
    operands: PlainsIter<'_>,
) -> Result<Option<Fault>, AllocError>
    ensures { IfOk result (λ found. found ≡ operands_fault start end (plains_left operands.entry)) }
{
    let mut expected = start;
    for operand in operands {
        let found = operand_fault(alloc, expected.form(), operand)?;
        if found.is_some() {
            return Ok(found);
        }
        expected = expected.after(operand.word);
    }
    Ok(missing_fault(expected, end))
}
