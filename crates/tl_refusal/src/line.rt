//! The line that says a refusal.
ghost use Rattle.std.specs.Prelude.{◌≡◌, IfOk, string_bytes};
ghost use Rattle.tl_model.specs.Acks.{IsPlain};
ghost use Rattle.tl_refusal.specs.Refusals.{refusal_line};

use crate::refusal::Refusal;
use std::alloc::{AllocError, Global};

/// The line that says a refusal, with its end. It has no acknowledged line.
#[tactic(auto, unfolding(crate::specs::Refusals::refusal_text))]
pub fn line_of(alloc: Global, refusal: &Refusal) -> Result<String, AllocError>
    ensures line { IfOk result (λ line. string_bytes line ≡ refusal_line refusal.now) }
    ensures plain { IsPlain (refusal_line refusal.now) }
{
    let name = refusal.name();
    let fields = refusal.fields();
    format!(in alloc; "tlmgr: {name}{fields}\n")
}
