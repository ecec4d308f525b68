//! The line that acknowledges a step.
ghost use Rattle.std.specs.Prelude.{◌≡◌, IfOk};
ghost use Rattle.tl_model.specs.Lines.{IsLine};
ghost use Rattle.tl_model.specs.Acks.{IsLabel};
ghost use Rattle.tl_command.specs.Labels.{step_label};

use std::alloc::{AllocError, Global};

fn label_text(alloc: Global, step: usize, count: usize, what: &str) -> Result<Vec<u8>, AllocError>
    ensures { IfOk result (λ label. label.items ≡ step_label step count what.now) }
{
    Ok(format!(in alloc; "step {step}/{count} {what} done\n")?.into_bytes())
}

/// The line that acknowledges a step: its number, how many there are, and what it did, which is one line without its end.
pub fn step_label(
    alloc: Global,
    step: usize,
    count: usize,
    what: &str,
) -> Result<Vec<u8>, AllocError>
    requires { IsLine what.now }
    ensures text { IfOk result (λ label. label.items ≡ step_label step count what.now) }
    ensures label { IfOk result (λ label. IsLabel label.items) }
{
    label_text(alloc, step, count, what)
}
