//! What a plan is made of.
use std::marker::Model;
use tl_path::Name;

/// A part of a plan.
#[derive(Drop)]
pub enum Planned {
    /// The package leaves.
    Remove { name: Name },
}

/// What one step of a plan does, in order. Contracts see the list.
#[derive(Drop)]
pub struct PlannedStep {
    pub changes: Vec<Planned>,
}

impl Model for PlannedStep {
    ghost use Rattle.std.specs.Prelude.{List};
    ghost use Rattle.tl_plan.specs.declared.planned.Planned.{Planned};

    ghost Value = { List Planned };

    ghost view = { λ s. s.changes.items };
}
