// A change of a volume that was planned.
use crate::change::FileEdit;
use crate::system_blocks::Systems;
use cms_fields::Label;
use std::marker::Model;

/// A change of a volume that is ready to be carried out.
#[derive(Drop)]
pub struct Plan {
    pub(crate) step: Step,
}

impl Model for Plan {
    ghost use Rattle.cms_edf.specs.declared.step.Step.{Step};

    ghost Value = { Step };

    ghost view = { λ p. p.step };
}

/// What a change writes and what it does to the volume that is held.
#[derive(Drop)]
pub enum Step {
    Edit { edit: FileEdit, systems: Systems },
    Relabel { label: Label, label_bytes: Vec<u8> },
}
