//! What a command's line says: the command that its first word names, its other words by their kinds as operands, its options with
//! their parameters, and the first refusal among them. Nothing here knows what a command does, nor the machine or a disk.
#![tactic(auto)]

mod mode;
mod operand;
mod optional;
mod options;
mod refusal;
mod spelling;

pub use cms_text::coded;
pub use mode::ReadMode;
pub use operand::{
    AccessMode, LARGEST, Target, WriteMode, access_mode, device, device_or_letter, ended, given,
    given_or, letter, letter_or_all, name, name_or_all, name_or_same, needed, number,
    number_or_all, number_within, operands, output_mode, pattern, reading_mode, writing_mode,
};
pub use optional::{
    access_mode_or_a, device_or, given_letter_or_all, given_number_or_all, number_or,
    pattern_or_all, reading_mode_or_a, writing_mode_or_a,
};
pub use options::{
    ChosenOption, ChosenOptions, CommandFault, OptionForm, Parameter, Setting, chosen_options,
    without_options,
};
pub use refusal::Refusal;
pub use spelling::{CommandName, command_named};
