//! Laws, each a public function with an empty body, whose contract states what holds of all texts, steps and rows.

ghost use Rattle.ed_model.specs.Rows.{Flags, Row};
ghost use Rattle.line_index.specs.Settings.{SettingsBringAll, SettingsBringFewLines};
ghost use Rattle.line_index.specs.Settings.{SettingsCarryRows, SettingsFitLines};
ghost use Rattle.line_index.specs.StepEdits.{EditsBringFewLines, EditsCarryRows, EditsFitLines, StepsMoveLines, StepsNameLines};

use ed_model::single_rows;

/// A step moves each old line to the new line of its start, and its change names lines that exist. The edits of the step
/// turn the rows of the old lines into those of the new ones, and likewise a view's flags. They name lines that exist,
/// and insert at most as many fresh lines as room is required for.
#[tactic(auto, using(crate::proofs::StepCarries::steps_name, crate::proofs::StepCarries::step_edits_carry, crate::proofs::StepCarries::step_edits_fit, crate::proofs::StepCarries::step_edits_few))]
pub fn edits_of_steps()
    ensures moves { StepsMoveLines }
    ensures names { StepsNameLines }
    ensures rows { EditsCarryRows Row }
    ensures flags { EditsCarryRows Flags }
    ensures fit { EditsFitLines }
    ensures few { EditsBringFewLines }
{}

/// The edits of another setting of line ends turn the rows of the lines into those that the model regroups them to, and
/// likewise a view's flags. They name lines that exist. Afterwards there are at most as many lines as before and fresh
/// ones together, and these are at most as many as the text has bytes, and one.
pub fn edits_of_settings()
    ensures rows { SettingsCarryRows Row }
    ensures flags { SettingsCarryRows Flags }
    ensures fit { SettingsFitLines }
    ensures all { SettingsBringAll }
    ensures few { SettingsBringFewLines }
{
    single_rows();
}
