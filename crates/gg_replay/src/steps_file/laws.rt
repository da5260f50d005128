//! Laws: the lines of a steps file and the steps that they spell. Each is the contract of a function with an empty
//! body.

ghost use Rattle.std.specs.Prelude.{◌≡◌, ℕ, List, Some};
ghost use Rattle.gg_net.specs.declared.event.Event.{Event};
ghost use Rattle.gg_replay.specs.steps_file.Naming.{Naming};
ghost use Rattle.gg_replay.specs.steps_file.Steps.{step_of};
ghost use Rattle.gg_replay.specs.inside.Spelling.{HasNames, IsLine, IsUsable, Spells};
ghost use Rattle.gg_replay.specs.steps_file.Spelling.{IsLengthened};

/// A line is read as a step exactly if it spells that step. Therefore it spells at most one step.
pub fn steps_are_spelt()
    ensures spelt { (naming : Naming) (line : List ℕ) (event : Event) → step_of naming line ≡ Some event → Spells naming line event }
    ensures read { (naming : Naming) (line : List ℕ) (event : Event) → Spells naming line event → step_of naming line ≡ Some event }
{}

/// If all names can be used in a line, each event has a line that spells it, if its channel, machine and port have
/// names. Any text can be lengthened by any line.
pub fn steps_have_lines()
    ensures spelt { (naming : Naming) (event : Event) → IsUsable naming → HasNames naming event → (line : List ℕ) × IsLine line × Spells naming line event }
    ensures lengthened { (text line : List ℕ) → IsLine line → (longer : List ℕ) × IsLengthened text line longer }
{}
