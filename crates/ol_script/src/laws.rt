//! What holds of lines and scripts, whoever reads them.

ghost use Rattle.std.specs.Prelude.{◌≡◌, ◌≤◌, List, ℕ, Ok, Some, length, take};
ghost use Rattle.ol_values.specs.declared.history.Actor.{Actor as ActorValue};
ghost use Rattle.ol_values.specs.declared.line.Form.{Form as FormValue};
ghost use Rattle.ol_values.specs.declared.line.Line.{Line as LineValue};
ghost use Rattle.ol_script.specs.Script.{line_in_text, line_with, script_limit, script_of};
ghost use Rattle.ol_script.specs.Spelling.{AreLinesFrom, IsLineForm, line_text, script_text};

/// The spelling of a line, where it is short enough, is read as that line.
pub fn spelled_line_is_read()
    ensures { (k : ℕ) (actor : ActorValue) (form : FormValue) → IsLineForm actor form → length (line_text actor form) ≤ 255 → line_in_text k (line_text actor form) ≡ Some (line_with k actor form) }
{}

/// A line that is read is in the grammar, and its spelling is what was read: each line has one spelling.
pub fn read_line_is_spelled()
    ensures { (k : ℕ) (bytes : List ℕ) (line : LineValue) → line_in_text k bytes ≡ Some line
        → IsLineForm line.actor line.form × (bytes ≡ line_text line.actor line.form) × (length bytes ≤ 255) × (line.number ≡ k) }
{}

/// The spelling of lines that a script may have is read as these lines.
pub fn spelled_script_is_read()
    ensures { (lines : List LineValue) → AreLinesFrom 1 lines → script_of (script_text lines) ≡ Ok lines }
{}

/// A script that is read has lines that a script may have, and their spelling is what was read: each list
/// of lines has one spelling.
pub fn read_script_is_spelled()
    ensures { (text : List ℕ) (lines : List LineValue) → script_of text ≡ Ok lines → AreLinesFrom 1 lines × (text ≡ script_text lines) }
{}

/// What stands behind the first 65,535 times 256 bytes and one more does not change what a text is as a
/// script: no script is longer, and the first line off the grammar begins before.
pub fn limit_loses_nothing()
    ensures { (text : List ℕ) → script_of (take script_limit text) ≡ script_of text }
{}
