//! What turns do with what a line names.

ghost use Rattle.std.specs.Prelude.{◌≡◌, Option, ℕ};
ghost use Rattle.ol_values.specs.declared.row.Row.{Row as RowValue};
ghost use Rattle.ol_model.specs.Machine.{Machine, Seat};
ghost use Rattle.ol_model.specs.SessionTurns.{insert_into, list_at};
ghost use Rattle.ol_targets.specs.Naming.{insert_found, list_found, page_of, space_of};

/// An insert and a list are refused first as the space and the page that they name are, and go on with what was found.
pub fn names_lead_turns()
    ensures insert { (m : Machine) (entry session : ℕ) (s : Seat) (txn register : ℕ) (row : RowValue) (named : Option ℕ) → insert_into m entry session s txn register row named ≡ insert_found m entry session s txn register row (space_of m named) }
    ensures list { (m : Machine) (session : ℕ) (s : Seat) (page : ℕ) (named : Option ℕ) → list_at m session s page named ≡ list_found m session s (page_of m page named) }
{}
