//! What a slot holds: a row, or nothing.

ghost use Rattle.std.specs.Prelude.{◌≡◌, true};
ghost use Rattle.ol_rules.specs.Sound.{is_value};

use ol_values::Row;

/// True; it tells that a row, if any, has at most 63 bytes.
pub fn is_short(row: &Option<Row>) -> bool
    ensures { is_value row.now ≡ true }
{
    match row {
        Some(row) => row.as_slice().len() <= 63,
        None => true,
    }
}

/// The same row again.
pub fn copy_of(row: &Option<Row>) -> Option<Row>
    ensures { result ≡ row.now }
{
    match row {
        Some(row) => Some(row.copy()),
        None => None,
    }
}
