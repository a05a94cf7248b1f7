//! Rows and labels.

use crate::short::Short;
use crate::trouble::Trouble;
use ol_values::{Label, Row};
use std::alloc::Global;

/// Tells the row of the bytes, and how many they are.
pub fn tell_row(alloc: Global, bytes: &[u8]) -> Result<String, Trouble> {
    let Some(row) = Row::new(bytes) else {
        return Ok(String::from_str(alloc, "= no row\n")?);
    };
    let held = row.copy();
    let held = held.as_slice();
    Ok(format!(in alloc; "= a row of {}: {}\n", held.len(), Short(held))?)
}

/// Tells the label of the bytes, and how many they are.
pub fn tell_label(alloc: Global, bytes: &[u8]) -> Result<String, Trouble> {
    let Some(label) = Label::new(bytes) else {
        return Ok(String::from_str(alloc, "= no label\n")?);
    };
    let held = label.as_slice();
    Ok(format!(in alloc; "= a label of {}: {}\n", held.len(), Short(held))?)
}
