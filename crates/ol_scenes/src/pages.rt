//! The bytes of a page in words.

use ol_outside::PAGE_LENGTH;
use std::alloc::AllocError;
use std::fmt::Write;

/// The bytes of a row.
const ROW: usize = 16;

/// Tells a page: `zeros`, or a line for each row of 16 bytes that differs from the row before it, where a row of zeros
/// stands before the first: the offset of the row, and its bytes.
pub fn tell_page(page: &[u8; PAGE_LENGTH], told: &mut String) -> Result<(), AllocError> {
    if page.iter().all(|byte| *byte == 0) {
        return told.push_str("zeros\n");
    }
    let mut before: &[u8] = &[0; ROW];
    for (index, row) in page.chunks(ROW).enumerate() {
        if row != before {
            tell_row(index.saturating_mul(ROW), row, told)?;
        }
        before = row;
    }
    Ok(())
}

fn tell_row(offset: usize, row: &[u8], told: &mut String) -> Result<(), AllocError> {
    write!(told, "{offset}:")?;
    for byte in row {
        write!(told, " {byte:02x}")?;
    }
    told.push_str("\n")
}
