//! Data pages.

ghost use Rattle.std.specs.Prelude.{◌<◌};

use crate::short::{Short, page_of};
use crate::trouble::Trouble;
use ol_page::{PAGE_LENGTH, check, set_slot, slot, stamp};
use ol_values::Row;
use std::alloc::Global;

/// The slots of a page.
const SLOTS: u8 = 31;

/// Tells the stamp and the rows of a data page, and the bytes of the page that is filled anew with them.
pub fn tell(alloc: Global, bytes: &[u8]) -> Result<String, Trouble> {
    let page = page_of(bytes)?;
    let mut told = String::new(alloc);
    if check(&page).is_err() {
        told.push_str("= no page\n")?;
        return Ok(told);
    }
    let stamp = stamp(&page);
    write!(told, "= stamp {stamp}\n")?;
    let mut again = [0; PAGE_LENGTH];
    for index in 0..SLOTS {
        let row = slot(&page, index);
        if let Some(row) = &row {
            write!(told, "= slot {index}: {}\n", Short(row.as_slice()))?;
        }
        refill(&mut again, index, row, stamp);
    }
    write!(told, "= {}\n", Short(&again))?;
    Ok(told)
}

/// Puts a row or nothing into a slot that held a row of 63 bytes before, of which nothing may be left.
fn refill(page: &mut [u8; PAGE_LENGTH], index: u8, row: Option<Row>, stamp: u64)
    requires { index < 31 }
{
    set_slot(page, index, Row::new(&[b'z'; 63]), stamp);
    set_slot(page, index, row, stamp);
}
