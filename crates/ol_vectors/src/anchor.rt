//! Anchors.

use crate::short::{Short, page_of};
use crate::trouble::Trouble;
use ol_ports::PAGE_LENGTH;
use ol_reserve::{Anchor, AnchorFault};
use std::alloc::Global;

/// Tells the fields of an anchor and its spelling.
pub fn tell(alloc: Global, bytes: &[u8]) -> Result<String, Trouble> {
    let page = page_of(bytes)?;
    match Anchor::decode(&page) {
        Ok(anchor) => {
            let mut told = String::new(alloc);
            tell_numbers(&mut told, &anchor)?;
            tell_spaces(&mut told, &anchor)?;
            tell_text(&mut told, &anchor)?;
            Ok(told)
        }
        Err(AnchorFault::BadAnchor) => Ok(String::from_str(alloc, "= no anchor\n")?),
    }
}

fn tell_numbers(told: &mut String, anchor: &Anchor) -> Result<(), Trouble> {
    let state = if anchor.state == 1 {
        "online"
    } else {
        "restoring"
    };
    write!(
        told,
        "= {state} serial {} incarnation {}",
        anchor.serial, anchor.incarnation
    )?;
    write!(
        told,
        " position {} generation {}",
        anchor.position, anchor.generation
    )?;
    write!(
        told,
        " archive {} backed {}",
        anchor.next_archive, anchor.backed
    )?;
    write!(told, " uniq {} need {}\n", anchor.uniq, anchor.need)?;
    Ok(())
}

/// Tells each space of which anything is not zero.
fn tell_spaces(told: &mut String, anchor: &Anchor) -> Result<(), Trouble> {
    for space in 0..anchor.states.len() {
        let (state, down) = (anchor.states[space], anchor.down_at[space]);
        let (zero, one) = (anchor.zero[space], anchor.one[space]);
        if (state, down, zero, one) != (0, 0, (0, 0), (0, 0)) {
            write!(told, "= space {space} {} at {down}", state_word(state))?;
            write!(
                told,
                " level 0 {} {} level 1 {} {}\n",
                zero.0, zero.1, one.0, one.1
            )?;
        }
    }
    Ok(())
}

fn state_word(state: u8) -> &'static str {
    match state {
        0 => "absent",
        1 => "up",
        _ => "down",
    }
}

fn tell_text(told: &mut String, anchor: &Anchor) -> Result<(), Trouble> {
    let mut page = [0xff; PAGE_LENGTH];
    anchor.encode(&mut page);
    write!(told, "= text {}\n", Short(anchor.text.bytes()))?;
    write!(told, "= {}\n", Short(&page))?;
    Ok(())
}
