//! The head of an entry.

ghost use Rattle.std.specs.Prelude.{◌≡◌, length, slice_index};
ghost use Rattle.ol_physlog.specs.Heads.{body_bytes, generation_in, head_in, is_spelled as is_spelled_head, place_in};
ghost use Rattle.ol_values.specs.Config.{has_page as has_page_in};

use crate::OPEN;
use crate::place::Place;
use ol_bytes::{number, put};
use ol_chunks::ChunkTable;
use ol_ports::PAGE_LENGTH;

/// How many bytes of a head stand behind its gate.
pub(crate) const BODY_LENGTH: usize = 15;

const MARK: &[u8] = b"PHY";

/// What a head says of its entry, for a generation.
#[derive(Clone, Copy)]
pub(crate) enum Head {
    /// Its gate is not open, or it is of another generation.
    Idle,
    /// It is open and of this generation, and off the grammar.
    Bad,
    /// It counts, for this page.
    Counts { place: Place },
}

/// The bytes of a head behind its gate.
#[tactic(auto, unfolding(crate::specs::Heads::body_bytes))]
pub(crate) fn write_body(place: Place, generation: u64) -> [u8; BODY_LENGTH]
    ensures value { result ≡ body_bytes place generation }
    ensures length { length result ≡ 15 }
{
    let mut body = [0; BODY_LENGTH];
    let at = put(&mut body, 0, MARK);
    let at = put(&mut body, at, &[place.space, 0]);
    let at = put(&mut body, at, &place.page.to_be_bytes());
    put(&mut body, at, &generation.to_be_bytes());
    body
}

/// What a head says of its entry.
#[tactic(auto, unfolding(crate::specs::Heads::head_in))]
pub(crate) fn read_head(table: &ChunkTable, generation: u64, head: &[u8; PAGE_LENGTH]) -> Head
    ensures { result ≡ head_in table.now generation head.now }
{
    if head[0] != OPEN || generation_of(head) != generation {
        return Head::Idle;
    }
    if is_spelled(table, head) {
        Head::Counts {
            place: place_of(head),
        }
    } else {
        Head::Bad
    }
}

/// Whether a head has the mark, zero in byte 5, and a page of the configuration.
#[tactic(auto, unfolding(crate::specs::Heads::is_spelled))]
fn is_spelled(table: &ChunkTable, head: &[u8; PAGE_LENGTH]) -> bool
    ensures { result ≡ is_spelled_head table.now head.now }
{
    let (_, behind) = head.split_at(1);
    let (mark, _) = behind.split_at(3);
    mark == MARK && head[5] == 0 && has_page(table, place_of(head))
}

/// Whether the configuration has a page.
fn has_page(table: &ChunkTable, place: Place) -> bool
    ensures { result ≡ has_page_in table.now place.space place.page }
{
    place.space < table.spaces() && u32::from(place.page) < table.pages(place.space)
}

#[tactic(auto, unfolding(crate::specs::Heads::place_in))]
fn place_of(head: &[u8; PAGE_LENGTH]) -> Place
    ensures { result ≡ place_in head.now }
{
    let (_, behind) = head.split_at(6);
    let (front, _) = behind.split_at(2);
    let mut page = [0; 2];
    page.copy_from_slice(front);
    Place {
        space: head[4],
        page: u16::from_be_bytes(page),
    }
}

#[tactic(auto, unfolding(crate::specs::Heads::generation_in))]
fn generation_of(head: &[u8; PAGE_LENGTH]) -> u64
    ensures { result ≡ generation_in head.now }
{
    let (_, behind) = head.split_at(8);
    let (front, _) = behind.split_at(8);
    number(front)
}
