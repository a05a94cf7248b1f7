//! Configurations: where their spaces and areas lie.

use ol_chunks::{Area, ChunkTable, Name, parse_config};
use std::test::Fail;

/// Two spaces, of which root has all areas.
pub const SMALL_CONFIG: &str =
    "space root 100\nspace data1 8\nphyslog root 8\nlogs root 3 20\nbefore 2\n";

/// The same with short log files.
const SHORT_LOGS_CONFIG: &str =
    "space root 100\nspace data1 8\nphyslog root 8\nlogs root 3 4\nbefore 2\n";

/// Three spaces, of which one is for the log files.
pub const THREE_SPACES_CONFIG: &str =
    "space root 60\nspace logs 40\nspace data1 8\nphyslog root 8\nlogs logs 3 4\nbefore 2\n";

/// The small configuration with room for one captured image.
const ONE_IMAGE_CONFIG: &str =
    "space root 100\nspace data1 8\nphyslog root 8\nlogs root 3 20\nbefore 1\n";

const LARGE_CONFIG: &str = "space root 3012\nspace data1 2000\nspace data2 2000\n\
    physlog root 200\nlogs root 6 100\nbefore 256\n";

/// Spaces of several chunks, and all areas in the space behind root.
const CHUNKS_CONFIG: &str =
    "space root 13 5\nspace data1 30 2 3\nphyslog data1 8\nlogs data1 3 4\nbefore 7\n";

/// What is known of a configuration: its text, of each space its name, its data pages and whether it is critical,
/// of each chunk its pages and its space, and the areas.
struct Known {
    text: &'static str,
    spaces: &'static [(&'static [u8], u32, bool)],
    chunks: &'static [(u32, Option<u8>)],
    physical: (u8, u32, u32),
    logs: (u8, u32, u32, u32),
    before: (u8, u32),
    places: &'static [(u8, u16, Option<(u8, u32)>)],
}

const SMALL: Known = Known {
    text: SMALL_CONFIG,
    spaces: &[(b"root", 12, true), (b"data1", 8, false)],
    chunks: &[(100, Some(0)), (8, Some(1)), (2, None)],
    physical: (0, 12, 8),
    logs: (0, 28, 3, 20),
    before: (2, 2),
    places: &[
        (0, 0, Some((0, 88))),
        (0, 11, Some((0, 99))),
        (0, 12, None),
        (1, 0, Some((1, 0))),
        (1, 7, Some((1, 7))),
        (1, 8, None),
        (1, 65535, None),
        (2, 0, None),
        (255, 0, None),
    ],
};

const SHORT_LOGS: Known = Known {
    text: SHORT_LOGS_CONFIG,
    spaces: &[(b"root", 60, true), (b"data1", 8, false)],
    chunks: &[(100, Some(0)), (8, Some(1)), (2, None)],
    physical: (0, 12, 8),
    logs: (0, 28, 3, 4),
    before: (2, 2),
    places: &[(0, 0, Some((0, 40))), (0, 59, Some((0, 99))), (0, 60, None)],
};

const THREE_SPACES: Known = Known {
    text: THREE_SPACES_CONFIG,
    spaces: &[
        (b"root", 32, true),
        (b"logs", 28, true),
        (b"data1", 8, false),
    ],
    chunks: &[(60, Some(0)), (40, Some(1)), (8, Some(2)), (2, None)],
    physical: (0, 12, 8),
    logs: (1, 0, 3, 4),
    before: (3, 2),
    places: &[
        (0, 0, Some((0, 28))),
        (0, 31, Some((0, 59))),
        (1, 0, Some((1, 12))),
        (1, 27, Some((1, 39))),
        (1, 28, None),
        (2, 7, Some((2, 7))),
    ],
};

const ONE_IMAGE: Known = Known {
    text: ONE_IMAGE_CONFIG,
    spaces: &[(b"root", 12, true), (b"data1", 8, false)],
    chunks: &[(100, Some(0)), (8, Some(1)), (1, None)],
    physical: (0, 12, 8),
    logs: (0, 28, 3, 20),
    before: (2, 1),
    places: &[(0, 0, Some((0, 88)))],
};

const LARGE: Known = Known {
    text: LARGE_CONFIG,
    spaces: &[
        (b"root", 2000, true),
        (b"data1", 2000, false),
        (b"data2", 2000, false),
    ],
    chunks: &[
        (3012, Some(0)),
        (2000, Some(1)),
        (2000, Some(2)),
        (256, None),
    ],
    physical: (0, 12, 200),
    logs: (0, 412, 6, 100),
    before: (3, 256),
    places: &[
        (0, 0, Some((0, 1012))),
        (0, 1999, Some((0, 3011))),
        (0, 2000, None),
        (2, 1999, Some((2, 1999))),
    ],
};

const CHUNKS: Known = Known {
    text: CHUNKS_CONFIG,
    spaces: &[(b"root", 6, true), (b"data1", 7, true)],
    chunks: &[
        (13, Some(0)),
        (5, Some(0)),
        (30, Some(1)),
        (2, Some(1)),
        (3, Some(1)),
        (7, None),
    ],
    physical: (2, 0, 8),
    logs: (2, 16, 3, 4),
    before: (5, 7),
    places: &[
        (0, 0, Some((0, 12))),
        (0, 1, Some((1, 0))),
        (0, 5, Some((1, 4))),
        (0, 6, None),
        (1, 0, Some((2, 28))),
        (1, 1, Some((2, 29))),
        (1, 2, Some((3, 0))),
        (1, 4, Some((4, 0))),
        (1, 6, Some((4, 2))),
        (1, 7, None),
    ],
};

/// Whether a table has the spaces that are known, and finds them by their names.
fn has_spaces(table: &ChunkTable, known: &Known) -> bool {
    for (space, (name, pages, critical)) in known.spaces.iter().enumerate() {
        if space >= usize::from(table.spaces()) {
            return false;
        }
        let space = space as u8;
        let is_told = table.name(space).bytes() == *name && table.pages(space) == *pages;
        if !is_told || table.critical(space) != *critical || found(table, name) != Some(space) {
            return false;
        }
    }
    usize::from(table.spaces()) == known.spaces.len() && found(table, b"nosuch").is_none()
}

/// The space of a name.
fn found(table: &ChunkTable, name: &[u8]) -> Option<u8> {
    table.find(&Name::new(name)?)
}

/// Whether a table has the chunks that are known, and no page behind them.
fn has_chunks(table: &ChunkTable, known: &Known) -> bool {
    for (chunk, (pages, space)) in known.chunks.iter().enumerate() {
        if chunk >= usize::from(table.chunks()) {
            return false;
        }
        let chunk = chunk as u8;
        if table.chunk_pages(chunk) != *pages || table.space_of(chunk) != *space {
            return false;
        }
    }
    usize::from(table.chunks()) == known.chunks.len() && table.chunk_pages(table.chunks()) == 0
}

/// Whether an area begins at this page of this chunk, and has so many parts of so many pages.
fn is_area(area: Area, chunk: u8, first: u32, count: u32, pages: u32) -> bool {
    (area.chunk, area.first) == (chunk, first) && (area.count, area.pages) == (count, pages)
}

/// Whether a table has the areas that are known.
fn has_areas(table: &ChunkTable, known: &Known) -> bool {
    let (physical, logs, before) = (known.physical, known.logs, known.before);
    is_area(table.physical(), physical.0, physical.1, physical.2, 2)
        && is_area(table.logs(), logs.0, logs.1, logs.2, logs.3)
        && is_area(table.before(), before.0, 0, before.1, 1)
}

/// Whether the pages that are known lie in their places.
fn has_places(table: &ChunkTable, known: &Known) -> bool {
    for (space, page, place) in known.places {
        if table.place(*space, *page) != *place {
            return false;
        }
    }
    true
}

/// Whether a table tells this text, and writes nothing behind it.
fn has_text(table: &ChunkTable, text: &str) -> bool {
    let mut told = [0xff; 1024];
    let length = table.text(&mut told);
    let (front, behind) = told.split_at(length);
    front == text.as_bytes() && behind.first() == Some(&0xff)
}

#[test]
fn configurations_lie_where_they_should(rt: HostRuntime) -> Result<(), Fail> {
    for known in &[SMALL, SHORT_LOGS, THREE_SPACES, ONE_IMAGE, LARGE, CHUNKS] {
        let Ok(table) = parse_config(known.text.as_bytes()) else {
            panic!(rt; "a configuration is refused");
        };
        let told = [
            has_spaces(&table, known),
            has_chunks(&table, known),
            has_areas(&table, known),
            has_places(&table, known),
            has_text(&table, known.text),
        ];
        assert_eq!(rt; told, [true; 5], "of {}", known.text);
    }
    Ok(())
}
