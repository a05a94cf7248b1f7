//! When an archive does not start.

ghost use Rattle.std.specs.Prelude.{◌≡◌, ◌<◌, ◌≤◌, None, Some, find, position, true, ℕ};
ghost use Rattle.ol_archive_start.specs.Refusing.{AreSmall, archiver_in, first_told, is_down, is_orphan, parent_of, refusal_of};
ghost use Rattle.ol_archive_turns.specs.Turns.{runs_in};

use ol_archive_turns::Archives;
use ol_reserve::Anchor;
use ol_running::Running;
use ol_values::Reply;

// How an anchor marks a space that is up.
const UP: u8 = 1;

/// The refusal of an archive of a level, from 0 to 2, of these spaces, if there is one: the first that is down, or else the archiver that
/// runs an archive with the first of them that is in one, or else the first without an archive of the level below from which this one
/// could go on.
pub fn refusal(anchor: &Anchor, archives: &Archives, level: u8, spaces: &[u8]) -> Option<Reply>
    requires spaces { AreSmall spaces.now }
    requires level { level ≤ 2 }
    ensures { result ≡ refusal_of anchor.now archives.now level spaces.now }
{
    match first_down(anchor, spaces) {
        Some(space) => return Some(Reply::SpaceDown { space }),
        None => {}
    }
    match first_archiver(archives, spaces) {
        Some(archiver) => return Some(Reply::Archiving { archiver }),
        None => {}
    }
    match first_orphan(anchor, level, spaces) {
        Some(space) => Some(Reply::NoParent {
            space,
            level: level - 1,
        }),
        None => None,
    }
}

// The first of these spaces that is down.
fn first_down(anchor: &Anchor, spaces: &[u8]) -> Option<u8>
    requires { AreSmall spaces.now }
    ensures { result ≡ find (is_down anchor.now) spaces.now }
{
    for space in spaces {
        if is_down(anchor, *space) {
            return Some(*space);
        }
    }
    None
}

// Whether a space is down.
fn is_down(anchor: &Anchor, space: u8) -> bool
    requires { space < 16 }
    ensures { result ≡ is_down anchor.now space }
{
    anchor.states[usize::from(space)] != UP
}

// The archiver that runs an archive with the first of these spaces that is in one.
fn first_archiver(archives: &Archives, spaces: &[u8]) -> Option<u8>
    ensures { result ≡ first_told (archiver_in archives.now) spaces.now }
{
    for space in spaces {
        match archiver_of(archives, *space) {
            Some(archiver) => return Some(archiver),
            None => {}
        }
    }
    None
}

// The archiver that runs an archive with a space.
fn archiver_of(archives: &Archives, space: u8) -> Option<u8>
    ensures { result ≡ archiver_in archives.now space }
{
    match place_of(archives, space) {
        Some(place) => Some(place as u8 + 1),
        None => None,
    }
}

// The place of the first archive with a space.
fn place_of(archives: &Archives, space: u8) -> Option<usize>
    ensures value { result ≡ position (runs_in space) archives.now }
    ensures there { (place : ℕ) → result ≡ Some place → place < 4 }
{
    archives.iter().position(|running| runs_in(running, space))
}

// Whether an archive that may run has a space.
fn runs_in(running: &Option<Running>, space: u8) -> bool
    ensures { result ≡ runs_in space running.now }
{
    match running {
        Some(running) => running.cursor.archives(space),
        None => false,
    }
}

// The first of these spaces without an archive from which one of this level could go on.
fn first_orphan(anchor: &Anchor, level: u8, spaces: &[u8]) -> Option<u8>
    requires { AreSmall spaces.now }
    ensures value { result ≡ find (is_orphan anchor.now level) spaces.now }
    ensures above { (space : ℕ) → result ≡ Some space → 0 < level }
{
    for space in spaces {
        if is_orphan(anchor, level, *space) {
            return Some(*space);
        }
    }
    None
}

// Whether there is no archive of a space from which one of this level could go on.
fn is_orphan(anchor: &Anchor, level: u8, space: u8) -> bool
    requires { space < 16 }
    ensures value { result ≡ is_orphan anchor.now level space }
    ensures above { result ≡ true → 0 < level }
{
    let (number, _) = parent_of(anchor, level, space);
    level > 0 && number == 0
}

/// The known archive of a space from which one of this level goes on, by its number and its cut; 0 and 0 where there is none, as at level 0.
pub fn parent_of(anchor: &Anchor, level: u8, space: u8) -> (u64, u64)
    requires { space < 16 }
    ensures { result ≡ parent_of anchor.now level space }
{
    match level {
        0 => (0, 0),
        1 => anchor.zero[usize::from(space)],
        _ => anchor.one[usize::from(space)],
    }
}
