//! The anchor as a value, and its bytes.

ghost use Rattle.std.specs.Prelude.{◌≡◌, ◌+◌, ◌*◌, ◌<◌, ◌≤◌, ◌++◌, IfOk, IsErrOf, Ok, Some, bytes_eq, drop, length, nat_le, slice_index, take, ℕ, ◌==◌, ◌^◌, ◌||◌};
ghost use Rattle.std.specs.List.{list_all};
ghost use Rattle.std.proofs.Common.{get_or};
ghost use Rattle.ol_bytes.specs.Numbers.{numbers_bytes};
ghost use Rattle.ol_reserve.specs.Anchor.{HasEach, IsAnchor, anchor_bytes, are_downs as are_downs_lem, are_states as are_states_lem, front_bytes, anchor_in_limits, is_known, is_low, is_number, known_of, anchor_numbers as numbers_of_lem};
ghost use Rattle.ol_chunks.specs.Reading.{config_in_text};
ghost use Rattle.ol_values.specs.Config.{Config};
ghost use Rattle.ol_reserve.specs.declared.anchor.Anchor.{Anchor as AnchorValue};

use crate::ConfigText;
use ol_bytes::{clear_from, put, put_numbers, read_numbers};
use ol_chunks::{ConfigFault, parse_config};
use ol_ports::PAGE_LENGTH;

/// The most spaces that an installation has.
pub const SPACES: usize = 16;

/// Where the fields of an anchor stand: its state, its numbers, the states of the spaces, where they went down, the known
/// levels, and the length of the text.
const STATE_AT: usize = 4;

const NUMBERS_AT: usize = 8;

const STATES_AT: usize = 128;

const DOWN_AT: usize = 144;

const KNOWN_AT: usize = 272;

const LENGTH_AT: usize = 784;

/// The states of an installation.
const ONLINE: u8 = 1;

const RESTORING: u8 = 2;

/// The states of a space that is there.
const UP: u8 = 1;

const DOWN: u8 = 2;

/// The greatest number of an anchor: 2^62.
const MOST: u64 = 4611686018427387904;

/// The greatest of them that an opening takes: 2^60.
const MOST_OPENED: u64 = 1152921504606846976;

/// The known levels of a space are four numbers.
const LEVEL_NUMBERS: usize = 4 * SPACES;

/// What an installation is as of its last checkpoint. Positions count from 1. Arrays go by the numbers of spaces.
#[derive(Debug, PartialEq, Eq, Drop)]
pub struct Anchor {
    /// 1 online, 2 being restored.
    pub state: u8,
    /// Each anchor that is written has the serial after that of the one before.
    pub serial: u64,
    /// The incarnation of the installation, which rises with each cold restore.
    pub incarnation: u64,
    /// The position of the checkpoint.
    pub position: u64,
    /// The generation of the entries of the physical log that count.
    pub generation: u64,
    /// The number of the next archive.
    pub next_archive: u64,
    /// The greatest unique number of a log file that is backed up with all lower ones.
    pub backed: u64,
    /// The unique number of the current log file.
    pub uniq: u64,
    /// The least number of a transaction that is open at the checkpoint, else the position after the checkpoint's.
    pub need: u64,
    /// Of each space 1 up, 2 down, 0 where there is none.
    pub states: [u8; SPACES],
    /// The journal's length as the space went down, 0 where it is not down.
    pub down_at: [u64; SPACES],
    /// The known archive of level 0, its number and cut, 0 for none.
    pub zero: [(u64, u64); SPACES],
    /// The known archive of level 1, its number and cut, 0 for none.
    pub one: [(u64, u64); SPACES],
    /// The text of the configuration.
    pub text: ConfigText,
}

impl Anchor {
    /// Writes the anchor over all of `page`, behind an open gate.
    #[tactic(auto, unfolding(crate::specs::Anchor::anchor_bytes))]
    pub fn encode(&self, page: &mut [u8; PAGE_LENGTH])
        ensures { page.new ≡ anchor_bytes 1 self.now }
    {
        let at = put_front(page, self);
        let text = self.text.bytes();
        let at = put(page, at, &(text.len() as u16).to_be_bytes());
        let at = put(page, at, text);
        clear_from(page, at);
    }

    /// The anchor of a page, whatever its gate byte is.
    ///
    /// `BadAnchor` comes exactly where the bytes are no anchor: its state is 1 or 2, its numbers are at most 2^62, its text is a
    /// configuration, the spaces of the configuration alone are up or down, and only a space that is down tells where.
    /// It takes no memory.
    pub fn decode(page: &[u8; PAGE_LENGTH]) -> Result<Anchor, AnchorFault>
        ensures found { IfOk result (λ a. IsAnchor a × (page.now ≡ anchor_bytes (slice_index page.now 0) a)) }
        ensures only { (gate : ℕ) (a : AnchorValue) → IsAnchor a → page.now ≡ anchor_bytes gate a → IfOk result (λ x. x ≡ a) }
        ensures bad { IsErrOf result AnchorFault.BadAnchor → (gate : ℕ) (a : AnchorValue) → IsAnchor a → page.now ≡ anchor_bytes gate a → ⊥ }
    {
        let Some(anchor) = told(page) else {
            return Err(AnchorFault::BadAnchor);
        };
        if !is_spelled(&anchor, page) || !is_in_limits(&anchor) {
            return Err(AnchorFault::BadAnchor);
        }
        match spaces_of(anchor.text.bytes()) {
            Ok(spaces) => {
                if are_states(spaces, &anchor.states) {
                    Ok(anchor)
                } else {
                    Err(AnchorFault::BadAnchor)
                }
            }
            Err(fault) => Err(fault),
        }
    }

    /// Whether its serial, its incarnation, its generation, its unique numbers and its numbers of archives are at most 2^60.
    /// An opening takes no greater ones, so that no command reaches the bound of an anchor's numbers, 2^62.
    #[tactic(auto, unfolding(crate::specs::Anchor::is_low))]
    pub fn is_low(&self) -> bool
        ensures { result ≡ is_low self.now }
    {
        let numbers = [
            self.serial,
            self.incarnation,
            self.generation,
            self.next_archive,
            self.backed,
            self.uniq,
        ];
        are_low(&numbers) && have_low_numbers(&self.zero) && have_low_numbers(&self.one)
    }
}

fn are_low(numbers: &[u64]) -> bool
    ensures { result ≡ list_all (λ n. nat_le n (2 ^ 60)) numbers.now }
{
    numbers.iter().all(|n| *n <= MOST_OPENED)
}

fn have_low_numbers(known: &[(u64, u64)]) -> bool
    ensures { result ≡ list_all (λ (k : ℕ × ℕ). nat_le k.0 (2 ^ 60)) known.now }
{
    known.iter().all(|k| k.0 <= MOST_OPENED)
}

/// Whether a page has the bytes of an anchor, whatever its gate byte is.
fn is_spelled(anchor: &Anchor, page: &[u8; PAGE_LENGTH]) -> bool
    ensures { result ≡ bytes_eq (drop 1 page.now) (drop 1 (anchor_bytes 1 anchor.now)) }
{
    let mut spelled = [0; PAGE_LENGTH];
    anchor.encode(&mut spelled);
    let (_, body) = page.split_at(1);
    let (_, wanted) = spelled.split_at(1);
    body == wanted
}

/// Whether an anchor is within its limits, but for what its configuration says.
#[tactic(auto, unfolding(crate::specs::Anchor::anchor_in_limits))]
fn is_in_limits(anchor: &Anchor) -> bool
    ensures limits { result ≡ anchor_in_limits anchor.now }
    ensures each { HasEach anchor.now }
{
    let numbers = [
        anchor.serial,
        anchor.incarnation,
        anchor.position,
        anchor.generation,
        anchor.next_archive,
        anchor.backed,
        anchor.uniq,
        anchor.need,
    ];
    (anchor.state == ONLINE || anchor.state == RESTORING)
        && are_numbers(&numbers)
        && are_numbers(&anchor.down_at)
        && are_known(&anchor.zero)
        && are_known(&anchor.one)
        && are_downs(&anchor.states, &anchor.down_at)
}

fn are_numbers(numbers: &[u64]) -> bool
    ensures { result ≡ list_all is_number numbers.now }
{
    numbers.iter().all(|n| *n <= MOST)
}

fn are_known(known: &[(u64, u64)]) -> bool
    ensures { result ≡ list_all is_known known.now }
{
    known.iter().all(|k| k.0 <= MOST && k.1 <= MOST)
}

/// Whether a space that is not down tells no position.
fn are_downs(states: &[u8], down_at: &[u64]) -> bool
    ensures { result ≡ are_downs_lem states.now down_at.now }
{
    states
        .iter()
        .zip(down_at)
        .all(|(state, at)| *state == DOWN || *at == 0)
}

/// Whether the first spaces are up or down, and no others are there.
fn are_states(spaces: u8, states: &[u8; SPACES]) -> bool
    requires { spaces ≤ 16 }
    ensures { result ≡ are_states_lem spaces states.now }
{
    let (there, beyond) = states.split_at(spaces as usize);
    are_there(there) && are_absent(beyond)
}

fn are_there(states: &[u8]) -> bool
    ensures { result ≡ list_all (λ s. (s == 1) || (s == 2)) states.now }
{
    states.iter().all(|state| *state == UP || *state == DOWN)
}

fn are_absent(states: &[u8]) -> bool
    ensures { result ≡ list_all (λ s. s == 0) states.now }
{
    states.iter().all(|state| *state == 0)
}

/// How many spaces the configuration of a text has. `BadAnchor` comes where the text is none.
fn spaces_of(text: &[u8]) -> Result<u8, AnchorFault>
    ensures found { IfOk result (λ n. (c : Config) × (config_in_text text.now ≡ Ok c) × (n ≡ length c.spaces)) }
    ensures few { IfOk result (λ n. n ≤ 16) }
    ensures bad { IsErrOf result AnchorFault.BadAnchor → (c : Config) → config_in_text text.now ≡ Ok c → ⊥ }
{
    match parse_config(text) {
        Ok(table) => Ok(table.spaces()),
        Err(ConfigFault::BadConfig { line: _ }) => Err(AnchorFault::BadAnchor),
    }
}

/// Why bytes give no anchor.
#[derive(Clone, Copy, Debug, PartialEq, Eq)]
pub enum AnchorFault {
    /// The bytes are not an anchor of the grammar.
    BadAnchor,
}

/// The anchor that a page tells, if its text is not too long: field by field, whatever else stands on the page.
fn told(page: &[u8; PAGE_LENGTH]) -> Option<Anchor>
    ensures { (gate : ℕ) (a : AnchorValue) → IsAnchor a → page.now ≡ anchor_bytes gate a → result ≡ Some a }
{
    let text = text_of(page)?;
    let numbers = numbers_of(page);
    Some(Anchor {
        state: page[STATE_AT],
        serial: numbers[0],
        incarnation: numbers[1],
        position: numbers[2],
        generation: numbers[3],
        next_archive: numbers[4],
        backed: numbers[5],
        uniq: numbers[6],
        need: numbers[7],
        states: states_of(page),
        down_at: downs_of(page),
        zero: levels_of(page, 0),
        one: levels_of(page, 2),
        text,
    })
}

/// The numbers that a page tells.
fn numbers_of(page: &[u8; PAGE_LENGTH]) -> [u64; 8]
    ensures { (gate : ℕ) (a : AnchorValue) → IsAnchor a → page.now ≡ anchor_bytes gate a → result ≡ numbers_of_lem a }
{
    let (_, front) = page.split_at(NUMBERS_AT);
    let mut numbers = [0; 8];
    read_numbers(front, &mut numbers);
    numbers
}

/// The states of the spaces that a page tells.
fn states_of(page: &[u8; PAGE_LENGTH]) -> [u8; SPACES]
    ensures { (gate : ℕ) (a : AnchorValue) → IsAnchor a → page.now ≡ anchor_bytes gate a → result ≡ a.states }
{
    let (_, front) = page.split_at(STATES_AT);
    let (front, _) = front.split_at(SPACES);
    let mut states = [0; SPACES];
    states.copy_from_slice(front);
    states
}

/// Where the spaces went down, as a page tells it.
fn downs_of(page: &[u8; PAGE_LENGTH]) -> [u64; SPACES]
    ensures { (gate : ℕ) (a : AnchorValue) → IsAnchor a → page.now ≡ anchor_bytes gate a → result ≡ a.down_at }
{
    let (_, front) = page.split_at(DOWN_AT);
    let mut downs = [0; SPACES];
    read_numbers(front, &mut downs);
    downs
}

/// A known level of each space that a page tells: level 0 stands at place 0 of the four numbers of a space, level 1 at place 2.
fn levels_of(page: &[u8; PAGE_LENGTH], place: usize) -> [(u64, u64); SPACES]
    requires { place ≤ 2 }
    ensures zero { place ≡ 0 → (gate : ℕ) (a : AnchorValue) → IsAnchor a → page.now ≡ anchor_bytes gate a → result ≡ a.zero }
    ensures one { place ≡ 2 → (gate : ℕ) (a : AnchorValue) → IsAnchor a → page.now ≡ anchor_bytes gate a → result ≡ a.one }
{
    let (_, front) = page.split_at(KNOWN_AT);
    let mut known = [0; LEVEL_NUMBERS];
    read_numbers(front, &mut known);
    levels(&known, place)
}

/// The text that a page tells, if it is not too long.
fn text_of(page: &[u8; PAGE_LENGTH]) -> Option<ConfigText>
    ensures { (gate : ℕ) (a : AnchorValue) → IsAnchor a → page.now ≡ anchor_bytes gate a → result ≡ Some a.text }
{
    let (_, behind) = page.split_at(LENGTH_AT);
    let (size, text) = behind.split_at(2);
    let count = u16::from_be_bytes([size[0], size[1]]) as usize;
    if count > text.len() {
        return None;
    }
    ConfigText::new(text.split_at(count).0)
}

/// One level of each space, of the numbers of both: number and cut, which for each space stand from this place on.
fn levels(known: &[u64; LEVEL_NUMBERS], place: usize) -> [(u64, u64); SPACES]
    requires { place ≤ 2 }
    ensures whole { length result ≡ 16 }
    ensures each { (k : ℕ) → k < 16 → get_or result k (0, 0) ≡ (get_or known.now (4 * k + place) 0, get_or known.now (4 * k + place + 1) 0) }
{
    let mut levels = [(0, 0); SPACES];
    for space in 0..SPACES {
        levels[space] = (known[4 * space + place], known[4 * space + place + 1]);
    }
    levels
}

/// Writes what stands in front of the text's length, and gives the index behind it.
#[tactic(auto, unfolding(crate::specs::Anchor::front_bytes))]
fn put_front(page: &mut [u8], anchor: &Anchor) -> usize
    requires { length page.old ≡ 2048 }
    ensures next { result ≡ 784 }
    ensures front { take result page.new ≡ front_bytes 1 anchor.now }
{
    let at = put(page, 0, &[1, b'A', b'N', b'C', anchor.state, 0, 0, 0]);
    let at = put_numbers(
        page,
        at,
        &[
            anchor.serial,
            anchor.incarnation,
            anchor.position,
            anchor.generation,
            anchor.next_archive,
            anchor.backed,
            anchor.uniq,
            anchor.need,
        ],
    );
    let at = put(page, at, &[0; 56]);
    let at = put(page, at, &anchor.states);
    let at = put_numbers(page, at, &anchor.down_at);
    put_known(page, at, &anchor.zero, &anchor.one)
}

/// Writes the known levels of each space, and gives the index behind them.
fn put_known(page: &mut [u8], at: usize, zero: &[(u64, u64)], one: &[(u64, u64)]) -> usize
    requires same { length one.now ≡ length zero.now }
    requires room { at + 32 * length zero.now ≤ length page.old }
    ensures next { result ≡ at + 32 * length zero.now }
    ensures front { take result page.new ≡ take at page.old ++ numbers_bytes (known_of zero.now one.now) }
{
    let mut end = at;
    for (space, level) in zero.iter().enumerate() {
        let next = one[space];
        end = put_numbers(page, end, &[level.0, level.1, next.0, next.1]);
    }
    end
}
