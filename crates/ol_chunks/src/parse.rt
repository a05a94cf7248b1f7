//! The reading of a configuration's text.

ghost use Rattle.std.specs.Prelude.{◌≡◌, ℕ, Err, IfOk, Ok, false};
ghost use Rattle.ol_chunks.specs.Limits.{IsConfig};
ghost use Rattle.ol_chunks.specs.Reading.{config_in_text, may_end as may_end_here};

use crate::draft::{Draft, Due};
use crate::table::{ChunkTable, TEXT_LIMIT};
use ol_values::Bytes;
use ol_words::cut_at_first;

/// Why there is no configuration.
#[derive(Clone, Copy, Debug, PartialEq, Eq)]
pub enum ConfigFault {
    /// The first line off the grammar or above a limit, from 1; a line that is missing has the number
    /// after the last.
    BadConfig { line: u32 },
}

/// Reads the text of a configuration. `BadConfig` names the first line that is off the grammar or breaks a
/// limit, and comes exactly where there is one. A text of more than 1,024 bytes is bad in the line of the
/// next byte, unless an earlier line is; what stands behind its first 1,024 bytes isn't looked at.
pub fn parse_config(bytes: &[u8]) -> Result<ChunkTable, ConfigFault>
    ensures table { IfOk result (λ t. config_in_text bytes.now ≡ Ok t) }
    ensures config { IfOk result IsConfig }
    ensures bad { (n : ℕ) → result ≡ Err (ConfigFault.BadConfig n) → config_in_text bytes.now ≡ Err n }
{
    let mut draft = Draft::new();
    let mut number = 1;
    let mut rest = &bytes[..bytes.len().min(TEXT_LIMIT)];
    while let Some((line, behind)) = cut_at_first(b'\n', rest) {
        if !draft.read_line(line) {
            return Err(ConfigFault::BadConfig { line: number });
        }
        number += 1;
        rest = behind;
    }
    // Longer texts are bad behind what was read of them.
    let Some(text) = Bytes::new(bytes) else {
        return Err(ConfigFault::BadConfig { line: number });
    };
    if !may_end(draft.due, rest) {
        return Err(ConfigFault::BadConfig { line: number });
    }
    let Draft { due: _, layout } = draft;
    Ok(ChunkTable::new(layout, text))
}

// A text may end here, behind its last line.
fn may_end(due: Due, rest: &[u8]) -> bool
    ensures { result ≡ may_end_here false due rest.now }
{
    match due {
        Due::Nothing => rest.is_empty(),
        Due::Spaces | Due::Logs | Due::Before => false,
    }
}
