//! Worked rows: what commands print and leave on disk and tape, as scenes.
#![tactic(auto)]

use std::io;

fn main(rt: HostRuntime) -> io::Result<()> {
    ol_scenes::play(&rt)
}
