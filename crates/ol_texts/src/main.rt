//! Words, configurations and scripts that are refused, as scenes: which line of a text is named.
#![tactic(auto)]

use std::io;

fn main(rt: HostRuntime) -> io::Result<()> {
    ol_scenes::play(&rt)
}
