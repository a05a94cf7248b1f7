//! Bad days: stops, faults, lost and damaged things, and what commands make of them, as scenes.
#![tactic(auto)]

use std::io;

fn main(rt: HostRuntime) -> io::Result<()> {
    ol_scenes::play(&rt)
}
