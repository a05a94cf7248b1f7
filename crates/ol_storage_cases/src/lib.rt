//! Cases of the storage over a disk in memory: what an opening finds where a stop came within each call of the disk. What they
//! expect was worked out from the written formats, apart from this repository's code.
#![tactic(auto)]

pub mod disks;
#[cfg(test)]
mod stops;
