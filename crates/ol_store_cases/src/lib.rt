//! Cases of the page store over a disk in memory: what an opening reads where a stop came within each call, and what the
//! store's calls answer. What they expect was worked out from the written formats, apart from this repository's code.
#![tactic(auto)]

pub mod rig;
#[cfg(test)]
mod shown;
#[cfg(test)]
mod stops;
#[cfg(test)]
mod values;
