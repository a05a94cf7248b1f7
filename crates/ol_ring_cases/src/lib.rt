//! Cases of the log ring over a disk in memory: what a scan finds where files were filled, backed up and used again, and
//! where a stop came within each call. What they expect was worked out from the written formats, apart from this
//! repository's code.
#![tactic(auto)]

#[cfg(test)]
mod rings;
#[cfg(test)]
mod stops;
