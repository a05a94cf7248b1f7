//! Cases of what no command reaches: streams and drives in memory, and the writer over a drive.
#![tactic(auto)]

#[cfg(test)]
mod devices;
