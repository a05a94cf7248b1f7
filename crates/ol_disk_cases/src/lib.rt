//! Cases of the disk and the shelf in memory, and of the pair of anchors under stops, which no command shows.
//! Pages and anchors as bytes are vectors of `ol_vectors`. What they expect was worked out from the written formats, apart
//! from this repository's code.
#![tactic(auto)]

#[cfg(test)]
mod disks;
#[cfg(test)]
mod pairs;
#[cfg(test)]
mod shelves;
