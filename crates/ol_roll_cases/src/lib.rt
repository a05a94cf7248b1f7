//! Cases of the roll forward: literal records that are taken, passed over, applied or out of place. What they expect was worked
//! out from the written rules, apart from this repository's code.
#![tactic(auto)]

#[cfg(test)]
mod taking;
