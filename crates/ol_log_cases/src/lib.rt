//! Cases of the log in memory: the journal that is kept, and the table of row locks. Records and log pages as bytes are
//! vectors of `ol_vectors`. What they expect was worked out from the written rules, apart from this repository's code.
#![tactic(auto)]

#[cfg(test)]
mod journal;
#[cfg(test)]
mod locks;
