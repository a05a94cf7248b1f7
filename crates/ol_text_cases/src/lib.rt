//! Cases of configurations and scripts as values: where a configuration's spaces and areas lie, the lines of each form,
//! and the texts of entries. Texts that are refused are scenes of `ol_texts`. What they expect was worked out from the
//! written formats, apart from this repository's code.
#![tactic(auto)]

#[cfg(test)]
mod configs;
#[cfg(test)]
mod scripts;
#[cfg(test)]
mod values;
