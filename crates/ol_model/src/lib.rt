//! The engine as a machine, in definitions: its state, its turns, the turns that the lines of a script make, and what a
//! history of them appends, settles and puts on tape.
#![tactic(auto)]
