//! The rules of an installation, as definitions in `specs/`: the journal and what it gives, transactions and their
//! effects, soundness, row locks, savesets, the ring of log files, objects on tape and the plan of a restore, and what
//! a disk stands for. None of them names the engine.
#![tactic(auto)]
