//! What holds of journals, whoever wrote them: each law is the contract of a function with an empty body.
#![tactic(auto)]

mod laws;

pub use laws::{
    chain_gives_last_cut, closed_transactions_drop_out, record_belongs_to_open_transaction,
    records_fold_on, rest_of_rollback_is_owed, rollback_leaves_effects, sound_prefix,
    starts_alike_stay_alike,
};
