//! What the general instructions of x86-64 compute and which flags they leave, as definitions that the
//! emulator and the proofs about all inputs share. They stand in `specs/`: words of w bits
//! (`Words`, `SignedNumbers`), expressions over them (`Exprs`), the row of each operation (`Rows`), its
//! flags (`FlagRules`), and the conditions (`Conditions`). There is no code; what these definitions must
//! have, if they say what the instructions do, is proved in the laws of `src/`, each for all numbers. By
//! `formed_laws` the widths in them agree (`Formed`, `FormedRows`).
//!
//! For example `flags_after ops.Cmp 8 3 5 before` are the flags after a comparison of the bytes 3 and 5.
//! By `conditions_tell_the_order` the condition `b` then holds: `cond_of conds.B` of them is
//! `Some true`, since 3 is below 5.
#![tactic(auto)]

pub mod condition_laws;
pub mod flag_laws;
pub mod formed_laws;
pub mod laws;
