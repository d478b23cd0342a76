//! What holds of every voter: the facts of its state that whatever it is given keeps, that its actions have room in such a
//! state, and that its reactions end.
//!
//! `laws` has the statements, each as the contract of a function that does nothing; nothing else is here. They speak of
//! the definitions of `pws_protocol`, and a voter's code is to have them of its own state.
//!
//! # The order of reading
//!
//! | `specs/` | |
//! |---|---|
//! | `Enabled` | why an action is done: what its own test says |
//! | `Fitting` | that `Fits` of `pws_protocol` is kept |
//! | `Staying` | that who a voter is stays as it is |
//! | `Rest` | how much a voter has left to do, a number that each action but the last of a call lowers |
//! | `Room` | that no number runs over as an action is done or a tick says something again, and each statement is in range |
//!
//! Nothing else has to be believed; `proofs/` serve the prover alone. There a file goes by the word of its row in
//! docs/PROTOCOL.md: `Hearing`, `Ticking`, `Proposing`, `Accepting` and so on have what fits after each, and `Keeping`
//! joins them; `Rooms` has why each action has room, `Resting` what each leaves to do, and `Ending` that a reaction ends.
#![tactic(auto)]

pub mod laws;
