//! Schedules: what happens in a run of the simulator, as text.
//!
//! - `first_form` reads a schedule of the first form, which says the requests of one caller to one replica.
//! - `hexadecimal` reads bytes from lower-case hexadecimal.
//! - `statuses` has the statuses with which the simulator ends.
//! - `laws` states what the definitions of the readers mean.
//!
//! The one contract: a text is read exactly where the grammar has it, and then as the one schedule that it spells.
//! The simulator stands on it: its outcome is a function of the text.
#![tactic(auto)]

pub mod first_form;
pub mod hexadecimal;
pub mod laws;
pub mod statuses;
