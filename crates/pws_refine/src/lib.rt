//! The voter takes the steps of the safety argument: the rules of `pws_protocol` are those of the voters of `pws_safety`.
//!
//! No code is here. `laws` states what is proved, each law as the contract of a function that does nothing.
//!
//! The definitions are in `specs/`, to be read in this order: `Cores` (a voter as the safety argument sees it, and what
//! its outputs say), `Contexts` (where a voter stands: its group in a run, and what can be heard as whose), `Links` (what
//! it holds as said by others can be heard as theirs), `Ready` (what of its state alone its steps rest on), `Inputs`
//! (what it is given wasn't forged), `Laws`; and `Alone` (a voter that is alone in its group). Nothing else has to be
//! believed; `proofs/` serve the prover alone.
//!
//! # From an input to agreement
//!
//! 1. Let a voter be correct and its group keep the invariant of `pws_safety` (`GroupKeeps`), with the voter's core among
//!    those of the group; and let all stand on which its actions rest (`Stands`). So it is at the start (`start_stands`).
//! 2. It is given an input that wasn't forged (`IsGiven`), and what it puts out is part of the run (`IsInRun`).
//! 3. Then `reactions_refine` gives statements that were newly said with which the invariant and `Stands` hold again
//!    (`Carried`): to hear is no step (`hearing_keeps`), a tick says what was said (`ticks_repeat`), and each action is one
//!    step or none (`actions_refine`, `actions_keep`, `actions_keep_group`).
//! 4. A voter that is given nothing meanwhile stands on (`stands_as_more_is_said`).
//! 5. The invariant gives agreement, by the laws of `pws_safety`. What is executed is settled, or `f + 1` replicas say
//!    that they executed it.
//!
//! A group of one sends nothing, and has no invariant. What its voter executes is supported (`alone_executes_supported`).
//!
//! The one contract: these laws. What can be heard, what occurs and what is backed are parameters (`Context`); a world's
//! are to take their places.
#![tactic(auto)]

pub mod laws;
