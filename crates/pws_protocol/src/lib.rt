//! The rules of a voter: how the replicas of a group agree on their list of events, as definitions alone.
//!
//! No code is here but what the definitions name and later code keeps: `keys` has the keys under which evidence is kept.
//! `laws` states what follows from the definitions, each law as the contract of a function that does nothing.
//! docs/PROTOCOL.md tells all of it in words, with its tables row by row.
//!
//! # The order of reading
//!
//! | `specs/` | |
//! |---|---|
//! | `Keys` | what statements are evidence of, and the order of the keys of evidence |
//! | `Evidence` | what is kept of what other replicas say, and for how long |
//! | `Support` | which events are supported, over a test of who says what |
//! | `Candidates` | the events that a primary may propose, in order |
//! | `States` | what a voter holds |
//! | `Gathered` | what it has gathered on the way into a view |
//! | `Hearing` | what is kept of a packet: a word a row |
//! | `Alike` | when two events are one, or for one request, call or ask |
//! | `Actions` | which action is the first enabled: a word a row |
//! | `Doing` | what each action does, and what goes out: a word an action |
//! | `Ticks` | what a tick does before the actions |
//! | `Reactions` | the reaction to an input, as a relation and as a function |
//! | `Executed`, `Fits`, `Held` | what a reaction executes; what holds of every voter; how many bytes it holds |
//! | `Laws` | what is proved of all this |
//!
//! Nothing else has to be believed; `proofs/` serve the prover alone.
//!
//! # The loop of use
//!
//! A voter begins as `start me layout`. From then on its replica gives it one input at a time, `react state asked input`,
//! where `asked` are the counters of what the group's service called, asked and took:
//!
//! 1. `Said`: a packet that was opened; beside each voucher in it whether its tag verified.
//! 2. `Tick`: the clock went on; with it come the own EXPIRED and READING that are said at this tick.
//! 3. `Resume`: the event that was executed was carried out.
//!
//! What goes out is, in order, `Unkept` for what wasn't kept, `Send` for a statement to the whole group, and as the last
//! one at most one `Execute`. Then the replica puts the event on its list, lets the service take it if it takes effect,
//! and gives `Resume`; before that it gives nothing else.
//!
//! # Contents
//!
//! | Content | Said by | Kept | What it brings about |
//! |---|---|---|---|
//! | REQ | a replica of a caller, for each call until it is answered | as evidence, for the sixteen numbers that are next | `f + 1` support the request: a primary proposes it, a backup accepts it |
//! | REPLY | a replica of a called group, with the body; others' replies as vouchers | as evidence, for the sixteen calls from the least that waits; the body by its digest | `f + 1` support the reply |
//! | EXPIRED | a replica of the own group, at a tick, of a call whose time is over | as evidence, as a reply | `f + 1` support the abort |
//! | READING | a replica of the own group, at a tick, for the ask that waits | as evidence, for sixteen asks | `2f + 1` make the answer to the ask |
//! | PRE_PREPARE | the primary, as it proposes | by an active backup, once a place, above the floor | once its event is supported it is accepted: PREPARE |
//! | PREPARE | a backup, as it accepts | in the book of votes | `2f` that match prepare the slot: COMMIT |
//! | COMMIT | any replica, as it prepares | in the book of votes | `2f + 1` that match commit the slot: the event is executed in its turn |
//! | CHECKPOINT | any replica that has executed up to a multiple of 16 | in the book of votes, for the places of the window | `2f + 1` that match the own chain raise the low mark |
//! | VIEW_CHANGE | a replica that moves to a view | the last one of each replica, if it is valid | `f + 1` for later views make others join; each is acknowledged; what counts gives the primary its choice |
//! | ACK | a replica on the way, of another's view change | once a pair, while on the way | `2f - 1` make a view change count for the primary; with `f` a backup has one that was only passed on |
//! | NEW_VIEW | the primary of a view, as it starts it | by a backup on the way, once | with all the view changes that it names: the view is entered, or left where it is false |
//! | RELAY | the primary with its NEW_VIEW, or anybody, of a view change that the NEW_VIEW names | by a replica on the way | a backup has the view change |
//! | FETCH | any replica at each tick, for the next place | never: the replica answers it | DONE, and CHECKPOINT at a multiple of 16 |
//! | DONE | a replica that has executed the place, to one that asked | one of each sender, for the next place | `f + 1` that match are executed |
//! | NEED | a replica that lacks the event of a digest that is chosen or committed | never | GIVE, where the event is held |
//! | GIVE | a replica that holds the event | where a slot or the possible choice names its digest | the choice can be offered, the place executed |
//! | PART | a replica of the own group to the responder of a reply | never: it isn't the voter's | a bundle of replies |
#![tactic(auto)]

pub mod keys;
pub mod laws;
