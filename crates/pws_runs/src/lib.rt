//! What a replica does with an input, and what a world of replicas does with a move: definitions alone.
//!
//! - `errors` has the words that the definitions and the code above share: why a packet isn't opened, why an input is
//!   ignored, why a move is refused.
//! - `laws` states what follows; each law is the contract of a function that does nothing.
//!
//! The definitions are in `specs/`, to be read in this order. A replica: `Saying`, `Opening`, `ReplicaStates`, `Calls`,
//! `Packets`, `Bundles`, `Ticks`, `Steps`, `Courses`. A world: `Worlds`, `Speaking`, `Digested`, `Moves`, `Reached`,
//! `Reports`. What is to hold in it: `Held`, `Statements`, `Facts`, `Headline`. `Laws` has the statements that are proved.
//! docs/PROTOCOL.md tells the rules in prose; `pws_protocol` has those of the voter, which a replica calls.
//!
//! # The loop of use
//!
//! A replica (`ReplicaState`) is given one input at a time (`Input`): bytes from anybody, a packet that was opened for it,
//! or a tick of its clock. `step` gives its next state and what it puts out (`Output`), in order. Whoever runs it
//!
//! 1. sends each `Send` to the replicas of its group, or to the one that is named, as often and as late as it likes;
//! 2. shows `Executed`, `Acted` and `PassedOver` to whom they concern, or drops them;
//! 3. gives it a tick now and then. Nothing else makes a replica say again what was lost.
//!
//! The service isn't part of the state: it is a function from the events that took effect to its acts (`Serve`), and so
//! are the calls that wait, the replies that are kept and the counters of the voter.
//!
//! A world (`Setting`, `WorldState`) has all correct replicas and all that they sent. A move gives one input to one of
//! them; `refusal_of` says why it isn't allowed, if it isn't, and `moved` gives the next world. Who is compromised says
//! what it likes: its packets are bytes that a move gives.
//!
//! # Who says what, when it is kept, and what it brings about
//!
//! | Content | Said by | Kept | Brings about |
//! |---|---|---|---|
//! | REQ | a replica whose service called; again at each tick while the call waits | by the voter of the called group, as evidence | the request is proposed and executed; made again, once it took effect, it is answered again |
//! | REPLY | the responder, with the vouchers of others; any replica to whom REQ was made again | by the voter of the calling group, as evidence, with the body | the reply is proposed and executed |
//! | PART | each replica that isn't the responder, as its service replies | by the responder: the first of a sender, for numbers from `low_in` to `last + 16` | f others' parts and its own reply make the bundle |
//! | EXPIRED | each replica, at a tick that finds a call over, and at later ones while it waits | by the voters of its group, its own among them | the abort is proposed and executed |
//! | READING | each replica, at a tick that finds an ask, and at later ones while it waits | by the voters of its group, its own among them | clock readings or shares of a seed are proposed and executed |
//! | PRE_PREPARE, PREPARE, COMMIT, CHECKPOINT | voters | by voters of the group | events are executed in one order; the low mark rises |
//! | VIEW_CHANGE, ACK, NEW_VIEW, RELAY | voters | by voters of the group | a new view is entered |
//! | NEED, GIVE | a voter that lacks an event; one that has it | GIVE by the voter that lacks it | the event is held |
//! | FETCH | each voter at a tick, for its next place | never | DONE of that place, and at a multiple of 16 CHECKPOINT, to the asker, where the place is executed and whole |
//! | DONE | who is asked by FETCH | by the voter, for its next place | of `f + 1`: the event is executed |
//!
//! `opens` refuses what isn't for the replica, or isn't sealed by its sender. What isn't kept gives `PassedOver`.
//!
//! The one contract that the layers above rely on: the laws, and the definitions themselves, which their own contracts
//! cite. `IsBounded`, `KeptFacts` and `Headline` are statements that aren't proved yet.
#![tactic(auto)]

pub mod errors;
pub mod laws;

ghost use Rattle.pws_runs.specs.Reports.{report_of};
ghost use Rattle.pws_runs.specs.Reached.{run_of};
ghost use Rattle.pws_runs.specs.Held.{parts_held, answers_held, ReplicasAreBounded};
ghost use Rattle.pws_runs.specs.Statements.{is_in_range, occurs_in, is_backed_digest};
ghost use Rattle.pws_runs.specs.Headline.{WorldsAgree};
