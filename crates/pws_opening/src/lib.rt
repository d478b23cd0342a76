//! How a replica opens the packets that it is given, and seals those that it sends.
//!
//! - `members` has the replica with its keys (`Member`): who it is in the layout, and whether it has all keys.
//! - `opening` opens the bytes of a packet, or tells why they aren't opened (`errors`); `checked` has what was opened.
//! - `outputs` has what a replica puts out, and `sealing` makes the packets among it.
//!
//! Definitions to believe: `Members` tells what a member is, `Opened` how an answer stands for the rule's. The rules
//! are those of `pws_runs`: `Saying`, `Opening` and `Packets`. `Put` tells how outputs stand for the rules', and `Marked`
//! how a packet's vouchers are kept beside whether they verified.
//!
//! The one contract: bytes are opened exactly where `opens` opens them, with what it gives or its refusal; and a
//! packet that goes out is the one that `packet_with` makes, in whatever state of the replica.
#![tactic(auto)]

pub mod checked;
pub mod errors;
pub mod members;
pub mod opening;
pub mod outputs;
pub mod sealing;
