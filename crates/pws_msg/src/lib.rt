//! What replicas say to one another, and how it crosses a wire.
//!
//! A receiver feeds the bytes of a connection to a `Deframer`, in pieces of any size, and gets whole packets out; it
//! reads each with `read_packet`, looks at the content by its kind, and takes the parts that it keeps (`into_parts`,
//! `into_event`, `into_request`). A sender makes a `Content`, gets the tags over the bytes that spell it
//! (`content_bytes`), makes a `Packet` of both and writes it with `write_packet`, after its length on the stream.
//!
//! - `frames` reads packets from a stream of bytes.
//! - `contents` has what a packet says, one of seventeen kinds, which `kinds` lists. Their fields stand in `requests`,
//!   `readings`, `places` and `reported`; `changes` has the records of a view change.
//! - `packets` has the packet and the vouchers in it, `rules` what each kind has attached. `packet_reading` reads a
//!   packet, or tells what is wrong and where (`errors`); `packet_writing` writes it.
//! - `content_lengths` tells how long a content is, without writing it.
//! - `raw_packets` writes packets whose parts needn't be lawful, as a compromised replica may send them.
//! - `wire` has the numbers of the wire's version 1.
//! - `laws` states what follows from the formats alone.
//!
//! Definitions to believe, in the order of reading: `Wire`, `Rows`, `Reported`, `Statements`, `StatementTexts`, `Kinds`,
//! `Contents`, `Rules`, `Packets`, `Spelling` and `RawPackets` tell what spells what; `Bytes`, `RowFields`,
//! `StatementFields`, `ContentFields`, `PacketFields` and `PacketFaults` what reading gives and which refusal is first;
//! `Frames`, `Deframing` and `Feeds` what a stream is; `Laws` what follows. `Begun`, `Pieces` and `Same` serve the proofs
//! alone.
//!
//! The one contract: a packet is read exactly where the bytes spell it, each packet has exactly one spelling, and a
//! stream is read as its packets however it is cut.
#![tactic(auto)]

pub mod changes;
pub mod content_lengths;
mod content_reading;
pub mod contents;
pub mod errors;
pub mod frames;
pub mod kinds;
pub mod laws;
pub mod packet_reading;
pub mod packet_writing;
pub mod packets;
pub mod places;
mod putting;
pub mod raw_packets;
pub mod readings;
pub mod reported;
pub mod requests;
mod rows;
pub mod rules;
mod taking;
pub mod wire;
