//! The program that bench/frames.sh measures: it feeds standard input to a reader of frames in pieces of so many bytes
//! as its word says, and prints how many packets came of how many bytes.
//!
//! It has no contract of its own, and nothing stands on it.
#![tactic(auto)]

use pws_base::standard::ReaderSource;
use pws_base::streams::{Got, Source};
use pws_msg::frames::Deframer;
use std::env;
use std::process::ExitCode;

/// How many bytes are read at a time.
const CHUNK: usize = 65_536;

/// Feeds bytes in pieces of this size and counts the packets; None where a bad length came, or memory was wanting.
fn feed_pieces(rt: &HostRuntime, reader: &mut Deframer, bytes: &[u8], size: usize) -> Option<u64> {
    if size == 0 {
        return None;
    }
    let mut packets = 0u64;
    for piece in bytes.chunks(size) {
        if reader.fed() > u64::MAX - piece.len() as u64 {
            return None;
        }
        match reader.feed(rt.alloc(), piece) {
            Ok(whole) => packets = packets.saturating_add(whole.len() as u64),
            Err(_) => return None,
        }
    }
    Some(packets)
}

/// How many packets come of standard input, and of how many bytes.
fn count(rt: &HostRuntime, size: usize) -> Option<(u64, u64)> {
    let mut source = ReaderSource::new(rt.stdin());
    let mut reader = Deframer::new(rt.alloc());
    let mut buffer = vec![in rt.alloc(); 0u8; CHUNK].ok()?;
    let mut packets = 0u64;
    for _ in 0..u64::MAX {
        match source.read(&mut buffer) {
            Got::Read(count) => {
                let fed = feed_pieces(rt, &mut reader, &buffer[..count], size)?;
                packets = packets.saturating_add(fed);
            }
            Got::End => return Some((packets, reader.fed())),
            Got::Failed => return None,
        }
    }
    None
}

/// The size that the program's first word tells.
fn size_given(rt: &HostRuntime) -> Option<usize> {
    let mut given = env::args(rt).ok()?.skip(1);
    let word = given.next()?;
    word.as_str().parse::<usize>().ok()
}

fn main(rt: HostRuntime) -> ExitCode {
    let Some(size) = size_given(&rt) else {
        return ExitCode::from(2);
    };
    match count(&rt, size) {
        Some((packets, bytes)) => match println!(rt; "packets {packets} bytes {bytes}") {
            Ok(()) => ExitCode::from(0),
            Err(_) => ExitCode::from(1),
        },
        None => ExitCode::from(1),
    }
}
