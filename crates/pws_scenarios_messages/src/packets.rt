//! The texts of packets.

use pws_base::lists::ExactCopy;
use pws_msg::errors::PacketReadError;
use pws_msg::packet_reading::read_packet;
use pws_msg::packet_writing::write_packet;
use pws_msg::packets::Packet;
use pws_scenarios::layers::StepError;
use pws_scenarios::words::{bytes_of, spelled};
use std::alloc::Global;

/// Reading of packets, which keeps nothing between two steps.
#[derive(Drop)]
pub struct Packets;

/// `ok`, or what the packet or its copy is written as where that is another text.
fn answer_of(alloc: Global, packet: &Packet, bytes: &[u8]) -> Result<String, StepError> {
    let written = write_packet(alloc, packet)?;
    let copied = write_packet(alloc, &packet.copy(alloc)?)?;
    if written.as_slice() != bytes {
        let written = spelled(alloc, written.as_slice())?;
        return Ok(format!(in alloc; "written {written}")?);
    }
    if copied.as_slice() != bytes {
        let copied = spelled(alloc, copied.as_slice())?;
        return Ok(format!(in alloc; "copied {copied}")?);
    }
    Ok(format!(in alloc; "ok")?)
}

/// What reading these bytes answers.
fn read(alloc: Global, bytes: &[u8]) -> Result<String, StepError> {
    match read_packet(alloc, bytes) {
        Ok(packet) => answer_of(alloc, &packet, bytes),
        Err(PacketReadError::Refused(error)) => {
            Ok(format!(in alloc; "{:?} at {}", error.kind, error.at)?)
        }
        Err(PacketReadError::Memory) => Err(StepError::Memory),
    }
}

/// Adds what reading the first bytes answers, from so many to so many, equal answers one after another once.
fn read_prefixes(
    alloc: Global,
    bytes: &[u8],
    from: usize,
    to: usize,
    answers: &mut Vec<String>,
) -> Result<(), StepError> {
    for count in from..=to {
        let prefix = bytes
            .get(..count)
            .ok_or(StepError::Expected("so many bytes"))?;
        let answer = read(alloc, prefix)?;
        let same = match answers.last() {
            Some(last) => last.as_str() == answer.as_str(),
            None => false,
        };
        if !same {
            answers.push(answer)?;
        }
    }
    Ok(())
}

impl Packets {
    /// Takes a step.
    pub fn step(
        &mut self,
        alloc: Global,
        words: &[&str],
        answers: &mut Vec<String>,
    ) -> Result<(), StepError> {
        match words {
            ["read", bytes] => Ok(answers.push(read(alloc, &bytes_of(alloc, bytes)?)?)?),
            ["prefixes", from, to, bytes] => {
                let (from, to) = (from.parse::<usize>()?, to.parse::<usize>()?);
                read_prefixes(alloc, &bytes_of(alloc, bytes)?, from, to, answers)
            }
            _ => Err(StepError::NoSuchStep),
        }
    }
}
