//! A program that asks a store of evidence, for bench/evidence.sh to measure: `one` or `all`, `hear` or `candidates`, and
//! how many times. It prints how many statements were known already, or how many candidates there were.
//!
//! The store holds all that it may of one other group or of fifteen, and of its own, of ten replicas each: of each replica
//! sixteen statements of each kind. No two bodies are the same; of one group they have 8 bytes, of fifteen 32,768. What is
//! heard then has no body, so that what a call takes is looking up. The program has no contract of its own, and nothing
//! stands on it.
#![tactic(auto)]

ghost use Rattle.std.specs.Prelude.{◌≤◌, length, IfOk};

use pws_base::bytes::Bytes;
use pws_base::shapes::{Digest, GroupShape, Layout, ReplicaId};
use pws_event::effects::Effect;
use pws_event::readings::Sort;
use pws_evidence::stores::Evidence;
use pws_msg::contents::Content;
use pws_msg::readings::ReadingValue;
use pws_msg::requests::{CallName, OwnReading, OwnRequest, ReplyNote};
use pws_votes::kinds::Vote;
use sha2::{Digest as _, Sha256};
use std::alloc::Global;
use std::env;

/// A store, and what its group asked.
#[derive(Drop)]
struct Witness {
    evidence: Evidence,
    asked: Effect,
}

/// A statement of a replica about the call or ask of a number.
#[derive(Clone, Copy)]
struct Said {
    group: u8,
    index: u8,
    number: u32,
}

/// Who says the statement of this place in the order of all, where so many other groups are, and of which number it is.
fn said_at(place: u32, others: u8) -> Said
    requires some { 1 ≤ others }
    requires few { others ≤ 15 }
    ensures group { result.group ≤ 15 }
    ensures from { 1 ≤ result.number }
    ensures to { result.number ≤ 16 }
{
    let groups = u32::from(others);
    Said {
        group: (1 + place % groups) as u8,
        index: (place / groups % 10) as u8,
        number: 1 + place / groups / 10 % 16,
    }
}

/// A body that no other statement has.
fn body(alloc: Global, said: Said, size: usize) -> anyhow::Result<Bytes>
    requires size { size ≤ 32768 }
    requires number { said.number ≤ 16 }
    ensures { IfOk result (λ b. length b ≤ 32768) }
{
    let mut bytes = vec![in alloc; 0u8; size]?;
    if let [first, second, third, ..] = bytes.as_mut_slice() {
        *first = said.group;
        *second = said.index;
        *third = said.number as u8;
    }
    Ok(Bytes::from_vec(bytes))
}

/// The request of a replica, with a body of this size.
fn request(alloc: Global, said: Said, size: usize) -> anyhow::Result<Content>
    requires size { size ≤ 32768 }
    requires from { 1 ≤ said.number }
    requires to { said.number ≤ 16 }
{
    let body = body(alloc, said, size)?;
    Ok(Content::Request(OwnRequest::new(said.number, 1, body)))
}

/// The reply of a replica whose body has this digest.
fn reply(said: Said, digest: Digest) -> Content
    requires from { 1 ≤ said.number }
    requires to { said.number ≤ 16 }
{
    Content::Reply(ReplyNote::new(0, said.number, digest))
}

/// That the call of this number to a group expired.
fn expired(said: Said) -> Content
    requires group { said.group ≤ 15 }
    requires from { 1 ≤ said.number }
    requires to { said.number ≤ 16 }
{
    Content::Expired(CallName::new(said.group, said.number))
}

/// A reading for the ask of this number.
fn reading(said: Said) -> Content
    requires from { 1 ≤ said.number }
    requires to { said.number ≤ 16 }
{
    let ms = u64::from(said.index);
    Content::Reading(OwnReading::new(said.number, ReadingValue::Time(ms)))
}

/// One of the statements of a number, with an empty body and a digest of zeros.
fn said_again(alloc: Global, said: Said, kind: u32) -> anyhow::Result<Content>
    requires group { said.group ≤ 15 }
    requires from { 1 ≤ said.number }
    requires to { said.number ≤ 16 }
{
    match kind {
        0 => request(alloc, said, 0),
        1 => Ok(reply(said, [0; 32])),
        2 => Ok(expired(said)),
        _ => Ok(reading(said)),
    }
}

impl Witness {
    /// Whether what a replica says, with the body of its packet, was known already.
    fn is_known(
        &mut self,
        alloc: Global,
        group: u8,
        index: u8,
        content: &Content,
        body: &[u8],
    ) -> anyhow::Result<bool>
        requires { length body.now ≤ 32768 }
    {
        let sender = ReplicaId { group, index };
        let answer = self
            .evidence
            .hear(alloc, sender, content, body, &self.asked)?;
        Ok(matches!(&answer, Vote::Already))
    }

    /// Hears a replica's request, with a body of this size.
    fn fill_request(&mut self, alloc: Global, said: Said, size: usize) -> anyhow::Result<()>
        requires size { size ≤ 32768 }
        requires from { 1 ≤ said.number }
        requires to { said.number ≤ 16 }
    {
        let empty = Bytes::new(alloc);
        let asked = request(alloc, said, size)?;
        self.is_known(alloc, said.group, said.index, &asked, empty.as_slice())?;
        Ok(())
    }

    /// Hears a replica's reply, with a body of this size.
    fn fill_reply(&mut self, alloc: Global, said: Said, size: usize) -> anyhow::Result<()>
        requires size { size ≤ 32768 }
        requires from { 1 ≤ said.number }
        requires to { said.number ≤ 16 }
    {
        let answer = body(alloc, said, size)?;
        let note = reply(said, Sha256::digest(answer.as_slice()));
        self.is_known(alloc, said.group, said.index, &note, answer.as_slice())?;
        Ok(())
    }

    /// Hears that a call expired, and a reading, of the replica of the own group with the same index.
    fn fill_own(&mut self, alloc: Global, said: Said) -> anyhow::Result<()>
        requires group { said.group ≤ 15 }
        requires from { 1 ≤ said.number }
        requires to { said.number ≤ 16 }
    {
        let empty = Bytes::new(alloc);
        self.is_known(alloc, 0, said.index, &expired(said), empty.as_slice())?;
        self.is_known(alloc, 0, said.index, &reading(said), empty.as_slice())?;
        Ok(())
    }

    /// Hears all four statements of a number, with bodies of this size.
    fn fill_with(&mut self, alloc: Global, said: Said, size: usize) -> anyhow::Result<()>
        requires size { size ≤ 32768 }
        requires group { said.group ≤ 15 }
        requires from { 1 ≤ said.number }
        requires to { said.number ≤ 16 }
    {
        self.fill_request(alloc, said, size)?;
        self.fill_reply(alloc, said, size)?;
        self.fill_own(alloc, said)
    }

    /// Notes the next sixteen calls to a group.
    fn call(&mut self, called: u8) {
        for number in 1..17u32 {
            if self.asked.can_call(called, number) {
                self.asked.call(called, number);
            }
        }
    }

    /// A store that holds all that it may of so many other groups, with bodies of this size.
    fn new(alloc: Global, others: u8, size: usize) -> anyhow::Result<Witness>
        requires some { 1 ≤ others }
        requires few { others ≤ 15 }
        requires size { size ≤ 32768 }
    {
        let shape = GroupShape::new(3)?;
        let mut shapes = Vec::new(alloc);
        for _ in 0..others + 1 {
            shapes.push(shape)?;
        }
        let layout = Layout::new(&shapes)?;
        let mut witness = Witness {
            evidence: Evidence::new(alloc, 0, &layout),
            asked: Effect::new(0, &layout),
        };
        for called in 1..others + 1 {
            witness.call(called);
        }
        if witness.asked.waiting_ask().is_none() {
            witness.asked.ask(Sort::Clock);
        }
        for place in 0..u32::from(others) * 160 {
            witness.fill_with(alloc, said_at(place, others), size)?;
        }
        Ok(witness)
    }

    /// Whether one of the statements of a number was known already, with another body or none.
    fn is_known_again(&mut self, alloc: Global, said: Said, kind: u32) -> anyhow::Result<bool>
        requires group { said.group ≤ 15 }
        requires from { 1 ≤ said.number }
        requires to { said.number ≤ 16 }
    {
        let content = said_again(alloc, said, kind)?;
        let group = if kind < 2 { said.group } else { 0 };
        let empty = Bytes::new(alloc);
        self.is_known(alloc, group, said.index, &content, empty.as_slice())
    }

    /// How many of so many statements were known already.
    fn count_known(&mut self, alloc: Global, others: u8, times: u32) -> anyhow::Result<usize>
        requires some { 1 ≤ others }
        requires few { others ≤ 15 }
    {
        let mut count = 0usize;
        for place in 0..times {
            if self.is_known_again(alloc, said_at(place, others), place % 4)? {
                count = count.saturating_add(1);
            }
        }
        Ok(count)
    }

    /// How many candidates there are in so many calls.
    fn count_candidates(&self, alloc: Global, times: u32) -> anyhow::Result<usize> {
        let mut count = 0usize;
        for _ in 0..times {
            let events = self.evidence.candidates(alloc, &self.asked)?;
            count = count.saturating_add(events.len());
        }
        Ok(count)
    }
}

/// What the words ask for.
fn count(alloc: Global, is_all: bool, is_hear: bool, times: u32) -> anyhow::Result<usize> {
    let others = if is_all { 15 } else { 1 };
    let size = if is_all { 32768 } else { 8 };
    let mut witness = Witness::new(alloc, others, size)?;
    if is_hear {
        witness.count_known(alloc, others, times)
    } else {
        witness.count_candidates(alloc, times)
    }
}

fn main(rt: HostRuntime) -> anyhow::Result<()> {
    let mut words = env::args(&rt)?.skip(1);
    let is_all = match words.next() {
        Some(word) => word.as_str() == "all",
        None => false,
    };
    let is_hear = match words.next() {
        Some(word) => word.as_str() == "hear",
        None => false,
    };
    let times = match words.next() {
        Some(word) => word.parse::<u32>()?,
        None => 1,
    };
    let count = count(rt.alloc(), is_all, is_hear, times)?;
    println!(rt; "{count}")?;
    Ok(())
}
