//! Frames: packets on a stream of bytes, each after its length.

use pws_base::bytes::Bytes;
use pws_base::limits::MAX_PACKET;
use pws_base::lists::{ExactCopy, Sequence};
use pws_base::memory::Memory;
use std::alloc::Global;
use std::marker::Model;
use std::{fmt, mem};
use thiserror::Error;

/// How many bytes the length of a frame has.
const FIELD: usize = 4;

/// A length that no frame has, 0 or above 98,304.
#[derive(Drop)]
pub struct FrameError {
    /// Where the length stands in the stream, counted in bytes from 0.
    pub at: u64,
    /// The packets that this piece completed before it.
    pub whole: Sequence<Bytes>,
}

impl fmt::Debug for FrameError {
    fn fmt<W: fmt::Write>(&self, f: &mut fmt::Formatter<W>) -> fmt::Result {
        fmt::Debug::fmt(&self.at, f)
    }
}

/// Why a piece gave no list of packets alone.
#[derive(Debug, Drop, Error)]
pub enum FeedError {
    /// A length that no frame has stands in the stream.
    #[error("the stream has a frame of no lawful length")]
    Frame(FrameError),
    /// There was no memory, now or in an earlier call.
    #[error("out of memory")]
    Memory,
}

impl From<Memory> for FeedError {
    ghost use Rattle.std.specs.Prelude.{◌≡◌};
    ghost use Rattle.pws_msg.specs.declared.frames.FeedError.{FeedError};

    ghost from_gives = { λ _ e. e ≡ FeedError.Memory };

    fn from(_error: Memory) -> FeedError {
        FeedError::Memory
    }
}

/// What the next bytes of a piece came to.
#[derive(Drop)]
enum Step {
    /// Part of a frame.
    More,
    /// The end of a frame, which holds this packet.
    Whole(Bytes),
    /// The end of a length that no frame has.
    Bad,
}

/// A step, and how many bytes of the piece it took.
#[derive(Drop)]
struct Taken {
    count: usize,
    step: Step,
}

/// What a piece came to: the packets that it completed, and where in it a length ends that no frame has.
#[derive(Drop)]
struct Cut {
    whole: Sequence<Bytes>,
    broken: Option<usize>,
}

/// The bytes after the last whole frame.
#[derive(Drop)]
struct Rest {
    /// The bytes of the length so far, at most four.
    head: Vec<u8>,
    /// The length, once it is whole; before that 0.
    size: usize,
    /// The bytes of the packet so far, fewer than the length.
    packet: Vec<u8>,
}

impl Model for Rest {
    ghost use Rattle.std.specs.Prelude.{ℕ, List, ◌++◌};
    ghost use Rattle.pws_msg.specs.Begun.{IsBegun};

    ghost Value = { List ℕ };

    ghost view = { λ r. r.head.items ++ r.packet.items };

    ghost invariant = { λ r. IsBegun r.head.items r.size r.packet.items };
}

/// Reads frames from a stream of bytes that comes in pieces.
///
/// Contracts see the bytes after the last whole frame, how many bytes were fed, where a bad length stands if one was
/// met, and whether want of memory stopped it; `HasRead` ties these to all bytes fed and all packets handed out.
#[derive(Drop)]
pub struct Deframer {
    /// The bytes after the last whole frame.
    rest: Rest,
    /// How many bytes were fed.
    fed: u64,
    /// Where a bad length stands, once one was met.
    broken: Option<u64>,
    /// Whether memory was wanting once.
    stopped: bool,
}

impl Model for Deframer {
    ghost use Rattle.pws_msg.specs.Deframing.{Deframing};

    ghost Value = { Deframing };

    ghost view = { λ d. record { rest = d.rest; fed = d.fed; broken = d.broken; stopped = d.stopped } };
}

ghost use Rattle.std.specs.Prelude.{◌≡◌, ◌+◌, ◌^◌, ◌<◌, ◌≤◌, ℕ, List, [], ◌++◌, length, take, IfOk, IsTrue, ◌↔◌, Some, Err, false};
ghost use Rattle.pws_base.specs.Texts.{u32_text};
ghost use Rattle.pws_msg.specs.Frames.{IsRest};
ghost use Rattle.pws_msg.specs.Deframing.{fresh, HasRead};
ghost use Rattle.pws_msg.specs.Feeds.{ReadsOn};
ghost use Rattle.pws_msg.specs.Pieces.{StepsTo, CutsAt};

/// The number that four bytes spell.
#[tactic(auto, unfolding(pws_base::specs::Texts::u32_text))]
fn size_of(field: &[u8]) -> usize
    requires { length field.now ≡ 4 }
    ensures spelled { field.now ≡ u32_text result }
    ensures small { result < 2 ^ 32 }
{
    u32::from_be_bytes([field[0], field[1], field[2], field[3]]) as usize
}

impl Rest {
    fn new(alloc: Global) -> Rest
        ensures { result ≡ [] }
    {
        Rest {
            head: Vec::new(alloc),
            size: 0,
            packet: Vec::new(alloc),
        }
    }

    /// What is kept is a rest.
    fn is_rest(&self)
        ensures { IsRest self.now }
    {
        // shows: the invariant of its fields
        let _ = &self.head;
    }

    /// Whether the length of the frame isn't whole.
    #[tactic(auto, using(crate::proofs::Streams::unknown_is, crate::proofs::Streams::known_is))]
    fn has_no_size(&self) -> bool
        ensures { IsTrue result ↔ (length self.now < 4) }
    {
        self.size == 0
    }

    /// Takes bytes from the front of a piece, up to the end of a length or of a packet.
    fn take(&mut self, alloc: Global, piece: &[u8]) -> Result<Taken, Memory>
        requires { 1 ≤ length piece.now }
        ensures count { IfOk result (λ t. (1 ≤ t.count) × (t.count ≤ length piece.now)) }
        ensures step { IfOk result (λ t. StepsTo t.step (self.old ++ take t.count piece.now) self.new) }
        ensures rest { IsRest self.new }
    {
        if self.has_no_size() {
            self.take_head(alloc, piece)
        } else {
            self.take_packet(alloc, piece)
        }
    }

    fn take_head(&mut self, alloc: Global, piece: &[u8]) -> Result<Taken, Memory>
        requires some { 1 ≤ length piece.now }
        requires head { length self.old < 4 }
        ensures count { IfOk result (λ t. (1 ≤ t.count) × (t.count ≤ length piece.now)) }
        ensures step { IfOk result (λ t. StepsTo t.step (self.old ++ take t.count piece.now) self.new) }
        ensures rest { IsRest self.new }
    {
        let count = (FIELD - self.head.len()).min(piece.len());
        self.head.extend_from_slice(&piece[..count])?;
        if self.head.len() < FIELD {
            return Ok(Taken {
                count,
                step: Step::More,
            });
        }
        let size = size_of(self.head.as_slice());
        if size == 0 || MAX_PACKET < size {
            self.head.clear();
            return Ok(Taken {
                count,
                step: Step::Bad,
            });
        }
        match Vec::with_capacity(alloc, size) {
            Ok(packet) => {
                self.packet = packet;
                self.size = size;
                Ok(Taken {
                    count,
                    step: Step::More,
                })
            }
            Err(_) => {
                self.head.clear();
                Err(Memory)
            }
        }
    }

    fn take_packet(&mut self, alloc: Global, piece: &[u8]) -> Result<Taken, Memory>
        requires some { 1 ≤ length piece.now }
        requires head { 4 ≤ length self.old }
        ensures count { IfOk result (λ t. (1 ≤ t.count) × (t.count ≤ length piece.now)) }
        ensures step { IfOk result (λ t. StepsTo t.step (self.old ++ take t.count piece.now) self.new) }
        ensures rest { IsRest self.new }
    {
        let count = (self.size - self.packet.len()).min(piece.len());
        self.packet.extend_from_slice(&piece[..count])?;
        if self.packet.len() < self.size {
            return Ok(Taken {
                count,
                step: Step::More,
            });
        }
        let packet = mem::replace(&mut self.packet, Vec::new(alloc));
        self.head.clear();
        self.size = 0;
        Ok(Taken {
            count,
            step: Step::Whole(Bytes::from_vec(packet)),
        })
    }

    /// Takes a whole piece, or stops at the end of a length that no frame has.
    #[tactic(auto, using(crate::proofs::Streams::stream_begins, crate::proofs::Streams::stream_more, crate::proofs::Streams::stream_whole, crate::proofs::Streams::stream_bad))]
    fn cut(&mut self, alloc: Global, piece: &[u8]) -> Result<Cut, Memory>
        ensures cut { IfOk result (λ c. CutsAt c.broken self.old piece.now c.whole self.new) }
        ensures rest { IsRest self.new }
    {
        // shows: what was kept is a rest
        self.is_rest();
        let mut whole = Sequence::new(alloc);
        let mut at = 0;
        while at < piece.len() {
            let taken = self.take(alloc, &piece[at..])?;
            at += taken.count;
            match taken.step {
                Step::More => {}
                Step::Whole(packet) => whole.push(packet)?,
                Step::Bad => {
                    return Ok(Cut {
                        whole,
                        broken: Some(at),
                    });
                }
            }
        }
        Ok(Cut {
            whole,
            broken: None,
        })
    }
}

impl Deframer {
    /// A reader to which nothing was fed.
    pub fn new(alloc: Global) -> Deframer
        ensures state { result ≡ fresh }
        ensures read { HasRead result [] [] }
    {
        let rest = Rest::new(alloc);
        // shows: no bytes are a rest
        rest.is_rest();
        Deframer {
            rest,
            fed: 0,
            broken: None,
            stopped: false,
        }
    }

    /// How many bytes were fed in all, also those after a bad length.
    pub fn fed(&self) -> u64
        ensures { result ≡ self.now.fed }
    {
        self.fed
    }

    /// Whether memory was wanting once, after which every piece is answered by `Memory`.
    pub fn is_stopped(&self) -> bool
        ensures { result ≡ self.now.stopped }
    {
        self.stopped
    }

    /// Takes the next piece of the stream, of any length, and gives the packets that it completed.
    ///
    /// The bytes fed so far and this piece are together to be fewer than 2^64. At most 98,308 bytes are held between
    /// two calls, however the stream is cut.
    ///
    /// # Errors
    ///
    /// `Frame` exactly where a length of 0 or above 98,304 stands where a frame is to begin: it names the place of
    /// that length, and has the packets that the piece completed before it. From then on each piece is answered by
    /// the same place, with no packet. Else `Memory` only, and from then on for each piece.
    #[tactic(auto, using(crate::proofs::Streams::length_rest))]
    pub fn feed(&mut self, alloc: Global, piece: &[u8]) -> Result<Sequence<Bytes>, FeedError>
        requires { self.old.fed + length piece.now < 2 ^ 64 }
        ensures fed { self.new.fed ≡ self.old.fed + length piece.now }
        ensures read { (bytes : List ℕ) (packets : List (List ℕ)) → HasRead self.old bytes packets → ReadsOn self.new (bytes ++ piece.now) packets result }
        ensures again { (at : ℕ) → self.old.broken ≡ Some at → self.old.stopped ≡ false → result ≡ Err (FeedError.Frame (record { at = at; whole = [] })) }
        ensures stopped { IsTrue self.old.stopped → result ≡ Err FeedError.Memory }
        ensures held { length self.new.rest ≤ 98308 }
    {
        // shows: what was kept is a rest, so it is short
        self.rest.is_rest();
        let before = self.fed;
        self.fed += piece.len() as u64;
        if self.stopped {
            return Err(FeedError::Memory);
        }
        match self.broken {
            None => {}
            Some(at) => {
                let whole = Sequence::new(alloc);
                return Err(FeedError::Frame(FrameError { at, whole }));
            }
        }
        self.stopped = true;
        let cut = self.rest.cut(alloc, piece)?;
        self.stopped = false;
        match cut.broken {
            None => Ok(cut.whole),
            Some(end) => {
                let at = (before + end as u64).saturating_sub(4);
                self.broken = Some(at);
                Err(FeedError::Frame(FrameError {
                    at,
                    whole: cut.whole,
                }))
            }
        }
    }
}

impl ExactCopy for Rest {
    fn copy(&self, alloc: Global) -> Result<Rest, Memory> {
        Ok(Rest {
            head: self.head.as_slice().to_vec(alloc)?,
            size: self.size,
            packet: self.packet.as_slice().to_vec(alloc)?,
        })
    }
}

impl ExactCopy for Deframer {
    fn copy(&self, alloc: Global) -> Result<Deframer, Memory> {
        Ok(Deframer {
            rest: self.rest.copy(alloc)?,
            fed: self.fed,
            broken: self.broken,
            stopped: self.stopped,
        })
    }
}

impl ExactCopy for FrameError {
    fn copy(&self, alloc: Global) -> Result<FrameError, Memory> {
        Ok(FrameError {
            at: self.at,
            whole: self.whole.copy(alloc)?,
        })
    }
}

impl ExactCopy for FeedError {
    fn copy(&self, alloc: Global) -> Result<FeedError, Memory> {
        match self {
            FeedError::Frame(error) => Ok(FeedError::Frame(error.copy(alloc)?)),
            FeedError::Memory => Ok(FeedError::Memory),
        }
    }
}
