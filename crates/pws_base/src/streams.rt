//! The traits over the outside: where bytes come from, and where they go.

ghost use Rattle.std.specs.Prelude.{ℕ, ◌<◌, List, Option, length};
ghost use Rattle.pws_base.specs.Streams.{FitsBuffer, ReadCause, TakesNext, FitsPiece, WriteCause, Holds};

/// What one read gave: so many bytes, the end, or a fault.
#[derive(Clone, Copy, Debug, PartialEq, Eq)]
pub enum Got {
    /// So many bytes, from 1 to the length of the buffer.
    Read(usize),
    /// No byte is left.
    End,
    /// A fault.
    Failed,
}

/// A source of bytes that counts its faults. A count never falls; at 2^64 - 1 it stays, and there counts as risen.
pub trait Source {
    /// The bytes still to come, where the source tells them.
    ghost left: { Self → Option (List ℕ) };

    /// The faults so far.
    ghost faults: { Self → ℕ };

    /// Reads the next bytes, at least one, into the front of a buffer that isn't empty.
    ///
    /// Where the source tells its bytes, `Read` gives the next of them and `End` comes exactly where none is
    /// left. `Failed` comes only where the count of faults rose, and takes no byte; the other answers leave the
    /// count.
    fn read(&mut self, into: &mut [u8]) -> Got
        requires { 0 < length into.old }
        ensures fits { FitsBuffer result into.new }
        ensures next { TakesNext (left self.old) (left self.new) into.new result }
        ensures cause { ReadCause result (faults self.old) (faults self.new) };
}

/// What one write took: so many bytes, or a fault.
#[derive(Clone, Copy, Debug, PartialEq, Eq)]
pub enum Took {
    /// So many bytes, from 1 to the length of the piece.
    Wrote(usize),
    /// A fault.
    Failed,
}

/// A sink of bytes that counts its faults. A count never falls; at 2^64 - 1 it stays, and there counts as risen.
pub trait Sink {
    /// The bytes held, where the sink tells them.
    ghost held: { Self → Option (List ℕ) };

    /// The faults so far.
    ghost faults: { Self → ℕ };

    /// Writes the first bytes, at least one, of a piece that isn't empty.
    ///
    /// Where the sink tells what it holds, `Wrote` adds just these bytes. `Failed` comes only where the count of
    /// faults rose, and adds none; `Wrote` leaves the count.
    fn write(&mut self, from: &[u8]) -> Took
        requires { 0 < length from.now }
        ensures fits { FitsPiece result from.now }
        ensures grows { Holds (held self.old) (held self.new) from.now result }
        ensures cause { WriteCause result (faults self.old) (faults self.new) };
}
