//! Laws of the formats: each is the contract of a function that does nothing.

ghost use Rattle.pws_msg.specs.Laws.{StreamsAreOne, BreaksAreOne, NoStreamIsBroken, PacketsReadBack, PacketsWriteBack, ReadsWhatIsSpelled, NoTextSpellsTwo, EachIsSpelled, OneSpelling, ContentsDiffer, LawfulIsRaw};

/// Bytes are the stream of at most one list of packets, with one rest, and broken at most at one place.
pub fn streams_are_one()
    ensures streams { StreamsAreOne }
    ensures breaks { BreaksAreOne }
{}

/// No stream begins with bytes that are broken.
pub fn no_stream_is_broken()
    ensures { NoStreamIsBroken }
{}

/// Reading what was written gives the packet.
pub fn packets_read_back()
    ensures { PacketsReadBack }
{}

/// Writing what was read gives the bytes.
pub fn packets_write_back()
    ensures { PacketsWriteBack }
{}

/// Reading gives a packet exactly where the bytes spell it; no bytes spell two packets, and a packet whose fields are in
/// range has exactly one spelling.
pub fn packets_are_spelled()
    ensures reads { ReadsWhatIsSpelled }
    ensures packets { NoTextSpellsTwo }
    ensures spelled { EachIsSpelled }
    ensures spellings { OneSpelling }
{}

/// No two contents have one text.
pub fn contents_differ()
    ensures { ContentsDiffer }
{}

/// The text of a packet whose parts needn't be lawful is, for a lawful packet, its spelling.
pub fn lawful_is_raw()
    ensures { LawfulIsRaw }
{}
