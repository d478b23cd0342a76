//! Laws of envelopes and faults. The functions do nothing: their contracts are the laws.

ghost use Rattle.pws_soap.specs.Laws.{RootsAreRead, EnvelopesReadBack, RootsTellApart, FaultsTellApart, RootsAreLawful, FaultsAreLawful};
ghost use Rattle.pws_soap.specs.Reading.{OneEnvelope, TextsAreRead};

/// The root of an envelope is read as that envelope, where its header blocks are marked with truth values and none is
/// refused.
pub fn roots_are_read()
    ensures { RootsAreRead }
{}

/// An envelope that was read is read again from the root that is written for it.
pub fn envelopes_read_back()
    ensures { EnvelopesReadBack }
{}

/// Two envelopes have one root exactly where they are the same.
pub fn roots_tell_apart()
    ensures { RootsTellApart }
{}

/// Two faults have one tree exactly where they are the same.
pub fn faults_tell_apart()
    ensures { FaultsTellApart }
{}

/// Lawful header blocks of at most 62 levels and a lawful body make a root that is lawful.
#[tactic(auto, using(crate::proofs::Made::roots_are_lawful))]
pub fn roots_are_lawful()
    ensures { RootsAreLawful }
{}

/// The tree of a lawful fault is lawful, and has at most 62 levels.
#[tactic(auto, using(crate::proofs::FaultTrees::faults_are_lawful))]
pub fn faults_are_lawful()
    ensures { FaultsAreLawful }
{}

/// Reading gives one answer for a text, memory aside: one envelope, or one refusal.
#[tactic(auto, using(crate::proofs::OneEnvelope::one_envelope))]
pub fn one_envelope()
    ensures { OneEnvelope }
{}

/// Reading has an answer for each text that is no want of memory.
#[tactic(auto, using(crate::proofs::TextsRead::texts_are_read))]
pub fn texts_are_read()
    ensures { TextsAreRead }
{}
