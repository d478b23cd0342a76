//! Laws of addressing and of the envelopes of drivers. The functions do nothing: their contracts are the laws.

ghost use Rattle.pws_addr.specs.Laws.{AddressedAreRead, AnswersAreRead, BareFaultsFit, CallsAreRead, CallsFit, FaultsAreRead, FaultsFit, OursCount, PutIsRead, ReadIsReadAgain, ReadIsSayable, RepliesAreRead, RepliesFit};
ghost use Rattle.pws_addr.specs.Texts.{AddressedTextsAreRead, CallTextsAreRead, BareFaultTextsAreRead, FaultTextsAreRead, ReplyTextsAreRead};

use pws_soap::laws::{faults_are_lawful, roots_are_lawful, roots_are_read};
use pws_soap::reading::nothing_else_is_read;

/// What an addressing puts into an envelope is what is read there: behind header blocks of which none is an addressing
/// header for this node, the blocks of an addressing say that addressing, where its texts are ones that a header can say,
/// not empty and without white space round them.
#[tactic(auto, using(crate::proofs::Again::put_is_read))]
pub fn put_is_read()
    ensures { PutIsRead }
{}

/// And what was read, from whatever header blocks, is read again from the blocks of that addressing.
#[tactic(auto, using(crate::proofs::Sayable::read_is_read_again))]
pub fn read_is_read_again()
    ensures { ReadIsReadAgain }
{}

/// Such an addressing says only texts that a header can say.
#[tactic(auto, using(crate::proofs::Sayable::read_is_sayable))]
pub fn read_is_sayable()
    ensures { ReadIsSayable }
{}

/// The header blocks for this node alone count.
#[tactic(auto, using(crate::proofs::Counting::ours_count))]
pub fn ours_count()
    ensures { OursCount }
{}

/// What one driver writes the other reads: an envelope with the header blocks of an addressing is read as that envelope,
/// whatever its body.
#[tactic(auto, using(crate::proofs::Exchanged::addressed_are_read))]
pub fn addressed_are_read()
    ensures { AddressedAreRead }
{
    roots_are_read();
}

/// The addressing that is read from a call is the one with which it was made.
#[tactic(auto, using(crate::proofs::Exchanged::calls_are_read))]
pub fn calls_are_read()
    ensures { CallsAreRead }
{}

/// So is that of a reply, where the identifier and the address that it takes from the request are ones that a header can
/// say.
#[tactic(auto, using(crate::proofs::Exchanged::replies_are_read))]
pub fn replies_are_read()
    ensures { RepliesAreRead }
{}

/// And so is that of a fault.
#[tactic(auto, using(crate::proofs::Exchanged::faults_are_read))]
pub fn faults_are_read()
    ensures { FaultsAreRead }
{}

/// They are such texts wherever the request's addressing was read.
pub fn answers_are_read()
    ensures { AnswersAreRead }
{}

/// The text of an envelope with an addressing round an element is read as that envelope, want of memory apart, where it
/// isn't too long.
#[tactic(auto, using(crate::proofs::Written::addressed_texts_are_read))]
pub fn addressed_texts_are_read()
    ensures { AddressedTextsAreRead }
{
    roots_are_lawful();
    nothing_else_is_read();
}

/// So is the text of a call.
#[tactic(auto, using(crate::proofs::Written::call_texts_are_read))]
pub fn call_texts_are_read()
    ensures { CallTextsAreRead }
{
    roots_are_lawful();
    nothing_else_is_read();
}

/// So is that of a fault that answers a request, addressed as if the request had no addressing where it would be too long.
#[tactic(auto, using(crate::proofs::Written::fault_texts_are_read))]
pub fn fault_texts_are_read()
    ensures { FaultTextsAreRead }
{
    roots_are_lawful();
    faults_are_lawful();
    nothing_else_is_read();
}

/// And so is that of a reply, or of the fault in its place.
#[tactic(auto, using(crate::proofs::Written::reply_texts_are_read))]
pub fn reply_texts_are_read()
    ensures { ReplyTextsAreRead }
{
    roots_are_lawful();
    faults_are_lawful();
    nothing_else_is_read();
}

/// So is that of a fault that answers no request.
#[tactic(auto, using(crate::proofs::Written::bare_fault_texts_are_read))]
pub fn bare_fault_texts_are_read()
    ensures { BareFaultTextsAreRead }
{
    roots_are_lawful();
    faults_are_lawful();
    nothing_else_is_read();
}

/// A call that is made has at most 32,768 bytes, and so fits into a body.
#[tactic(auto, using(crate::proofs::Fitting::calls_fit))]
pub fn calls_fit()
    ensures { CallsFit }
{}

/// So does a fault that answers a request, whatever the numbers in it and however long the request's addressing is.
#[tactic(auto, using(crate::proofs::Fitting::faults_fit))]
pub fn faults_fit()
    ensures { FaultsFit }
{}

/// And so does a reply, or the fault in its place.
#[tactic(auto, using(crate::proofs::Fitting::replies_fit))]
pub fn replies_fit()
    ensures { RepliesFit }
{}

/// And so does a fault that answers no request.
#[tactic(auto, using(crate::proofs::Fitting::bare_faults_fit))]
pub fn bare_faults_fit()
    ensures { BareFaultsFit }
{}
