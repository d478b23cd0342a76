//! How long contents are, without writing them.

ghost use Rattle.std.specs.Prelude.{◌≡◌, ◌≤◌, All, length};
ghost use Rattle.std.specs.List.{flat_map};
ghost use Rattle.pws_msg.specs.Contents.{IsContent, fields_text, content_text};
ghost use Rattle.pws_msg.specs.Reported.{IsViewChange, IsNewView};
ghost use Rattle.pws_msg.specs.Rows.{IsQRow, q_row_text};
ghost use Rattle.pws_msg.specs.StatementTexts.{reading_value_text, own_request_text, reply_note_text, call_name_text, own_reading_text, proposal_text, place_vote_text, place_digest_text, change_name_text, wanted_place_text, decided_event_text, view_change_text, new_view_text};
ghost use Rattle.pws_msg.specs.Wire.{longest_content};

use crate::changes::{NewView, QRow, ViewChange};
use crate::contents::Content;
use crate::places::{ChangeName, DecidedEvent, PlaceDigest, PlaceVote, Proposal, WantedPlace};
use crate::readings::ReadingValue;
use crate::requests::{CallName, OwnReading, OwnRequest, ReplyNote};
use pws_event::events::event_length;

/// How many bytes spell a time or a share, with its sort.
#[tactic(auto, using(crate::proofs::Sizes::time_size, crate::proofs::Sizes::share_size))]
fn reading_value_length(value: ReadingValue) -> usize
    ensures value { result ≡ length (reading_value_text value) }
    ensures few { result ≤ 33 }
{
    // shows: a share has 32 bytes
    value.is_lawful();
    match value {
        ReadingValue::Time(_) => 9,
        ReadingValue::Share(_) => 33,
    }
}

#[tactic(auto, using(crate::proofs::Sizes::request_size))]
fn own_request_length(request: &OwnRequest) -> usize
    ensures value { result ≡ length (own_request_text request.now) }
    ensures few { result ≤ 32780 }
{
    // shows: the body is short
    let _number = request.number();
    12 + request.body().len()
}

#[tactic(auto, using(crate::proofs::Sizes::reply_size))]
fn reply_note_length(reply: &ReplyNote) -> usize
    ensures { result ≡ length (reply_note_text reply.now) }
{
    // shows: the digest has 32 bytes
    let _number = reply.number();
    37
}

#[tactic(auto, using(crate::proofs::Sizes::call_size))]
fn call_name_length(call: &CallName) -> usize
    ensures { result ≡ length (call_name_text call.now) }
{
    // shows: what a call's name is
    let _number = call.number();
    5
}

#[tactic(auto, using(crate::proofs::Sizes::reading_size))]
fn own_reading_length(reading: &OwnReading) -> usize
    ensures { result ≡ length (own_reading_text reading.now) }
{
    4 + reading_value_length(reading.value())
}

#[tactic(auto, using(crate::proofs::Sizes::proposal_size))]
fn proposal_length(proposal: &Proposal) -> usize
    ensures { result ≡ length (proposal_text proposal.now) }
{
    8 + event_length(proposal.event())
}

#[tactic(auto, using(crate::proofs::Sizes::vote_size))]
fn place_vote_length(vote: &PlaceVote) -> usize
    ensures { result ≡ length (place_vote_text vote.now) }
{
    // shows: the digest has 32 bytes
    let _place = vote.place();
    40
}

#[tactic(auto, using(crate::proofs::Sizes::checkpoint_size))]
fn place_digest_length(checkpoint: &PlaceDigest) -> usize
    ensures { result ≡ length (place_digest_text checkpoint.now) }
{
    // shows: the digest has 32 bytes
    let _place = checkpoint.place();
    36
}

#[tactic(auto, using(crate::proofs::Sizes::change_name_size))]
fn change_name_length(change: &ChangeName) -> usize
    ensures { result ≡ length (change_name_text change.now) }
{
    // shows: the digest has 32 bytes
    let _view = change.view();
    37
}

#[tactic(auto, using(crate::proofs::Sizes::wanted_size))]
fn wanted_place_length(wanted: &WantedPlace) -> usize
    ensures { result ≡ length (wanted_place_text wanted.now) }
{
    // shows: what a wanted place is
    let _place = wanted.place();
    4
}

#[tactic(auto, using(crate::proofs::Sizes::done_size))]
fn decided_event_length(decided: &DecidedEvent) -> usize
    ensures { result ≡ length (decided_event_text decided.now) }
{
    4 + event_length(decided.event())
}

/// How many bytes spell rows of a pre-prepared set.
fn q_rows_length(rows: &[QRow]) -> usize
    requires lawful { All IsQRow rows.now }
    requires few { length rows.now ≤ 32 }
    ensures value { result ≡ length (flat_map q_row_text rows.now) }
    ensures few { result ≤ 18592 }
{
    let mut sum = 0;
    for row in rows.iter() {
        sum += 5 + 36 * row.digests.len();
    }
    sum
}

#[tactic(auto, using(crate::proofs::Sizes::view_change_size))]
fn view_change_length(change: &ViewChange) -> usize
    requires { IsViewChange change.now }
    ensures { result ≡ length (view_change_text change.now) }
{
    let rows = q_rows_length(change.pre_prepared.as_slice());
    11 + 36 * change.checkpoints.len() + 40 * change.prepared.len() + rows
}

#[tactic(auto, using(crate::proofs::Sizes::new_view_size))]
fn new_view_length(new_view: &NewView) -> usize
    requires { IsNewView new_view.now }
    ensures { result ≡ length (new_view_text new_view.now) }
{
    42 + 33 * new_view.named.len() + 32 * new_view.choice.chosen.len()
}

/// How many bytes spell the fields of a content.
fn fields_length(content: &Content) -> usize
    ensures { result ≡ length (fields_text content.now) }
{
    match content {
        Content::Request(request) => own_request_length(request),
        Content::Reply(reply) => reply_note_length(reply),
        Content::Part(reply) => reply_note_length(reply),
        Content::Expired(call) => call_name_length(call),
        Content::Reading(reading) => own_reading_length(reading),
        Content::PrePrepare(proposal) => proposal_length(proposal),
        Content::Prepare(vote) => place_vote_length(vote),
        Content::Commit(vote) => place_vote_length(vote),
        Content::Checkpoint(checkpoint) => place_digest_length(checkpoint),
        Content::ViewChange(change) => view_change_length(change.change()),
        Content::Ack(change) => change_name_length(change),
        Content::NewView(new_view) => new_view_length(new_view.new_view()),
        Content::Relay(change) => change_name_length(change),
        Content::Fetch(wanted) => wanted_place_length(wanted),
        Content::Done(decided) => decided_event_length(decided),
        Content::Need(digest) => digest.as_slice().len(),
        Content::Give(event) => event_length(event),
    }
}

/// How many bytes spell a content, at most 32,791; it takes no memory.
#[tactic(auto, using(crate::proofs::Sizes::content_size, crate::proofs::Lengths::content_small))]
pub fn content_length(content: &Content) -> usize
    ensures value { result ≡ length (content_text content.now) }
    ensures lawful { IsContent content.now }
    ensures few { result ≤ longest_content }
{
    // shows: the content's fields are in range
    content.is_lawful();
    fields_length(content).saturating_add(1)
}
