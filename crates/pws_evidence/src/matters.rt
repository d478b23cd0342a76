//! What statements are evidence of, and for how long it is kept.

ghost use Rattle.std.specs.Prelude.{◌≡◌, ◌≤◌, ◌+◌};
ghost use Rattle.pws_base.specs.Limits.{max_number};
ghost use Rattle.pws_protocol.specs.Evidence.{matter_of, is_open, is_inside, no_evidence, is_call_inside};

use pws_base::limits::CALL_WINDOW;
use pws_base::shapes::{GroupId, Layout, Number, ReplicaId};
use pws_event::effects::Effect;
use pws_msg::contents::Content;
use pws_protocol::keys::Matter;

/// What a sender's content is evidence of in a group, if of anything: a reply only where it answers a call of this group.
pub(crate) fn matter_of(group: GroupId, sender: ReplicaId, content: &Content) -> Option<Matter>
    ensures { result ≡ matter_of group sender content.now }
{
    match content {
        Content::Request(request) => Some(Matter::Requested {
            caller: sender.group,
            number: request.number(),
        }),
        Content::Reply(reply) => {
            if reply.caller() == group {
                Some(Matter::Replied {
                    called: sender.group,
                    number: reply.number(),
                })
            } else {
                None
            }
        }
        Content::Expired(call) => Some(Matter::Expired {
            called: call.called(),
            number: call.number(),
        }),
        Content::Reading(reading) => Some(Matter::Read { ask: reading.ask() }),
        _ => None,
    }
}

/// Whether a number is one of the sixteen from the least on.
fn is_open(least: Number, number: Number) -> bool
    requires { least ≤ max_number + 1 }
    ensures { result ≡ is_open least number }
{
    least <= number && number < least + CALL_WINDOW
}

/// Whether the called group is another of the layout, and the number one of the sixteen from the least that waits on.
pub(crate) fn is_call_inside(
    group: GroupId,
    layout: &Layout,
    asked: &Effect,
    called: GroupId,
    number: Number,
) -> bool
    ensures { result ≡ is_call_inside (no_evidence group layout.now) asked.now called number }
{
    layout.is_other(group, called) && is_open(asked.low_out(called), number)
}

/// Whether a matter is inside: of a caller the sixteen requests after the last that took effect, of a called group the
/// sixteen calls from the least that waits on, and the sixteen asks after those that were answered.
#[tactic(auto, unfolding(pws_protocol::specs::Evidence::is_inside))]
pub(crate) fn is_inside(group: GroupId, layout: &Layout, asked: &Effect, matter: Matter) -> bool
    ensures { result ≡ is_inside (no_evidence group layout.now) asked.now matter }
{
    match matter {
        Matter::Requested { caller, number } => is_open(asked.last(caller) + 1, number),
        Matter::Replied { called, number } => is_call_inside(group, layout, asked, called, number),
        Matter::Expired { called, number } => is_call_inside(group, layout, asked, called, number),
        Matter::Read { ask } => is_open(asked.answered_asks() + 1, ask),
    }
}
