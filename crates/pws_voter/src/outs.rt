//! What a voter puts out.

ghost use Rattle.std.specs.Prelude.{◌≡◌, ◌++◌, ◌∷◌, [], map, OnOk};
ghost use Rattle.pws_protocol.specs.Hearing as out;
ghost use Rattle.pws_voter.specs.Shown.{out_of};

use pws_base::lists::Sequence;
use pws_base::memory::Memory;
use pws_base::shapes::Place;
use pws_event::events::Event;
use pws_msg::contents::Content;
use pws_msg::packets::Voucher;
use pws_votes::kinds::Vote;
use std::alloc::Global;
use std::marker::Model;

/// What a voter puts out.
#[derive(Drop)]
pub enum Out {
    /// A statement to all other replicas of the group, with vouchers.
    Send {
        content: Content,
        vouchers: Sequence<Voucher>,
    },
    /// The event of the next place, which is to be executed before the voter is given anything else.
    Execute {
        place: Place,
        event: Event,
    },
    /// Something that was heard isn't kept: `Outside` or `Already`.
    Unkept(Vote),
}

/// What a voter puts out, in order.
///
/// Contracts see it as a list.
#[derive(Drop)]
pub(crate) struct Outs {
    items: Vec<Out>,
}

impl Model for Outs {
    ghost use Rattle.std.specs.Prelude.{List, map};
    ghost use Rattle.pws_protocol.specs.Hearing.{Out};
    ghost use Rattle.pws_voter.specs.Shown.{out_of};

    ghost Value = { List Out };

    ghost view = { λ o. map out_of o.items.items };
}

impl Outs {
    /// Nothing.
    pub(crate) fn new(alloc: Global) -> Outs
        ensures { result ≡ [] }
    {
        Outs {
            items: Vec::new(alloc),
        }
    }

    /// The vector that holds all.
    pub(crate) fn into_vec(self) -> Vec<Out>
        ensures { map out_of result.items ≡ self }
    {
        let Outs { items } = self;
        items
    }

    /// Puts out a statement with vouchers.
    ///
    /// # Errors
    ///
    /// `Memory` only.
    pub(crate) fn send(
        &mut self,
        content: Content,
        vouchers: Sequence<Voucher>,
    ) -> Result<(), Memory>
        ensures { OnOk result (self.new ≡ self.old ++ out.Send content vouchers ∷ []) }
    {
        self.items.push(Out::Send { content, vouchers })?;
        Ok(())
    }

    /// Puts out an event to be executed.
    ///
    /// # Errors
    ///
    /// `Memory` only.
    pub(crate) fn execute(&mut self, place: Place, event: Event) -> Result<(), Memory>
        ensures { OnOk result (self.new ≡ self.old ++ out.Execute place event ∷ []) }
    {
        self.items.push(Out::Execute { place, event })?;
        Ok(())
    }

    /// Puts out that something isn't kept.
    ///
    /// # Errors
    ///
    /// `Memory` only.
    pub(crate) fn unkept(&mut self, why: Vote) -> Result<(), Memory>
        ensures { OnOk result (self.new ≡ self.old ++ out.Unkept why ∷ []) }
    {
        self.items.push(Out::Unkept(why))?;
        Ok(())
    }
}
