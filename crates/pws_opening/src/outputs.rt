//! What a replica puts out.

ghost use Rattle.std.specs.Prelude.{◌≡◌, ◌++◌, ◌∷◌, [], map, OnOk};
ghost use Rattle.pws_runs.specs.ReplicaStates as rule;
ghost use Rattle.pws_opening.specs.Put.{output_of};

use pws_base::lists::Sequence;
use pws_base::memory::Memory;
use pws_base::shapes::{GroupId, Place};
use pws_event::events::Event;
use pws_msg::packets::Packet;
use pws_runs::errors::Ignored;
use pws_service::acts::Act;
use std::alloc::Global;
use std::marker::Model;

/// What a replica puts out.
#[derive(Drop)]
pub enum Output {
    /// A packet to a group, or to one replica there.
    Send {
        group: GroupId,
        to: Option<u8>,
        packet: Packet,
    },
    /// An event was executed at its place, and whether it took effect.
    Executed {
        place: Place,
        event: Event,
        taken: bool,
    },
    /// An act of the service.
    Acted(Act),
    /// An input was ignored, and why.
    PassedOver(Ignored),
}

/// What a replica puts out, in order.
///
/// Contracts see it as a list.
#[derive(Drop)]
pub struct Outputs {
    items: Vec<Output>,
}

impl Model for Outputs {
    ghost use Rattle.std.specs.Prelude.{List, map};
    ghost use Rattle.pws_runs.specs.ReplicaStates.{Output};
    ghost use Rattle.pws_opening.specs.Put.{output_of};

    ghost Value = { List Output };

    ghost view = { λ o. map output_of o.items.items };
}

impl Outputs {
    /// Nothing.
    pub fn new(alloc: Global) -> Outputs
        ensures { result ≡ [] }
    {
        Outputs {
            items: Vec::new(alloc),
        }
    }

    /// The vector that holds all.
    pub fn into_vec(self) -> Vec<Output>
        ensures { map output_of result.items ≡ self }
    {
        let Outputs { items } = self;
        items
    }

    /// Puts out one thing more.
    ///
    /// # Errors
    ///
    /// `Memory` only.
    pub fn push(&mut self, output: Output) -> Result<(), Memory>
        ensures { OnOk result (self.new ≡ self.old ++ output_of output ∷ []) }
    {
        self.items.push(output)?;
        Ok(())
    }

    /// Puts out a packet to a group, or to one replica there.
    ///
    /// # Errors
    ///
    /// `Memory` only.
    pub fn send(&mut self, group: GroupId, to: Option<u8>, packet: Packet) -> Result<(), Memory>
        ensures { OnOk result (self.new ≡ self.old ++ rule.Send group to packet ∷ []) }
    {
        self.push(Output::Send { group, to, packet })
    }

    /// Puts out that an event was executed.
    ///
    /// # Errors
    ///
    /// `Memory` only.
    pub fn executed(&mut self, place: Place, event: Event, taken: bool) -> Result<(), Memory>
        ensures { OnOk result (self.new ≡ self.old ++ rule.Executed place event taken ∷ []) }
    {
        self.push(Output::Executed {
            place,
            event,
            taken,
        })
    }

    /// Puts out an act.
    ///
    /// # Errors
    ///
    /// `Memory` only.
    pub fn acted(&mut self, act: Act) -> Result<(), Memory>
        ensures { OnOk result (self.new ≡ self.old ++ rule.Acted act ∷ []) }
    {
        self.push(Output::Acted(act))
    }

    /// Puts out that an input was ignored.
    ///
    /// # Errors
    ///
    /// `Memory` only.
    pub fn passed_over(&mut self, why: Ignored) -> Result<(), Memory>
        ensures { OnOk result (self.new ≡ self.old ++ rule.PassedOver why ∷ []) }
    {
        self.push(Output::PassedOver(why))
    }
}
