//! A driver and the counters of effects are led together.

ghost use Rattle.std.specs.Prelude.{◌≡◌, false, true, List, [], ◌∷◌, ◌++◌, IfOk, OnOk};
ghost use Rattle.pws_event.specs.declared.events.Event.{Event};
ghost use Rattle.pws_event.specs.Counters.{HasTaken};
ghost use Rattle.pws_service.specs.Noting.{led};
ghost use Rattle.pws_service.specs.Holders.{IsLed, effects_more, BringsActs};

use crate::acts::Act;
use crate::drivers::Driver;
use crate::noting::note_acts;
use pws_base::memory::Memory;
use pws_event::effects::{Effect, Taken};
use pws_event::events::Event;
use std::alloc::Global;

/// Starts a driver and notes what it calls and asks. Its conditions: the driver fits the group of the counters and isn't
/// started, and the counters are those before the first event.
///
/// # Errors
///
/// `Memory` only; the driver is then stopped.
pub fn start<D: Driver>(
    alloc: Global,
    driver: &mut D,
    effect: &mut Effect,
) -> Result<Vec<Act>, Memory>
    requires fresh { D.started driver.old ≡ false }
    requires fits { D.fits (D.program driver.old) effect.old.me effect.old.layout }
    requires counters { HasTaken effect.old (led [] []) }
    ensures acts { IfOk result (λ v. v.items ≡ D.acts (D.program driver.old) []) }
    ensures led { OnOk result (IsLed (D.has_taken driver.new) (D.acts (D.program driver.old)) effect.new []) }
    ensures started { OnOk result (D.started driver.new ≡ true) }
    ensures program { D.program driver.new ≡ D.program driver.old }
    ensures me { effect.new.me ≡ effect.old.me }
    ensures layout { effect.new.layout ≡ effect.old.layout }
{
    let acts = driver.start(alloc)?;
    note_acts(effect, acts.as_slice());
    Ok(acts)
}

/// Gives an event to a driver if it takes effect, and notes what the driver calls and asks. Its condition: driver and
/// counters were led together so far.
///
/// # Errors
///
/// `Memory` only; the driver is then stopped.
pub fn take<D: Driver>(
    alloc: Global,
    driver: &mut D,
    effect: &mut Effect,
    event: &Event,
) -> Result<Vec<Act>, Memory>
    requires { (es : List Event) × D.fits (D.program driver.old) effect.old.me effect.old.layout × IsLed (D.has_taken driver.old) (D.acts (D.program driver.old)) effect.old es }
    ensures acts { (es : List Event) → IsLed (D.has_taken driver.old) (D.acts (D.program driver.old)) effect.old es → IfOk result (λ v. BringsActs effect.old (D.acts (D.program driver.old)) es event.now v.items) }
    ensures led { (es : List Event) → IsLed (D.has_taken driver.old) (D.acts (D.program driver.old)) effect.old es → OnOk result (IsLed (D.has_taken driver.new) (D.acts (D.program driver.old)) effect.new (effects_more effect.old (D.acts (D.program driver.old)) es event.now)) }
    ensures started { D.started driver.new ≡ D.started driver.old }
    ensures program { D.program driver.new ≡ D.program driver.old }
    ensures me { effect.new.me ≡ effect.old.me }
    ensures layout { effect.new.layout ≡ effect.old.layout }
{
    match effect.take(event) {
        Taken::Void => Ok(Vec::new(alloc)),
        Taken::Taken => {
            let acts = driver.take(alloc, event)?;
            note_acts(effect, acts.as_slice());
            Ok(acts)
        }
    }
}
