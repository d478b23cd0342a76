//! The counters of effects note what a service calls and asks.

ghost use Rattle.std.specs.Prelude.{◌≡◌, List, [], ◌∷◌, ◌++◌};
ghost use Rattle.pws_event.specs.declared.events.Event.{Event};
ghost use Rattle.pws_event.specs.Counters.{HasTaken};
ghost use Rattle.pws_service.specs.declared.acts.Act.{Act};
ghost use Rattle.pws_service.specs.Noting.{led, MayNote, CanNote};

use crate::acts::Act;
use pws_event::effects::Effect;
use pws_event::readings::Sort;

/// Notes an act, which may be noted.
pub fn note_act(effect: &mut Effect, act: &Act)
    requires { MayNote effect.old act.now }
    ensures taken { (es : List Event) (before : List Act) → HasTaken effect.old (led before es) → HasTaken effect.new (led (before ++ act.now ∷ []) es) }
    ensures me { effect.new.me ≡ effect.old.me }
    ensures layout { effect.new.layout ≡ effect.old.layout }
{
    match act {
        Act::Call { called, number, .. } => effect.call(*called, *number),
        Act::Reply { .. } => {}
        Act::AskClock { .. } => effect.ask(Sort::Clock),
        Act::AskRandom { .. } => effect.ask(Sort::Random),
        Act::Halted => {}
    }
}

/// Notes acts in order. Its condition: they are lawful after the acts that were noted, on effects that were taken in
/// turn, as those of each `Driver` are.
pub fn note_acts(effect: &mut Effect, acts: &[Act])
    requires { CanNote effect.old acts.now }
    ensures taken { (es : List Event) (before : List Act) → HasTaken effect.old (led before es) → HasTaken effect.new (led (before ++ acts.now) es) }
    ensures me { effect.new.me ≡ effect.old.me }
    ensures layout { effect.new.layout ≡ effect.old.layout }
{
    for act in acts.iter() {
        note_act(effect, act);
    }
}
