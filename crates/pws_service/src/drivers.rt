//! Services that answer effects with acts.

ghost use Rattle.std.specs.Prelude.{◌≡◌, ℕ, Bool, true, false, List, [], ◌∷◌, ◌++◌, IfOk, OnOk, OnErr};
ghost use Rattle.pws_event.specs.declared.events.Event.{Event};
ghost use Rattle.pws_service.specs.declared.acts.Act.{Act};
ghost use Rattle.pws_service.specs.Drivers.{IsPrefix};
ghost use Rattle.pws_service.specs.Effects.{takes_effect_after, InTurn};
ghost use Rattle.pws_service.specs.Lawful.{LawfulCalls, LawfulReplies, LawfulAsks};

use crate::acts::Act;
use pws_base::memory::Memory;
use pws_event::events::Event;
use std::alloc::Global;

/// A deterministic service. Its acts so far are a function of its program and of the effects that it has taken.
pub trait Driver: Drop {
    /// What a program is.
    type Program;

    /// What is run, which no call changes.
    ghost program: { Self → Self.Program };

    /// The acts of a program on a list of effects.
    ghost acts: { Self.Program → List Event → List Act };

    /// For which group of which layout a program was made.
    ghost fits: { Self.Program → ℕ → List ℕ → Type 0 };

    /// False until `start`, and true from its Ok on.
    ghost started: { Self → Bool };

    /// Whether each further call answers `Memory`.
    ghost stopped: { Self → Bool };

    /// Whether these are the effects that it has taken.
    ghost has_taken: { Self → List Event → Type 0 };

    /// The acts on no effect. It is called once and first.
    ///
    /// # Errors
    ///
    /// `Memory` only; the driver is then stopped, and isn't started.
    fn start(&mut self, alloc: Global) -> Result<Vec<Act>, Memory>
        requires { started self.old ≡ false }
        ensures program { program self.new ≡ program self.old }
        ensures acts { IfOk result (λ v. v.items ≡ acts (program self.old) []) }
        ensures taken { OnOk result (has_taken self.new []) }
        ensures started { OnOk result (started self.new ≡ true) }
        ensures unstarted { OnErr result (started self.new ≡ false) }
        ensures going { OnOk result (stopped self.new ≡ false) }
        ensures stopped { OnErr result (stopped self.new ≡ true) }
        ensures stays { stopped self.old ≡ true → OnOk result ⊥ };

    /// The acts on one effect more, without those on the effects before it. The event takes effect after those that
    /// were taken.
    ///
    /// # Errors
    ///
    /// `Memory` only; the driver is then stopped.
    fn take(&mut self, alloc: Global, event: &Event) -> Result<Vec<Act>, Memory>
        requires { (es : List Event) × (me : ℕ) × (layout : List ℕ) × has_taken self.old es × fits (program self.old) me layout × (takes_effect_after me layout (acts (program self.old) es) es event.now ≡ true) }
        ensures program { program self.new ≡ program self.old }
        ensures acts { (es : List Event) → has_taken self.old es → IfOk result (λ v. acts (program self.old) (es ++ event.now ∷ []) ≡ acts (program self.old) es ++ v.items) }
        ensures taken { (es : List Event) → has_taken self.old es → OnOk result (has_taken self.new (es ++ event.now ∷ [])) }
        ensures started { started self.new ≡ started self.old }
        ensures going { OnOk result (stopped self.new ≡ false) }
        ensures stopped { OnErr result (stopped self.new ≡ true) }
        ensures stays { stopped self.old ≡ true → OnOk result ⊥ };

    /// Whether want of memory has stopped it: each further call answers `Memory`.
    fn is_stopped(&self) -> bool
        ensures { result ≡ stopped self.now };

    /// A driver with the same program that has taken the same effects.
    ///
    /// # Errors
    ///
    /// `Memory` only.
    fn copy(&self, alloc: Global) -> Result<Self, Memory>
        ensures program { IfOk result (λ d. program d ≡ program self.now) }
        ensures started { IfOk result (λ d. started d ≡ started self.now) }
        ensures stopped { IfOk result (λ d. stopped d ≡ stopped self.now) }
        ensures taken { (es : List Event) → has_taken self.now es → IfOk result (λ d. has_taken d es) };

    /// The acts on a prefix of the effects are a prefix of the acts on the whole.
    ghost grows: { (p : Self.Program) (earlier later : List Event) → IsPrefix (acts p earlier) (acts p (earlier ++ later)) };

    /// Where each effect took effect in turn, the calls are lawful.
    ghost lawful_calls: { (p : Self.Program) (me : ℕ) (layout : List ℕ) (es : List Event) → fits p me layout → InTurn me layout (acts p) [] es → LawfulCalls me layout es [] (acts p es) };

    /// So are the replies: each answers a request that took effect, and none is answered twice.
    ghost lawful_replies: { (p : Self.Program) (me : ℕ) (layout : List ℕ) (es : List Event) → fits p me layout → InTurn me layout (acts p) [] es → LawfulReplies es [] (acts p es) };

    /// And the asks: they have the numbers 1, 2 and so on, and none is made while one waits.
    ghost lawful_asks: { (p : Self.Program) (me : ℕ) (layout : List ℕ) (es : List Event) → fits p me layout → InTurn me layout (acts p) [] es → LawfulAsks es [] (acts p es) };
}
