//! Laws of the readers: each is the contract of a function that does nothing.

ghost use Rattle.pws_sched.specs.Laws.{FirstFormIsSpelled};

/// A text says these requests exactly where it is the schedule of the first form that spells them, with some seed.
pub fn first_form_is_spelled()
    ensures { FirstFormIsSpelled }
{}
