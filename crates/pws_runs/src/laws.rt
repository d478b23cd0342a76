//! What follows from the definitions: each law is the contract of a function that does nothing.

ghost use Rattle.pws_runs.specs.Laws.{OpenedIsSaid, CallsAreOrdered, StepsAreCourses, EffectsStay, UnopenedChangesNothing, GivenIsSpoken, MovesChangeOne};

/// What is opened is said: the outer statement, and each voucher that verified.
pub fn opened_is_said()
    ensures { OpenedIsSaid }
{}

/// The keys of what a replica holds about calls are ordered.
pub fn calls_are_ordered()
    ensures { CallsAreOrdered }
{}

/// Each step of a replica is a course of phases.
pub fn steps_are_courses()
    ensures { StepsAreCourses }
{}

/// The effects with which a step ends are those of the list that it leaves, so that they may be carried along.
pub fn effects_stay()
    ensures { EffectsStay }
{}

/// An input that isn't opened changes nothing but that the service is started.
pub fn unopened_changes_nothing()
    ensures { UnopenedChangesNothing }
{}

/// What is said to a replica by bytes that a world doesn't refuse can be heard as their senders'.
pub fn given_is_spoken()
    ensures { GivenIsSpoken }
{}

/// A move changes one replica, and only adds to what was sent.
pub fn moves_change_one()
    ensures { MovesChangeOne }
{}
