//! Runs that exist, so that no law holds for want of one: each is the contract of a function that does nothing.

ghost use Rattle.pws_safety.specs.Witnesses.{WitnessIsTrusted, SettlesInViewZero, KeepsInViewOne};

/// A group of four that meets what the theorems suppose settles a digest in view 0.
pub fn settles_in_view_zero()
    ensures trusted { WitnessIsTrusted }
    ensures settles { SettlesInViewZero }
{}

/// It can then go to view 1 by a NEW_VIEW whose choice keeps that digest, and settle it there again.
pub fn keeps_in_view_one()
    ensures { KeepsInViewOne }
{}
