//! Places of a group's list of events that are open at once.

ghost use Rattle.std.specs.Prelude.{◌≡◌};
ghost use Rattle.pws_base.specs.Places.{is_in_window};

use crate::limits::PLACE_WINDOW;
use crate::shapes::Place;

/// Whether a place is one of the 32 above the low mark.
pub fn is_in_window(low: Place, place: Place) -> bool
    ensures { result ≡ is_in_window low place }
{
    low < place && place - low <= PLACE_WINDOW
}
