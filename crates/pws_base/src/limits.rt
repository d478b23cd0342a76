//! The bounds of numbers, texts, groups and windows, in one place: `specs/Limits.antt` has the same numbers under the
//! same names.

ghost use Rattle.std.specs.Prelude.{◌≡◌};
ghost use Rattle.pws_base.specs.Limits.{max_number, max_body, max_groups, max_replicas, max_compromised, call_window, place_window, checkpoint_distance, max_event, max_packet, max_kept};

/// The greatest number of a place, a view, a request, a call or an ask.
pub const MAX_NUMBER: u32 = 1_000_000;

/// The longest body, in bytes.
pub const MAX_BODY: u32 = 32_768;

/// The most groups of a layout.
pub const MAX_GROUPS: u8 = 16;

/// The most replicas of a group.
pub const MAX_REPLICAS: u8 = 10;

/// The most replicas of a group that may be compromised.
pub const MAX_COMPROMISED: u8 = 3;

/// How many numbers of calls between two groups are open at once, from the low number on.
pub const CALL_WINDOW: u32 = 16;

/// How many places above the low mark are open at once.
pub const PLACE_WINDOW: u32 = 32;

/// How many places lie between two checkpoints.
pub const CHECKPOINT_DISTANCE: u32 = 16;

/// The longest text of an event, in bytes.
pub const MAX_EVENT: usize = 32_782;

/// The longest packet, in bytes.
pub const MAX_PACKET: usize = 98_304;

/// How many bytes of texts a list of events keeps.
pub const MAX_KEPT: usize = 1_073_741_824;

/// The constants are the words of one name.
pub fn limits_are_words()
    ensures numbers { MAX_NUMBER ≡ max_number }
    ensures bodies { MAX_BODY ≡ max_body }
    ensures groups { MAX_GROUPS ≡ max_groups }
    ensures replicas { MAX_REPLICAS ≡ max_replicas }
    ensures compromised { MAX_COMPROMISED ≡ max_compromised }
    ensures calls { CALL_WINDOW ≡ call_window }
    ensures places { PLACE_WINDOW ≡ place_window }
    ensures checkpoints { CHECKPOINT_DISTANCE ≡ checkpoint_distance }
    ensures events { MAX_EVENT ≡ max_event }
    ensures packets { MAX_PACKET ≡ max_packet }
    ensures kept { MAX_KEPT ≡ max_kept }
{}
