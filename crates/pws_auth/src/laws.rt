//! Laws of keys: each is the contract of a function that does nothing.

ghost use Rattle.pws_auth.specs.Laws.{KeysAreShared, NoKeyWithOneself};

/// Two replicas have one key, whichever is named first, and none has a key with itself.
pub fn keys_are_shared()
    ensures shared { KeysAreShared }
    ensures alone { NoKeyWithOneself }
{}
