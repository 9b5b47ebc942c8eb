//! The law of keys. The function does nothing: it carries a law as its contract.

ghost use Rattle.checker_values.specs.Laws.{KeysAreEachOnce};

/// The keys of words ascend, and are those of the words and no others.
pub fn keys_are_each_once()
    ensures { KeysAreEachOnce }
{}
