//! Laws of derived tokens. The function does nothing: it carries a law as its contract.

ghost use Rattle.derive_tokens.specs.ReadBack.{ReadsBack};

/// The lexer finds in tokens that are written these tokens, each on its line.
pub fn reads_back()
    ensures { ReadsBack }
{}
