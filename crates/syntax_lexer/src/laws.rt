//! Laws of tokens. The function does nothing: it carries a law as its contract.

ghost use Rattle.syntax_lexer.specs.Printable.{PrintableTokens};

/// Each byte of a text that `lex` finds is a character that prints, 32 to 126.
pub fn printable_tokens()
    ensures { PrintableTokens }
{}
