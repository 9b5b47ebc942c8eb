//! A law of what is expected. The function does nothing: it carries the law as its contract.

ghost use Rattle.std.specs.Prelude.{◌≡◌, ℕ, List};
ghost use Rattle.syntax_lexer.specs.Token.{Lexeme, position_of};
ghost use Rattle.syntax.specs.Places.{IsFirstUnfit};
ghost use Rattle.messages_advice.specs.declared.kinds.TokenKind.{TokenKind};
ghost use Rattle.messages_advice.specs.Listed.{AreExpected};

/// Kinds are expected at the token at which a fault of the grammar stands.
pub fn one_place()
    ensures { (most : ℕ) (ts : List Lexeme) (kinds : List TokenKind) (offset : ℕ)
        (a : AreExpected ts kinds) → IsFirstUnfit most ts (λ p. p.offset ≡ offset)
        → (position_of a.token).offset ≡ offset }
{}
