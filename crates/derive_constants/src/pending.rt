//! What waits for a number.

use syntax_lexer::Sign;

/// What waits for a number in a computed constant.
#[derive(Clone, Copy)]
pub enum Pending {
    /// A sum, and the sign after it.
    Adds(u16, Sign),

    /// A product, and the sign after it.
    Times(u16, Sign),

    /// A `-` or `~` before the number.
    Prefix(Sign),

    /// An open parenthesis.
    Bracket,
}
