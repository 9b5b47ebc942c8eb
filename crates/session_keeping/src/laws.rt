//! Laws of the lines of play. The functions do nothing: each carries a law as its contract.

ghost use Rattle.session_keeping.specs.Laws.{ReadsBack, KeepsPieces, TakenReadBack};

/// What is kept of lines reads back as they were typed.
pub fn reads_back()
    ensures { ReadsBack }
{}

/// What is kept of lines in pieces is what is kept of them at once.
pub fn keeps_pieces()
    ensures { KeepsPieces }
{}

/// Of a whole file the lines that were taken read back, and what the story was given for them.
pub fn taken_read_back()
    ensures { TakenReadBack }
{}
