//! The operations that the profile does not have.

/// What an opcode of versions 5 and 8 does that the profile does not have, or `aread`, which the
/// profile knows with two operands only (Z-Machine Standards Document 1.1, section 15).
#[derive(Clone, Copy, Debug, PartialEq, Eq)]
pub enum StandardOperation {
    /// `restart`: the story begins again.
    Restart,
    /// `catch`: the number of the running routine's frame, for `throw`.
    Catch,
    /// `show_status`, which does nothing.
    ShowStatus,
    /// `verify`: a branch if the file has the sum that its header states.
    Verify,
    /// `piracy`: a branch that is always made.
    Piracy,
    /// `set_colour`, which does nothing.
    SetColour,
    /// `throw`: a return from the routine of a frame that `catch` numbered.
    Throw,
    /// `aread` with one to four operands: waits for a line.
    Read,
    /// `random`: a number from the dice, or what they go on with.
    Random,
    /// `split_window`: erases the upper window where it gets no lines.
    SplitWindow,
    /// `set_window`: selects a window.
    SetWindow,
    /// `erase_window`: erases the upper window.
    EraseWindow,
    /// `erase_line`, which does nothing.
    EraseLine,
    /// `set_cursor`: the place in the upper window where text goes on.
    SetCursor,
    /// `get_cursor`: the row and the column of the cursor.
    GetCursor,
    /// `set_text_style`, which does nothing.
    SetTextStyle,
    /// `buffer_mode`, which does nothing.
    BufferMode,
    /// `output_stream`: the transcript is always written, stream 3 goes to a table.
    OutputStream,
    /// `input_stream`, which does nothing.
    InputStream,
    /// `sound_effect`, which does nothing.
    SoundEffect,
    /// `read_char` with up to three operands: waits for a key.
    ReadChar,
    /// `scan_table`: searches a table for a word or a byte.
    ScanTable,
    /// `tokenise`: cuts a text into the words of a dictionary.
    Tokenise,
    /// `encode_text`: a text as a key of a dictionary.
    EncodeText,
    /// `copy_table`: copies bytes or clears them.
    CopyTable,
    /// `print_table`: prints rows of characters.
    PrintTable,
    /// `save`, which fails.
    Save,
    /// `restore`, which fails.
    Restore,
    /// `log_shift`: shifts a word.
    LogShift,
    /// `art_shift`: shifts a word, and keeps its sign.
    ArtShift,
    /// `set_font`: only the normal font is there.
    SetFont,
    /// `save_undo`, which says that there is no undo.
    SaveUndo,
    /// `restore_undo`, which fails.
    RestoreUndo,
    /// `print_unicode`: prints a character.
    PrintUnicode,
    /// `check_unicode`: whether a character can be printed and typed.
    CheckUnicode,
    /// `set_true_colour`, which does nothing.
    SetTrueColour,
}

/// What an opcode does in versions up to 4 and no longer from version 5 on (Z-Machine Standards Document
/// 1.1, section 15).
#[derive(Clone, Copy, Debug, PartialEq, Eq)]
pub enum OlderOperation {
    /// `not` with an opcode of one operand.
    Not,
    /// `pop`: drops the top of the stack.
    Pop,
    /// `save`, which fails.
    Save,
    /// `restore`, which fails.
    Restore,
    /// `sread`: waits for a line.
    Read,
}
