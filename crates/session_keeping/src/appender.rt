//! A writer to which bytes are added until that fails.

ghost use Rattle.std.specs.Prelude.{◌≡◌};
ghost use Rattle.session_keeping.specs.Appender.{IsAdded};

use std::io::Write;

/// A writer to which bytes are added for good; none once one of them could not be written.
#[derive(Drop)]
pub struct Appender<W> {
    writer: Option<W>,
}

impl<W: Write + Drop> Appender<W> {
    /// Bytes are added to this writer, if it is one.
    pub fn new(writer: Option<W>) -> Appender<W>
        ensures { result.writer ≡ writer }
    {
        Appender { writer }
    }

    /// Adds bytes at the end, and flushes them. It answers whether that failed now; nothing more is written then.
    pub fn add(&mut self, bytes: &[u8]) -> bool
        ensures { IsAdded W.contents bytes.now self.old.writer self.new.writer result }
    {
        match self.writer.take() {
            Some(mut writer) => {
                if writer.write_all(bytes).is_err() || writer.flush().is_err() {
                    return true;
                }
                self.writer = Some(writer);
                false
            }
            None => false,
        }
    }
}
