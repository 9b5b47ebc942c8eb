//! Frames that are read.

ghost use Rattle.std.specs.Prelude.{◌≡◌};
ghost use Rattle.std.specs.Option.{is_some};
ghost use Rattle.iff_files.specs.Frames.{frames_in, most_frames, most_words, stacks_in};

use crate::chunks::bytes_after;
use crate::frames::read_head;

/// How many frames a file has at most, that of the main code included.
const MOST_FRAMES: usize = 1001;

/// How many words locals and stacks have at most.
const MOST_WORDS: usize = 65_536;

/// Whether bytes are the stacks of a story of this size.
pub(crate) fn are_stacks(bytes: &[u8], size: u32) -> bool
    ensures { result ≡ is_some (stacks_in size bytes.now) }
{
    if !bytes.starts_with(&[0, 0, 0, 0, 0, 0]) {
        return false;
    }
    are_frames(bytes, size)
}

/// Whether bytes are whole frames to their end, and not too many.
fn are_frames(bytes: &[u8], size: u32) -> bool
    ensures { result ≡ is_some (frames_in size most_frames most_words bytes.now) }
{
    let mut frames = MOST_FRAMES;
    let mut words = MOST_WORDS;
    let mut rest = bytes;
    while !rest.is_empty() {
        if frames == 0 {
            return false;
        }
        let Some(head) = read_head(rest, size, words) else {
            return false;
        };
        frames -= 1;
        words -= head.word_count();
        rest = bytes_after(rest, head.size());
    }
    true
}
