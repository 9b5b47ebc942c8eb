//! Words, and the zero bytes that fill what stands between parts.

ghost use Rattle.std.specs.Prelude.{OnOk, replicate};
ghost use Rattle.std.specs.List.{flat_map};
ghost use Rattle.story_file.specs.Layout as layout;
ghost use Rattle.code_drafts.specs.Bytes.{Adds};

use std::alloc::AllocError;

/// A word, the high byte first.
pub fn put_word(bytes: &mut Vec<u8>, word: u16) -> Result<(), AllocError>
    ensures { OnOk result (Adds bytes.old bytes.new (layout.word word)) }
{
    bytes.push((word / 256) as u8)?;
    bytes.push((word % 256) as u8)?;
    Ok(())
}

/// Words, one after another.
pub fn put_words(bytes: &mut Vec<u8>, words: &[u16]) -> Result<(), AllocError>
    ensures { OnOk result (Adds bytes.old bytes.new (flat_map layout.word words.now)) }
{
    for word in words {
        put_word(bytes, *word)?;
    }
    Ok(())
}

/// So many zero bytes.
pub fn put_zeros(bytes: &mut Vec<u8>, count: usize) -> Result<(), AllocError>
    ensures { OnOk result (Adds bytes.old bytes.new (replicate count 0)) }
{
    let mut left = count;
    while left > 0 {
        left -= 1;
        bytes.push(0)?;
    }
    Ok(())
}
