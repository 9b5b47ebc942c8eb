//! The laws of the region of objects. The function does nothing: it carries them as its contract.

ghost use Rattle.code.specs.TableLaws.{RegionLaws};

use meaning::Checked;
use tables::ObjectRow;

/// In memory that holds the objects of a source, each opcode on objects does what the source's
/// objects do: links tell of the tree, bits of the attributes, property tables of the words; a
/// removal, a move, an attribute set or cleared and a word stored leave memory that holds the
/// objects after it, and all else as it was. An object table that was written holds the objects
/// with which a source begins.
pub fn opcodes_do_as_objects_do()
    ensures { RegionLaws }
{}
