//! Where `break` and `continue` lead.

/// The ends to which a statement leads that breaks, and one that continues, each told by how many
/// items there are from there on to the end of the routine.
#[derive(Clone, Copy)]
pub struct Exits {
    pub breaks: usize,
    pub continues: usize,
}
