//! The numbers that link objects.

/// One of the three numbers that link an object to others (Z-Machine Standards Document 1.1,
/// section 12.3), 0 for none.
#[derive(Clone, Copy, Debug)]
pub enum Link {
    /// The object that an object stands in.
    Parent(u16),

    /// The next object that stands in the same.
    Sibling(u16),

    /// The first object that stands in an object.
    Child(u16),
}
