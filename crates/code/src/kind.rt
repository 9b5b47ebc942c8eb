//! What items are about.

ghost use Rattle.std.specs.Prelude.{◌≡◌};
ghost use Rattle.code_drafts.specs.Code.{item_of};
ghost use Rattle.code.specs.Kinds as spec;

use code_drafts::Item;

/// What an item is about.
#[derive(Clone, Copy)]
pub enum Kind {
    /// Words that are computed, and entries of arrays.
    Words,

    Printing,

    /// An object, but for its properties.
    Tree,

    Properties,

    /// A branch or a jump by objects.
    ByObject,

    /// Where the story goes on.
    Flow,
}

/// What an item is about.
pub fn kind_of(item: &Item<'_>) -> Kind
    ensures { result ≡ spec.kind_of (item_of item.now) }
{
    match item {
        Item::Move(_, _)
        | Item::Prefix(_, _, _)
        | Item::Operate(_, _, _, _)
        | Item::OperateAside(_, _, _)
        | Item::Step(_, _, _)
        | Item::Entry(_, _, _, _)
        | Item::EntryAside(_, _, _)
        | Item::AssignEntry(_, _, _, _, _)
        | Item::AssignEntryAside(_, _, _, _, _)
        | Item::Keep(_)
        | Item::FirstEqual
        | Item::AlsoEqual
        | Item::DropBelow => Kind::Words,
        Item::PrintText(_)
        | Item::PrintCharacter(_)
        | Item::PrintNumber(_)
        | Item::PrintName(_)
        | Item::NewLine => Kind::Printing,
        Item::Relative(_, _, _)
        | Item::Give(_, _)
        | Item::MoveObject(_, _)
        | Item::RemoveObject(_) => Kind::Tree,
        Item::Property(_, _, _)
        | Item::PropertySize(_, _, _)
        | Item::PropertyWord(_, _, _, _)
        | Item::AssignProperty(_, _, _, _)
        | Item::AssignPropertyWord(_, _, _, _, _) => Kind::Properties,
        Item::IsIn(_, _, _, _)
        | Item::Has(_, _, _, _)
        | Item::Provides(_, _, _, _)
        | Item::FirstObject(_, _)
        | Item::NextObject(_, _) => Kind::ByObject,
        _ => Kind::Flow,
    }
}
