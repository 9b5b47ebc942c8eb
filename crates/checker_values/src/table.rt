//! Tables of names.

ghost use Rattle.std.specs.Prelude.{◌≡◌, OnOk};
ghost use Rattle.syntax_trees.specs.Views.{name_tree};
ghost use Rattle.checker_values.specs.Names.{key_of, in_table, with_name};
ghost use Rattle.checker_values.specs.Scope.{look_in};

use crate::binding::Binding;
use crate::file::File;
use crate::key::{Key, key_of};
use indexmap::IndexMap;
use std::alloc::AllocError;
use syntax_trees::Name;

/// Names by their keys, in order of definition.
pub type Table = IndexMap<Key, Binding>;

fn find_key(table: &Table, key: &Key) -> Option<Binding>
    ensures { result ≡ in_table table.now.entries key.now }
{
    table.get(key).copied()
}

/// What a name stands for in a table.
pub fn find(table: &Table, name: &[u8]) -> Option<Binding>
    ensures { result ≡ in_table table.now.entries (key_of name.now) }
{
    find_key(table, &key_of(name))
}

/// Gives a name its meaning, where it has none. A name that is new, as most are, is looked up once.
///
/// # Errors
///
/// `AllocError` where memory is refused.
pub fn define(name: Name<'_>, table: &mut Table, binding: Binding) -> Result<(), AllocError>
    ensures { OnOk result (table.new.entries
        ≡ with_name table.old.entries (name_tree name.entry) binding) }
{
    let key = key_of(name.text);
    let before = table.insert(key, binding)?;
    match before {
        None => Ok(()),
        Some(earlier) => {
            let same = key_of(name.text);
            table.insert(same, earlier)?;
            Ok(())
        }
    }
}

/// What a routine sees of its file, and its own names.
#[derive(Clone, Copy)]
pub struct Scope<'s> {
    pub file: &'s File,
    pub locals: &'s Table,
}

impl<'s> Scope<'s> {
    /// What a name stands for: a local hides a name of the file.
    #[tactic(auto, unfolding(crate::specs::Scope::look_in))]
    pub fn look(&self, name: &[u8]) -> Option<Binding>
        ensures { result ≡ look_in self.now name.now }
    {
        let key = key_of(name);
        match find_key(self.locals, &key) {
            Some(binding) => Some(binding),
            None => find_key(&self.file.table, &key),
        }
    }
}
