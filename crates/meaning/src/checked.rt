//! Programs that break no rule.

ghost use Rattle.std.specs.Prelude.{◌≡◌, ◌<◌, ◌≤◌, ◌^◌, length, map, slice_get, Some};
ghost use Rattle.std.specs.List.{concat};
ghost use Rattle.std.specs.Option.{option_map};
ghost use Rattle.std.specs.Coded.{codes};
ghost use denote.Signature.{static_lft};
ghost use Rattle.meaning.specs.contracts.resolved.Action as statement;
ghost use Rattle.meaning.specs.Views.{CheckedProgram, routine_of, program_of, cut, AreArrays};
ghost use Rattle.meaning.specs.Meaning.{routine_at};

use crate::arrays::Arrays;
use crate::resolved::Action;
use std::marker::Model;
use syntax_trees::Name;
use zcore::Abbreviations;

/// A routine of an accepted program.
#[derive(Drop)]
pub struct CheckedRoutine<'a> {
    pub name: Name<'a>,
    pub locals: usize,
    pub body: Vec<Action<'a>>,

    /// 32 for each token from its `[` to the `;` after its `]`, and 3 for each byte between the
    /// quotes of a text.
    pub weight: u128,
}

/// An object of an accepted program.
#[derive(Drop)]
pub struct CheckedObject<'a> {
    /// The number of its parent, 0 for none.
    pub parent: u16,

    /// The bytes between the quotes of its short name.
    pub name: &'a [u8],

    /// The numbers of its attributes, from 0.
    pub attributes: Vec<u8>,

    /// The number of each property, from 1, and its words.
    pub properties: Vec<(u8, Vec<u16>)>,
}

/// A program that breaks no rule of the language.
#[derive(Drop)]
pub struct Checked<'a> {
    globals: Vec<u16>,
    arrays: Arrays,
    defaults: Vec<u16>,
    objects: Vec<CheckedObject<'a>>,
    keys: Vec<u64>,
    abbreviations: Abbreviations,
    routines: Vec<CheckedRoutine<'a>>,
    main: usize,
    weight: u128,
    end_line: usize,
}

impl<'a> Model for Checked<'a> {
    ghost Value = { CheckedProgram };

    ghost coded = { Prim.hlevel (codes, (statement.the_row static_lft).coded) };

    ghost view = { λ c. record { globals = c.globals.items; arrays = cut c.arrays.sizes.items c.arrays.bytes.items; defaults = c.defaults.items; objects = c.objects.items; keys = c.keys.items; abbreviations = c.abbreviations; routines = c.routines.items; main = c.main; weight = c.weight; end_line = c.end_line } };

    ghost invariant = { λ c. AreArrays c.arrays.sizes.items c.arrays.bytes.items × (length c.keys.items ≤ 2 ^ 59) };
}

impl<'a> Checked<'a> {
    /// A program with these globals, arrays, objects, keys, abbreviations and routines, the number
    /// of `Main`, the weight of its source, and the line where the source ends.
    pub fn new(
        globals: Vec<u16>,
        arrays: Arrays,
        defaults: Vec<u16>,
        objects: Vec<CheckedObject<'a>>,
        keys: Vec<u64>,
        abbreviations: Abbreviations,
        routines: Vec<CheckedRoutine<'a>>,
        main: usize,
        weight: u128,
        end_line: usize,
    ) -> Self
        requires arrays { AreArrays arrays.sizes.items arrays.bytes.items }
        requires few { length keys.items ≤ 2 ^ 59 }
        ensures { result ≡ record {
          globals = globals.items;
          arrays = cut arrays.sizes.items arrays.bytes.items;
          defaults = defaults.items;
          objects = objects.entry.items;
          keys = keys.items;
          abbreviations = abbreviations;
          routines = routines.entry.items;
          main = main;
          weight = weight;
          end_line = end_line;
        } }
    {
        Checked {
            globals,
            arrays,
            defaults,
            objects,
            keys,
            abbreviations,
            routines,
            main,
            weight,
            end_line,
        }
    }

    /// What the global variables begin with, in order of definition.
    pub fn globals(&self) -> &[u16]
        ensures { result.now ≡ self.now.globals }
    {
        &self.globals
    }

    /// The bytes that the arrays begin with, one array after another in order of definition.
    pub fn array_bytes(&self) -> &[u8]
        ensures { result.now ≡ concat self.now.arrays }
    {
        &self.arrays.bytes
    }

    /// How many bytes each array has.
    pub fn array_sizes(&self) -> &[usize]
        ensures { result.now ≡ map length self.now.arrays }
    {
        &self.arrays.sizes
    }

    /// The defaults of the properties, from that of property 1 on.
    pub fn defaults(&self) -> &[u16]
        ensures { result.now ≡ self.now.defaults }
    {
        &self.defaults
    }

    /// The objects in order of definition. The first has the number 1.
    pub fn objects(&self) -> &[CheckedObject<'a>]
        ensures { result.now ≡ self.now.objects }
    {
        &self.objects
    }

    /// The keys of the dictionary words, each once and ascending.
    pub fn keys(&self) -> &[u64]
        ensures keys { result.now ≡ self.now.keys }
        ensures few { length result.now ≤ 2 ^ 59 }
    {
        &self.keys
    }

    /// The abbreviations in order, in characters of the machine.
    pub fn abbreviations(&self) -> &Abbreviations
        ensures { result.now ≡ self.now.abbreviations }
    {
        &self.abbreviations
    }

    /// How many routines there are.
    pub fn routines(&self) -> usize
        ensures { result ≡ length self.now.routines }
    {
        self.routines.len()
    }

    /// A routine, by its number in order of definition.
    #[tactic(auto, using(crate::proofs::Routines::routine_found))]
    pub fn routine(&self, routine: usize) -> &CheckedRoutine<'a>
        requires { routine < length self.now.routines }
        ensures given { Some result.now ≡ slice_get self.now.routines routine }
        ensures resolved { routine_of result.now
            ≡ routine_at (program_of self.now).routines routine }
    {
        &self.routines[routine]
    }

    /// The routines in order of definition.
    pub(crate) fn in_order(&self) -> &[CheckedRoutine<'a>]
        ensures { result.now ≡ self.now.routines }
    {
        &self.routines
    }

    /// The weight of a routine, by its number.
    pub fn weight(&self, routine: usize) -> u128
        requires { routine < length self.now.routines }
        ensures { Some result ≡ option_map (λ r. r.weight) (slice_get self.now.routines routine) }
    {
        self.routines[routine].weight
    }

    /// The number of the routine `Main`.
    pub fn main(&self) -> usize
        ensures { result ≡ self.now.main }
    {
        self.main
    }

    /// 32 for each token of the source but the end, and 3 for each byte between the quotes of a
    /// text.
    pub fn source_weight(&self) -> u128
        ensures { result ≡ self.now.weight }
    {
        self.weight
    }

    /// The line where the source ends.
    pub fn end_line(&self) -> usize
        ensures { result ≡ self.now.end_line }
    {
        self.end_line
    }
}
