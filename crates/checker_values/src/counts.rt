//! How much was defined.

use syntax::Directive;

/// How many definitions of each numbered kind stand before a directive.
#[derive(Clone, Copy)]
pub struct Counts {
    pub globals: usize,
    pub arrays: usize,
    pub attributes: usize,
    pub properties: usize,
    pub objects: usize,
    pub routines: usize,
}

impl Counts {
    ghost use Rattle.std.specs.Prelude.{◌≡◌, ◌^◌};
    ghost use Rattle.syntax_directives.specs.Views.{directive_tree};
    ghost use Rattle.checker_values.specs.Names.{no_counts, AreFewer, counts_after};

    /// Before the first directive.
    pub fn none() -> Counts
        ensures { result ≡ no_counts }
    {
        Counts {
            globals: 0,
            arrays: 0,
            attributes: 0,
            properties: 0,
            objects: 0,
            routines: 0,
        }
    }

    /// After a directive.
    pub fn add(&mut self, directive: &Directive<'_>)
        requires few { AreFewer (2 ^ 63) self.old }
        ensures { self.new ≡ counts_after self.old (directive_tree directive.now) }
    {
        match directive {
            Directive::Global(_, _) => self.globals += 1,
            Directive::Constant(_, _) => {}
            Directive::Array(_) => self.arrays += 1,
            Directive::Attribute(_) => self.attributes += 1,
            Directive::Property(_, _) => self.properties += 1,
            Directive::Object(_) => self.objects += 1,
            Directive::Routine(_) => self.routines += 1,
        }
    }
}
