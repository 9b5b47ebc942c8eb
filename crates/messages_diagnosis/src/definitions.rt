//! How many attributes and properties a source defines.

ghost use Rattle.std.specs.Prelude.{◌≡◌, map};
ghost use Rattle.syntax_directives.specs.Views.{directive_tree};
ghost use Rattle.messages_diagnosis.specs.Figures as spec;

use syntax::Directive;

fn is_attribute(directive: &Directive<'_>) -> bool
    ensures { result ≡ spec.is_attribute (directive_tree directive.now) }
{
    match directive {
        Directive::Global(_, _) => false,
        Directive::Constant(_, _) => false,
        Directive::Array(_) => false,
        Directive::Attribute(_) => true,
        Directive::Property(_, _) => false,
        Directive::Object(_) => false,
        Directive::Routine(_) => false,
    }
}

fn is_property(directive: &Directive<'_>) -> bool
    ensures { result ≡ spec.is_property (directive_tree directive.now) }
{
    match directive {
        Directive::Global(_, _) => false,
        Directive::Constant(_, _) => false,
        Directive::Array(_) => false,
        Directive::Attribute(_) => false,
        Directive::Property(_, _) => true,
        Directive::Object(_) => false,
        Directive::Routine(_) => false,
    }
}

/// How many attributes directives define.
pub fn attributes_in(directives: &[Directive<'_>]) -> usize
    ensures { result ≡ spec.attributes_in (map directive_tree directives.now) }
{
    let mut count = 0;
    for directive in directives {
        if is_attribute(directive) {
            count += 1;
        }
    }
    count
}

/// How many properties directives define. The property `name` is not among them.
pub fn properties_in(directives: &[Directive<'_>]) -> usize
    ensures { result ≡ spec.properties_in (map directive_tree directives.now) }
{
    let mut count = 0;
    for directive in directives {
        if is_property(directive) {
            count += 1;
        }
    }
    count
}
