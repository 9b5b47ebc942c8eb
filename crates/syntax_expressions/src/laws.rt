//! Laws of expressions. The functions do nothing: they carry the laws as their contracts.

ghost use Rattle.syntax_expressions.specs.Laws.{ReadsWhatDerives, DerivesWhatIsRead, DeepWhereDeep};
ghost use Rattle.syntax_expressions.specs.Laws.{DeepAtFirst, OneTree, ReadsUnassigned};
ghost use Rattle.syntax_expressions.specs.Laws.{UnassignedIsRead, UnassignedDeep, UnassignedAtFirst};
ghost use Rattle.syntax_expressions.specs.Laws.{OneUnassigned};

/// What `expression` gives is what the grammar says: the function on lists that its contract cites
/// reads the trees of the grammar, each list of tokens has one, and a fault of depth comes only
/// where a token stands too deep, at the first that does.
pub fn reads_the_grammar()
    ensures sound { ReadsWhatDerives }
    ensures complete { DerivesWhatIsRead }
    ensures deep { DeepWhereDeep }
    ensures first { DeepAtFirst }
    ensures one_tree { OneTree }
{}

/// The same of `condition` and the expressions without an assignment at their root.
pub fn reads_conditions()
    ensures sound { ReadsUnassigned }
    ensures complete { UnassignedIsRead }
    ensures deep { UnassignedDeep }
    ensures first { UnassignedAtFirst }
    ensures one_tree { OneUnassigned }
{}
