//! Laws of the definitions. The functions do nothing: each carries a law as its contract.

ghost use Rattle.tables.specs.Laws.{LinesAreCutOneWay, NumbersAreByRank, PropertiesAreRead};

/// A line is cut into words in one way alone, and the function that the machine's definition uses
/// gives it.
pub fn lines_are_cut_one_way()
    ensures { LinesAreCutOneWay }
{}

/// Of ascending keys, the entry of each lies as many entries behind the first as keys are below it.
pub fn keys_are_numbered_by_rank()
    ensures { NumbersAreByRank }
{}

/// What the readers of properties answer is what stands in the property list, in any story: the
/// data of the first property of the number, none where the list ends without one, or the cause of
/// a refusal.
pub fn properties_are_read()
    ensures { PropertiesAreRead }
{}
