// Laws of the grammar of a script line.
ghost use Rattle.tmm_grammar.specs.LineLaws.{WordsAreOne, ReadingIsOne, ShownReads};

/// A line is cut into words in one way.
pub fn words_are_one()
    ensures { WordsAreOne }
{}

/// In a version words read as at most one thing.
pub fn reading_is_one()
    ensures { ReadingIsOne }
{}

/// The line that shows a well-formed premise has at most 400 bytes, and reads as this premise in
/// each version in which it is well formed.
pub fn shown_premise_reads()
    ensures { ShownReads }
{}
