// Laws of spots.
ghost use Rattle.spots.specs.Laws.{SpotsAreTheLists, RowsAreTheTokens};

/// Where nodes and network are those of a list, spots have the distances, the dates and the order
/// of the list's points and occurrences.
pub fn spots_are_the_lists()
    ensures { SpotsAreTheLists }
{}

/// Where nodes are those of a list, the rows of a class are the tokens of that class among the
/// occurrences that the nodes are.
pub fn rows_are_the_tokens()
    ensures { RowsAreTheTokens }
{}
