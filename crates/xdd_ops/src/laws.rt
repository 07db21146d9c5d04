//! Laws of the texts of diagrams. Each function does nothing: its contract is the law, for every table.
ghost use Rattle.xdd_ops.specs.Laws.{PlaceHasOneText, TextHasOnePlace, TextIsOfGrammar, TextIsKept, TextTellsTimes};

/// Two places of one table have one text exactly if they are one place, and each text is one of the grammar.
pub fn one_text_a_diagram()
    ensures text { PlaceHasOneText }
    ensures place { TextHasOnePlace }
    ensures grammar { TextIsOfGrammar }
{}

/// A text that was printed is still that of its place after further nodes were added.
pub fn a_text_stays()
    ensures { TextIsKept }
{}

/// Places that have one text have the same time at every combination, also where they stand in two tables.
pub fn a_text_tells_times()
    ensures { TextTellsTimes }
{}
