//! The laws of fold parents and of display lines.

ghost use Rattle.run_laws.specs.FoldLaws.{DisplayLinesCountVisibleLines, FoldParentIsTheNearestHeader, FoldParentsAreAChain, HiddenLinesHaveThatBefore, LinesWithoutParent, VisibleLinesAreShown};

/// The fold parents of a line are its fold parent, the fold parent of that one, and so on. A fold parent is the nearest
/// header before the line that has a smaller number, if there is one.
pub fn fold_parents_are_a_chain()
    ensures chain { FoldParentsAreAChain }
    ensures nearest { FoldParentIsTheNearestHeader }
    ensures none { LinesWithoutParent }
{}

/// The display line of a visible line is the number of visible lines before it, and that display line shows the line. A
/// hidden line has the display line of the line before it.
pub fn display_lines_count_visible_lines()
    ensures count { DisplayLinesCountVisibleLines }
    ensures shown { VisibleLinesAreShown }
    ensures hidden { HiddenLinesHaveThatBefore }
{}
