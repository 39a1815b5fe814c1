ghost use Rattle.ir_numbering.specs.Laws.{OthersAreAnInterval, SubtreesAreIntervals, TreeRowsStartAtSons};

/// The subtree of a node is a cyclic interval of labels that begins at the node's own, and so is all that is not in the
/// subtree, but at the root (Santoro and Khatib 1985).
pub fn subtrees_are_intervals()
    ensures subtree { SubtreesAreIntervals }
    ensures others { OthersAreAnInterval }
{}

/// The canonical row of a node for a tree table has one start for each son, at the son's label. Except at the root it
/// has one for the father too, where the labels of the node's subtree end. It has no other (Santoro and Khatib 1985).
pub fn tree_rows_start_at_sons()
    ensures { TreeRowsStartAtSons }
{}
