ghost use Rattle.cob_copybook_tree.specs.Laws.{AsManyEntries, BranchOpens, NodeOpens, OneTree};

/// A list of entries stands for one tree at most.
pub fn one_tree()
    ensures { OneTree }
{}

/// What a branch is: its entry, and its children side by side.
pub fn branch_opens()
    ensures { BranchOpens }
{}

/// What a node is: its entry by itself, and its children side by side.
pub fn node_opens()
    ensures { NodeOpens }
{}

/// A tree has as many entries as their list is long.
pub fn as_many_entries()
    ensures { AsManyEntries }
{}
