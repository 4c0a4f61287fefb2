// The laws of code in a pool, which no program calls.

ghost use Rattle.mw_code.specs.CodeLaws.{SharedCodeIsShifted, NewNodesKeepCode, OuterBindersAdd, OuterBindersDrop};
ghost use Rattle.mw_code.specs.CodeLaws.{CodeIsItsTerm, TermByForm, NewNodeIsDownward};

/// Shared code under one more binder, whose number is fresh, is shifted.
pub fn shared_code_is_shifted()
    ensures { SharedCodeIsShifted }
{}

/// New nodes change nothing of what a node stands for.
pub fn new_nodes_keep_code()
    ensures { NewNodesKeepCode }
{}

/// More binders further out change nothing.
pub fn outer_binders_add()
    ensures { OuterBindersAdd }
{}

/// Code that uses only the nearest binders is the same without the others.
pub fn outer_binders_drop()
    ensures { OuterBindersDrop }
{}

/// What a node stands for is the term that it is read back to.
pub fn code_is_its_term()
    ensures { CodeIsItsTerm }
{}

/// The term of a node is its form over the terms of its parts.
pub fn term_by_form()
    ensures { TermByForm }
{}

/// Parts stay at lower places where a node's parts are there before it.
pub fn new_node_is_downward()
    ensures { NewNodeIsDownward }
{}
