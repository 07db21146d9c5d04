//! Laws of the definitions: nothing is computed here.
ghost use Rattle.cache_class.specs.Laws.{ClassesAreOne, GroupsAreOne, UnfoldingsFlow};

/// An unfolding has one table of classes on a machine.
pub fn classes_are_one()
    ensures { ClassesAreOne }
{}

/// A table has one list of groups.
pub fn groups_are_one()
    ensures { GroupsAreOne }
{}

/// The flow of an unfolding is one: its moves lead from nodes to nodes, and its lines are those of its nodes.
pub fn unfoldings_flow()
    ensures { UnfoldingsFlow }
{}
