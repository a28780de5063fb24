// SPDX-License-Identifier: Apache-2.0
// The laws of the order of nodes and of the bytes of keys. Each function's contract is the law, and its body is empty: the
// code never calls them.
ghost use Rattle.mspec.specs.KeyLaws.{CanonicalValueIsTold, NodesAreOrdered, KeysKeepOrder, KeysAreInjective, KeysOfSubtreesBeginAlike, SubtreesAreRanges};
ghost use Rattle.mspec.specs.KeyLaws.{DescendantsAreRanges, LocalsKeepOrder, LocalSubtreesAreRanges, LocalDescendantsAreRanges};

/// The canonical value of a text is the number whose canonical text it is, and the text has none exactly when it is no
/// canonical text.
#[tactic(auto, using(crate::proofs::NodeOrders::canonical_value_is_told))]
pub fn canonical_value_is_told()
    ensures { CanonicalValueIsTold }
{}

/// Texts, lists of subscripts and nodes each have a total order, in which none stand at one place but equal ones.
pub fn nodes_are_ordered()
    ensures { NodesAreOrdered }
{}

/// The bytes of keys are in the order of their nodes.
#[tactic(auto, using(crate::proofs::KeyOrders::key_order))]
pub fn keys_keep_order()
    ensures { KeysKeepOrder }
{}

/// One key belongs to one node.
#[tactic(auto, using(crate::proofs::KeyRanges::keys_are_injective))]
pub fn keys_are_injective()
    ensures { KeysAreInjective }
{}

/// A key begins with another exactly when its node is the other's or below it.
pub fn keys_of_subtrees_begin_alike()
    ensures { KeysOfSubtreesBeginAlike }
{}

/// The keys from a key up to the end of its subtree are those of its node and of the nodes below it.
pub fn subtrees_are_ranges()
    ensures { SubtreesAreRanges }
{}

/// The keys from the start of a key's children up to that end are those of the nodes below it.
pub fn descendants_are_ranges()
    ensures { DescendantsAreRanges }
{}

/// The bytes of names with subscripts are in the order of the names, and then of the subscripts.
#[tactic(auto, using(crate::proofs::KeyOrders::local_order))]
pub fn locals_keep_order()
    ensures { LocalsKeepOrder }
{}

/// Those from the bytes of a name with subscripts up to the end of its subtree are of that name and begin with its
/// subscripts.
pub fn local_subtrees_are_ranges()
    ensures { LocalSubtreesAreRanges }
{}

/// Those from the start of its children are of that name and have more subscripts after its own.
pub fn local_descendants_are_ranges()
    ensures { LocalDescendantsAreRanges }
{}
