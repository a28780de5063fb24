// SPDX-License-Identifier: Apache-2.0
// The laws of the grammar. Each function's contract is the law, and its body is empty: the code never calls them.
ghost use Rattle.mgrammar.specs.GrammarLaws.{OneTree, ReadsItsTree, OneRoutineTree, ReadsItsRoutineTree, ToldOfItsTree, OneReference, ReadsItsReference};
ghost use Rattle.mgrammar.specs.GrammarLaws.{OneArgumentList, ReadsItsArguments, OnePattern, ReadsItsPattern, ReadsItsName, ReadsItsTreeIn};
ghost use Rattle.mgrammar.specs.GrammarLaws.{ReadsItsRoutineTreeIn, ReadsItsReferenceIn, ReadsItsArgumentsIn, LaterLanguagesRead, ProfileHasNoCall};
ghost use Rattle.mgrammar.specs.GrammarLaws.{ProfileHasNoList, UncalledIsInSteps, FirstIsInSteps};

/// No text has two trees.
#[tactic(auto, using(crate::proofs::ReadingLines::one_tree))]
pub fn one_tree()
    ensures { OneTree }
{}

/// A text is read as a tree exactly when that is the well-formed tree that spells it. The meaning of a line reads its text, so
/// this is what ties meanings to the grammar.
pub fn reads_its_tree()
    ensures { ReadsItsTree }
{}

/// As a line of a routine, no text has two trees.
pub fn one_routine_tree()
    ensures { OneRoutineTree }
{}

/// A text is read as a routine's line exactly when the tree that is read is the well-formed one that spells it.
pub fn reads_its_routine_tree()
    ensures { ReadsItsRoutineTree }
{}

/// The label, the formal list and the dots that are read of a text without reading it whole are those of its tree, if it has one.
/// Labels are searched for, and lines passed over, by these alone.
pub fn told_of_its_tree()
    ensures { ToldOfItsTree }
{}

/// As the text of a name indirection, no text has two trees.
#[tactic(auto, using(crate::proofs::ReadingIndirectTexts::one_reference))]
pub fn one_reference()
    ensures { OneReference }
{}

/// A text is read as that of a name indirection exactly when the tree that is read is the well-formed one that spells it.
pub fn reads_its_reference()
    ensures { ReadsItsReference }
{}

/// As the text of an argument indirection, for arguments of one form, no text has two lists of trees.
#[tactic(auto, using(crate::proofs::ReadingIndirectTexts::one_argument_list))]
pub fn one_argument_list()
    ensures { OneArgumentList }
{}

/// A text is read as that of an argument indirection exactly when the trees that are read are the well-formed ones that spell it.
pub fn reads_its_arguments()
    ensures { ReadsItsArguments }
{}

/// As the text of a pattern indirection, no text has two lists of atoms.
#[tactic(auto, using(crate::proofs::ReadingIndirectTexts::one_pattern))]
pub fn one_pattern()
    ensures { OnePattern }
{}

/// A text is read as that of a pattern indirection exactly when the atoms that are read are the well-formed ones that spell it.
pub fn reads_its_pattern()
    ensures { ReadsItsPattern }
{}

/// In an actual, the text of an indirection is read as a name exactly when it is one.
pub fn reads_its_name()
    ensures { ReadsItsName }
{}

/// In a language, a text is read as a tree exactly when the tree is the well-formed one that spells it, and the language has all
/// its forms. So each language has trees of the one grammar alone, and which these are the tree says.
pub fn reads_its_tree_in()
    ensures { ReadsItsTreeIn }
{}

/// The same of the lines of routines.
pub fn reads_its_routine_tree_in()
    ensures { ReadsItsRoutineTreeIn }
{}

/// The same of the texts of name indirections.
pub fn reads_its_reference_in()
    ensures { ReadsItsReferenceIn }
{}

/// The same of the texts of argument indirections.
pub fn reads_its_arguments_in()
    ensures { ReadsItsArgumentsIn }
{}

/// What a language reads a text as, each later language does.
pub fn later_languages_read()
    ensures { LaterLanguagesRead }
{}

/// No line of the profile calls a function, so that there its meaning turns on nothing that functions give.
pub fn profile_has_no_call()
    ensures { ProfileHasNoCall }
{}

/// No line of a routine has a formal list in the profile, so that none is refused there for having one.
pub fn profile_has_no_list()
    ensures { ProfileHasNoList }
{}

/// A line that calls no function has no call where none can stand in a language that has programs.
pub fn uncalled_is_in_steps()
    ensures { UncalledIsInSteps }
{}

/// In language 1 each call of a line stands where it can be carried out a step at a time.
pub fn first_is_in_steps()
    ensures { FirstIsInSteps }
{}
