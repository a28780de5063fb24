// SPDX-License-Identifier: Apache-2.0
// An `@` with its operand and nothing more in place of what SET assigns to and what LOCK names, which is argument indirection.
ghost use Rattle.std.specs.Prelude.{◌≡◌, Some, None, IfOk, IfErr, option_map};
ghost use Rattle.mgrammar.specs.WellFormed.{bare_destination, bare_arg};
ghost use Rattle.mgrammar.specs.Grammar.{anew, locked};
ghost use Rattle.mtree.specs.Tree.{primary_tree, destination_tree, locked_tree};

use mtree::{Destination, Locked, Primary, Target};

// The operand, if the destination is no more than that.
pub fn destination_operand(destination: Destination) -> Option<Primary>
    ensures { option_map primary_tree result ≡ bare_destination (destination_tree destination) }
{
    match destination {
        Destination::One(Target::Variable(reference)) => reference.into_operand().ok(),
        _ => None,
    }
}

// The operand; or what LOCK names, unchanged, if it is more than that.
pub fn locked_operand(names: Locked) -> Result<Primary, Locked>
    ensures operand { IfOk result (λ p. bare_arg (locked anew (locked_tree names) None) ≡ Some (primary_tree p)) }
    ensures more { IfErr result (λ n. (bare_arg (locked anew (locked_tree names) None) ≡ None) × (n ≡ names)) }
{
    let Locked::One(reference) = names else {
        return Err(names);
    };
    match reference.into_operand() {
        Ok(operand) => Ok(operand),
        Err(reference) => Err(Locked::One(reference)),
    }
}
