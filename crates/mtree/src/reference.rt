// SPDX-License-Identifier: Apache-2.0
// The shape of a reference, which is found once, when its tree is made.
ghost use Rattle.std.specs.Prelude.{◌≡◌, IfOk, map};
ghost use Rattle.mgrammar.specs.Grammar.{local, exprs_of};
ghost use Rattle.mtree.specs.Tree.{expr_tree, reference_tree};

use crate::tree::{Expr, Reference};
use mnum::Name;
use std::alloc::{AllocError, Global};

impl Reference {
    /// The local variable of this name with these subscripts, by how many there are.
    ///
    /// # Errors
    ///
    /// `AllocError` if it runs out of memory, which only a variable by one subscript needs.
    pub fn of_local(
        alloc: Global,
        name: Name,
        subscripts: Vec<Expr>,
    ) -> Result<Reference, AllocError>
        ensures { IfOk result (λ reference. reference_tree reference ≡ local name (exprs_of (map expr_tree subscripts.items))) }
    {
        let mut subscripts = subscripts;
        if subscripts.len() > 1 {
            return Ok(Reference::Local(name, subscripts));
        }
        match subscripts.pop() {
            None => Ok(Reference::Variable(name)),
            Some(subscript) => Ok(Reference::Node(name, Box::new(alloc, subscript)?)),
        }
    }
}
