// SPDX-License-Identifier: Apache-2.0
// The names of variables, as $NAME gives them. No check of a reference is made, and the node that was referred to last stays the same.
ghost use Rattle.std.specs.Prelude.{◌≡◌, IfOk};
ghost use Rattle.mgrammar.specs.NameValues.{global_text};
ghost use Rattle.mmeaning.specs.Variables as variables;
ghost use Rattle.meval.specs.Evaluates.{Evaluates, standing_of};
ghost use Rattle.meval.specs.Places.{pending_view};

use crate::eval::Eval;
use crate::global_reference::GlobalReference;
use crate::place::Pending;
use mnodes::NodeStore;
use mnum::Bytes7;
use moperator::{Code, name_text, other_front, own_front};
use mvalue::Value;
use std::alloc::{AllocError, Global};

impl<'a, S: NodeStore> Eval<'a, S> {
    // What the name of a node begins with: its environment is left out if it is the line's account.
    pub(crate) fn front_of(
        &self,
        alloc: Global,
        node: &GlobalReference,
    ) -> Result<Bytes7, AllocError>
        ensures { IfOk result (λ text. text ≡ global_text (variables.environment_of (standing_of self.now).account node.now) node.now.name) }
    {
        let name = node.name();
        if node.account() == self.settings.name_of(self.account) {
            return own_front(alloc, name);
        }
        let account = node.account_text(alloc)?;
        other_front(alloc, &account, name)
    }

    // The name of a node, with as many subscripts as are said.
    fn node_named(
        &self,
        alloc: Global,
        node: &GlobalReference,
        most: Option<i64>,
    ) -> Result<Value, Code>
        ensures { Evaluates S.NodeStore (λ i. variables.node_named i.account most node.now) (λ v. v) self.now result self.now }
    {
        let front = self.front_of(alloc, node)?;
        name_text(alloc, front, node.subscripts(), most)
    }

    // The name of what a reference evaluated to.
    pub(crate) fn named_pending(
        &self,
        alloc: Global,
        pending: Pending,
        most: Option<i64>,
    ) -> Result<Value, Code>
        ensures { Evaluates S.NodeStore (λ i. variables.named i.account most (pending_view pending.entry)) (λ v. v) self.now result self.now }
    {
        match pending {
            Pending::Local(name, values) => {
                let front = name.as_name().as_bytes7().copy()?;
                name_text(alloc, front, values.as_slice(), most)
            }
            Pending::Global(node) => self.node_named(alloc, &node, most),
            Pending::Naked(values) => {
                let node = self.beside(alloc, values)?;
                self.node_named(alloc, &node, most)
            }
        }
    }
}
