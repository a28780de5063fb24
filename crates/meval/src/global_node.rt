// SPDX-License-Identifier: Apache-2.0
// The node that was referred to last.
ghost use Rattle.std.specs.Prelude.{◌≡◌, Some, IsTrue};
ghost use Rattle.meval.specs.Words.{Yields, fault_of, replaced};
ghost use Rattle.meval.specs.Held.{owner_text};

use crate::global_reference::GlobalReference;
use crate::owner::Owner;
use crate::value_list::Values;
use crate::variable_name::VariableName;
use mkey::front;
use mnum::Name;
use moperator::Code;
use std::alloc::Global;
use std::marker::Model;

/// The node that was referred to last. It holds its names. Contracts see it as the node.
pub struct GlobalNode {
    owner: Owner,
    name: Name,
    subscripts: Values,
}

// Written out, so that dropping it is one call, which is proved once.
impl Drop for GlobalNode {
    fn drop(self) {
        let GlobalNode {
            owner: _,
            name: _,
            subscripts: _,
        } = self;
    }
}

impl Model for GlobalNode {
    ghost use Rattle.mspec.specs.Node.{Node};

    ghost Value = { Node };

    ghost use Rattle.meval.specs.Held.{owner_text};

    ghost view = { λ n. record { account = owner_text n.owner; name = n.name; subscripts = n.subscripts } };
}

impl GlobalNode {
    // The node of this account, global name and subscripts. Takes no memory.
    pub(crate) fn new(owner: Owner, name: Name, subscripts: Values) -> GlobalNode
        ensures { result ≡ record { account = owner_text owner; name = name; subscripts = subscripts } }
    {
        GlobalNode {
            owner,
            name,
            subscripts,
        }
    }

    // Whether it is a node of the global of this account and name.
    pub(crate) fn is_of(&self, account: &[u8], name: &Name) -> bool
        ensures account { IsTrue result → self.now.account ≡ account.now }
        ensures name { IsTrue result → self.now.name ≡ name.now }
    {
        self.owner.as_bytes() == account && self.name == *name
    }

    // It becomes the node of the same global with these subscripts.
    pub(crate) fn set_subscripts(&mut self, values: Values)
        ensures { self.new ≡ record self.old { subscripts = values } }
    {
        self.subscripts = values;
    }

    // A reference to the node with these in place of the last subscript; `M1` if it has none.
    pub(crate) fn beside<'t>(
        &self,
        alloc: Global,
        values: Values,
    ) -> Result<GlobalReference<'t>, Code>
        ensures { Yields fault_of (replaced values (Some self.now)) (λ node. node) result }
    {
        let subscripts = self.subscripts.as_slice();
        if subscripts.is_empty() {
            return Err(Code::M1);
        }
        let owner = self.owner.copy()?;
        let name = self.name.copy()?;
        let values = values.behind(alloc, front(subscripts))?;
        Ok(GlobalReference::new(owner, VariableName::Own(name), values))
    }
}
