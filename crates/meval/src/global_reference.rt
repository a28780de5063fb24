// SPDX-License-Identifier: Apache-2.0
// Nodes of globals, as references give them.
ghost use Rattle.std.specs.Prelude.{◌≡◌, ◌↔◌, ◌++◌, IfOk, IsTrue};
ghost use Rattle.meval.specs.Words.{IsAccountName, IsName, Yields, Zsub, are_subscripts, fault_of, unless};
ghost use Rattle.meval.specs.Held.{name_view, owner_text};

use crate::global_node::GlobalNode;
use crate::owner::Owner;
use crate::value_list::Values;
use crate::variable_name::VariableName;
use mkey::{KeyFault, NodeKey};
use mnum::{Bytes7, Name};
use moperator::Code;
use mvalue::Value;
use std::alloc::{AllocError, Global};
use std::marker::Model;

// The key of the node of this account, global name and subscripts; `Zsub` if no node can have such subscripts.
pub(crate) fn key_with(
    alloc: Global,
    account: &[u8],
    name: &Bytes7,
    subscripts: &[Value],
) -> Result<NodeKey, Code>
    requires account { IsAccountName account.now }
    requires name { IsName name.now }
    ensures checked { Yields fault_of (unless Zsub (are_subscripts subscripts.now)) (λ _. tt) result }
    ensures key { IfOk result (λ key. key ≡ record { account = account.now; name = name.now; subscripts = subscripts.now }) }
{
    match NodeKey::build_values(alloc, account, name, subscripts) {
        Ok(key) => Ok(key),
        Err(KeyFault::Sub) => Err(Code::Zsub),
        Err(KeyFault::Memory) => Err(Code::Zmem),
    }
}

/// A node of a global as a reference gives it, whether or not a store can have it: it may be that no grant allows it, or that no node
/// can have its subscripts. The name is mostly lent, and the subscripts are values until the key is built. Contracts see it as the node.
pub struct GlobalReference<'t> {
    owner: Owner,
    name: VariableName<'t>,
    subscripts: Values,
}

// Written out, so that dropping it is one call, which is proved once.
impl<'t> Drop for GlobalReference<'t> {
    fn drop(self) {
        let GlobalReference {
            owner: _,
            name: _,
            subscripts: _,
        } = self;
    }
}

impl<'t> Model for GlobalReference<'t> {
    ghost use Rattle.mspec.specs.Node.{Node};

    ghost Value = { Node };

    ghost use Rattle.meval.specs.Held.{name_view, owner_text};

    ghost view = { λ n. record { account = owner_text n.owner; name = name_view n.name; subscripts = n.subscripts } };
}

impl<'t> GlobalReference<'t> {
    // The node of this account, global name and subscripts. Takes no memory.
    pub(crate) fn new(
        owner: Owner,
        name: VariableName<'t>,
        subscripts: Values,
    ) -> GlobalReference<'t>
        ensures { result ≡ record { account = owner_text owner; name = name_view name.entry; subscripts = subscripts } }
    {
        GlobalReference {
            owner,
            name,
            subscripts,
        }
    }

    // The account whose global it is.
    pub(crate) fn account(&self) -> &[u8]
        ensures { result.now ≡ self.now.account }
    {
        self.owner.as_bytes()
    }

    // The account as a text.
    pub(crate) fn account_text(&self, alloc: Global) -> Result<Bytes7, AllocError>
        ensures { IfOk result (λ text. text ≡ self.now.account) }
    {
        self.owner.text(alloc)
    }

    // Whether an account can have that name.
    pub(crate) fn is_of_account(&self) -> bool
        ensures { IsTrue result ↔ IsAccountName self.now.account }
    {
        self.owner.is_account()
    }

    // The name of the global.
    pub(crate) fn name(&self) -> &Name
        ensures { result.now ≡ self.now.name }
    {
        self.name.as_name()
    }

    // Its subscripts.
    pub(crate) fn subscripts(&self) -> &[Value]
        ensures { result.now ≡ self.now.subscripts }
    {
        self.subscripts.as_slice()
    }

    // A copy of its subscripts.
    pub(crate) fn copied_subscripts(&self, alloc: Global) -> Result<Values, AllocError>
        ensures { IfOk result (λ values. values ≡ self.now.subscripts) }
    {
        self.subscripts.copy(alloc)
    }

    // The subscripts alone.
    pub(crate) fn into_subscripts(self) -> Values
        ensures { result ≡ self.entry.subscripts }
    {
        let GlobalReference {
            owner: _,
            name: _,
            subscripts,
        } = self;
        subscripts
    }

    // The node, which holds its names: a name that is lent is copied.
    pub(crate) fn into_node(self) -> Result<GlobalNode, AllocError>
        ensures { IfOk result (λ node. node ≡ self.entry) }
    {
        let GlobalReference {
            owner,
            name,
            subscripts,
        } = self;
        let name = name.into_name()?;
        Ok(GlobalNode::new(owner, name, subscripts))
    }

    // A copy of the node.
    pub(crate) fn copy(&self, alloc: Global) -> Result<GlobalReference<'t>, AllocError>
        ensures { IfOk result (λ node. node ≡ self.now) }
    {
        let owner = self.owner.copy()?;
        let name = self.name.copy()?;
        let subscripts = self.subscripts.copy(alloc)?;
        Ok(GlobalReference::new(owner, name, subscripts))
    }

    // The same node, which no tree need hold.
    pub(crate) fn into_own<'u>(self) -> Result<GlobalReference<'u>, AllocError>
        ensures { IfOk result (λ node. node ≡ self.entry) }
    {
        let GlobalReference {
            owner,
            name,
            subscripts,
        } = self;
        let name = name.into_own()?;
        Ok(GlobalReference::new(owner, name, subscripts))
    }

    // The node with these subscripts after its own. It needs no tree.
    pub(crate) fn extended<'u>(
        self,
        alloc: Global,
        values: Values,
    ) -> Result<GlobalReference<'u>, AllocError>
        ensures { IfOk result (λ node. node ≡ record self.entry { subscripts = self.entry.subscripts ++ values }) }
    {
        let GlobalReference {
            owner,
            name,
            subscripts,
        } = self;
        let name = name.into_own()?;
        let subscripts = subscripts.joined(alloc, values)?;
        Ok(GlobalReference::new(owner, name, subscripts))
    }

    // Its key; `Zsub` if no node can have its subscripts.
    pub(crate) fn key(&self, alloc: Global) -> Result<NodeKey, Code>
        requires { IsAccountName self.now.account }
        ensures checked { Yields fault_of (unless Zsub (are_subscripts self.now.subscripts)) (λ _. tt) result }
        ensures key { IfOk result (λ key. key ≡ self.now) }
    {
        key_with(
            alloc,
            self.account(),
            self.name().as_bytes7(),
            self.subscripts(),
        )
    }
}
