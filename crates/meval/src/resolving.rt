// SPDX-License-Identifier: Apache-2.0
// From what a reference evaluates to the place that it names, by the checks in their order.
ghost use Rattle.std.specs.Prelude.{◌≡◌, IfOk, Ok, Some};
ghost use Rattle.mspec.specs.Access.{Read};
ghost use Rattle.mspec.specs.Act.{set_naked, give};
ghost use Rattle.mspec.specs.KeyBytes.{IsAccountName};
ghost use Rattle.mgrant.specs.Placed.{mode_of};
ghost use Rattle.mmeaning.specs.Variables as variables;
ghost use Rattle.mtree.specs.Tree.{reference_tree};
ghost use Rattle.meval.specs.Acts as acts;
ghost use Rattle.meval.specs.Evaluates.{Evaluates, own_global, standing_of};
ghost use Rattle.meval.specs.Held.{name_view};
ghost use Rattle.meval.specs.Places.{pending_view, place_view, walk_view, use_of, IsWalk, IsOpen};

use crate::eval::Eval;
use crate::global_node::GlobalNode;
use crate::global_reference::{GlobalReference, key_with};
use crate::owner::Owner;
use crate::place::{Pending, Place, Walk, check_walk, local_place};
use crate::value_list::Values;
use crate::variable_name::VariableName;
use mgrant::Mode;
use mkey::AccountName;
use mnodes::NodeStore;
use moperator::Code;
use mtree::Reference;
use std::alloc::Global;

impl<'a, S: NodeStore> Eval<'a, S> {
    // The node of the account's own global of this name. Takes no memory.
    pub(crate) fn own_node<'t>(
        &self,
        alloc: Global,
        name: VariableName<'t>,
        values: Values,
    ) -> GlobalReference<'t>
        ensures { result ≡ record { account = (standing_of self.now).account; name = name_view name.entry; subscripts = values } }
    {
        let owner = Owner::of_settings(alloc, self.settings.name_of(self.account));
        GlobalReference::new(owner, name, values)
    }

    // Whether the account may use the global of a node in this way.
    pub(crate) fn check(&self, mode: Mode, node: &GlobalReference) -> Result<(), Code>
        ensures account { IfOk result (λ _. IsAccountName node.now.account) }
        ensures allowed { IfOk result (λ _. IsOpen (standing_of self.now) (mode_of mode) (variables.at_node node.now)) }
        ensures does { Evaluates S.NodeStore (λ i. variables.allowed (mode_of mode) node.now) (λ u. u) self.now result self.now }
    {
        if !node.is_of_account() {
            return Err(Code::Zgrant);
        }
        let (owner, name) = (node.account(), node.name().as_bytes());
        if !self.settings.may(self.account, owner, name, mode) {
            return Err(Code::Zgrant);
        }
        Ok(())
    }

    // Makes the node the one that was referred to last. If the one before it is of the same global, no name is copied.
    pub(crate) fn refer(&mut self, node: GlobalReference) -> Result<(), Code>
        ensures same { standing_of self.new ≡ standing_of self.old }
        ensures does { Evaluates S.NodeStore (λ i. set_naked (Some node.entry)) (λ u. u) self.old result self.new }
    {
        if let Some(last) = &mut self.session.naked {
            if last.is_of(node.account(), node.name()) {
                last.set_subscripts(node.into_subscripts());
                return Ok(());
            }
        }
        self.session.naked = Some(node.into_node()?);
        Ok(())
    }

    // The same for the node of the account with this name, with this global name and these subscripts.
    fn refer_own(&mut self, own: &[u8], name: VariableName, values: Values) -> Result<(), Code>
        requires { IsAccountName own.now }
        ensures { Evaluates S.NodeStore (λ i. set_naked (Some (record { account = own.now; name = name_view name.entry; subscripts = values })))
            (λ u. u) self.old result self.new }
    {
        if let Some(last) = &mut self.session.naked {
            if last.is_of(own, name.as_name()) {
                last.set_subscripts(values);
                return Ok(());
            }
        }
        let owner = Owner::Account(AccountName::of_name(own));
        self.session.naked = Some(GlobalNode::new(owner, name.into_name()?, values));
        Ok(())
    }

    // The node beside the one that was referred to last.
    pub(crate) fn beside<'t>(
        &self,
        alloc: Global,
        values: Values,
    ) -> Result<GlobalReference<'t>, Code>
        ensures { Evaluates S.NodeStore (λ i. variables.beside values) (λ node. node) self.now result self.now }
    {
        match &self.session.naked {
            None => Err(Code::M1),
            Some(last) => last.beside(alloc, values),
        }
    }

    // The place of a node that is to be read or written.
    pub(crate) fn node_place<'t>(
        &mut self,
        alloc: Global,
        mode: Mode,
        node: GlobalReference,
    ) -> Result<Place<'t>, Code>
        ensures allowed { IfOk result (λ place. IsOpen (standing_of self.new) (mode_of mode) (place_view place)) }
        ensures does { Evaluates S.NodeStore (λ i. variables.node_place (use_of mode) node.entry) place_view self.old result self.new }
    {
        self.check(mode, &node)?;
        let key = node.key(alloc)?;
        self.refer(node)?;
        Ok(Place::Node(key))
    }

    // The same for a node of the account's own global, which it may read. No reference to it is built.
    pub(crate) fn own_place<'t>(
        &mut self,
        alloc: Global,
        name: VariableName,
        values: Values,
    ) -> Result<Place<'t>, Code>
        ensures allowed { IfOk result (λ place. IsOpen (standing_of self.new) Read (place_view place)) }
        ensures does { Evaluates S.NodeStore (λ i. variables.node_place variables.reading (own_global self.old
            (name_view name.entry) values)) place_view self.old result self.new }
    {
        let own = self.settings.name_of(self.account);
        if own.is_empty() {
            // the id is from other settings, which a world never hands in
            return Err(Code::Zgrant);
        }
        let key = key_with(alloc, own, name.as_name().as_bytes7(), values.as_slice())?;
        self.refer_own(own, name, values)?;
        Ok(Place::Node(key))
    }

    /// The place of a reference that is to be read or written, once all of it is evaluated.
    ///
    /// # Errors
    ///
    /// `M1` for a naked reference if the naked indicator is undefined; `Zgrant` if the account may not use the global in this way;
    /// `Zsub` if there are more than 15 subscripts, or one is empty or has more than 255 characters. None of them changes the node
    /// that was referred to last. `Zmem` if memory runs out.
    pub fn resolved<'t>(
        &mut self,
        alloc: Global,
        mode: Mode,
        pending: Pending<'t>,
    ) -> Result<Place<'t>, Code>
        ensures allowed { IfOk result (λ place. IsOpen (standing_of self.new) (mode_of mode) (place_view place)) }
        ensures does { Evaluates S.NodeStore (λ i. variables.resolve (use_of mode) (pending_view pending.entry)) place_view self.old result self.new }
    {
        match pending {
            Pending::Local(name, values) => local_place(name, values),
            Pending::Global(node) => self.node_place(alloc, mode, node),
            Pending::Naked(values) => {
                let node = self.beside(alloc, values)?;
                self.node_place(alloc, mode, node)
            }
        }
    }

    // The place of a reference that is read at once: it is evaluated, and then checked.
    #[cycle(eval)]
    pub(crate) fn place_to_read<'t>(
        &mut self,
        alloc: Global,
        reference: &'t Reference,
    ) -> Result<Place<'t>, Code>
        ensures allowed { IfOk result (λ place. IsOpen (standing_of self.new) Read (place_view place)) }
        ensures does { Evaluates S.NodeStore (λ i. acts.place_to_read i (reference_tree reference.now)) place_view self.old result self.new }
    {
        if let Reference::Global(name, subscripts) = reference {
            return self.fast_own(alloc, name, subscripts);
        }
        let pending = self.evaluated(alloc, reference)?;
        self.resolved(alloc, Mode::Read, pending)
    }

    // The place of a node of which $ORDER is asked. What comes after the reference may refer to another node, so the walk keeps a node
    // of its own.
    fn node_walk<'t>(&mut self, alloc: Global, node: GlobalReference<'t>) -> Result<Walk<'t>, Code>
        ensures allowed { IfOk result (λ walk. IsOpen (standing_of self.new) Read (walk_view walk)) }
        ensures walk { IfOk result IsWalk }
        ensures does { Evaluates S.NodeStore (λ i. variables.node_place variables.ordering node.entry) walk_view self.old result self.new }
    {
        self.check(Mode::Read, &node)?;
        check_walk(node.subscripts())?;
        let walk = node.copy(alloc)?;
        self.refer(node)?;
        Ok(Walk::Node(walk))
    }

    // The place of a reference of which $ORDER is asked.
    pub(crate) fn walked<'t>(
        &mut self,
        alloc: Global,
        pending: Pending<'t>,
    ) -> Result<Walk<'t>, Code>
        ensures allowed { IfOk result (λ walk. IsOpen (standing_of self.new) Read (walk_view walk)) }
        ensures walk { IfOk result IsWalk }
        ensures does { Evaluates S.NodeStore (λ i. variables.resolve variables.ordering (pending_view pending.entry)) walk_view self.old result self.new }
    {
        match pending {
            Pending::Local(name, values) => {
                check_walk(values.as_slice())?;
                Ok(Walk::Local(name, values))
            }
            Pending::Global(node) => self.node_walk(alloc, node),
            Pending::Naked(values) => {
                let node = self.beside(alloc, values)?;
                self.node_walk(alloc, node)
            }
        }
    }
}
