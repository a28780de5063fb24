// SPDX-License-Identifier: Apache-2.0
// MERGE: the texts at and below a node, assigned below another one, each by itself in the order of the nodes, a step each. A place is a
// walk, as that of $ORDER, so that the variable that it is of can be asked for its next node.
ghost use Rattle.std.specs.Prelude.{◌≡◌, ◌<◌, drop, is_some, true, IfErr, IfOk, Ok};
ghost use Rattle.mmeaning.specs.Merging as merging;
ghost use Rattle.mmeaning.specs.Variables as variables;
ghost use Rattle.mspec.specs.Access.{Read, Write};
ghost use Rattle.mspec.specs.Globals.{is_beside};
ghost use Rattle.mspec.specs.KeyBytes.{AreSubscripts, IsAccountName};
ghost use Rattle.mspec.specs.Trees.{is_within};
ghost use Rattle.mgrant.specs.Placed.{mode_of};
ghost use Rattle.mtree.specs.Tree.{reference_tree};
ghost use Rattle.meval.specs.Copies as copies;
ghost use Rattle.meval.specs.Copies.{IsCopy};
ghost use Rattle.meval.specs.Evaluates.{Evaluates, standing_of};
ghost use Rattle.meval.specs.Places.{pending_view, place_view, walk_view, use_of, IsOpen};
ghost use Rattle.meval.specs.Words.{Yields, Zsub, are_subscripts, checked, fault_of, unless};
ghost use Rattle.moperator.specs.declared.code.Code.TheVariants.{Zmem};

use crate::eval::Eval;
use crate::global_reference::GlobalReference;
use crate::place::{Pending, Place, Subscripts, Walk};
use crate::value_list::Values;
use crate::variable_name::VariableName;
use mgrant::Mode;
use mkey::{Direction, KeyFault, NodeKey, Subs, SubsKey, values_ok};
use mnodes::NodeStore;
use moperator::Code;
use mtree::Reference;
use mvalue::Value;
use std::alloc::{AllocError, Global};

// Whether these can be the subscripts of a node.
fn check_node(values: &[Value]) -> Result<(), Code>
    ensures checked { Yields fault_of (checked variables.reading values.now) (λ u. u) result }
    ensures node { IfOk result (λ _. AreSubscripts values.now) }
{
    if !values_ok(values) {
        return Err(Code::Zsub);
    }
    Ok(())
}

// The values after the first ones.
fn values_behind(values: &[Value], count: usize) -> &[Value]
    ensures { result.now ≡ drop count values.now }
{
    if count > values.len() {
        return &[];
    }
    &values[count..]
}

// The subscripts of a place.
fn subscripts_of<'u>(walk: &'u Walk) -> &'u [Value]
    ensures { result.now ≡ merging.subscripts_at (walk_view walk.now) }
{
    match walk {
        Walk::Local(_, values) => values.as_slice(),
        Walk::Node(node) => node.subscripts(),
    }
}

// A copy of subscripts that are those of a node.
fn as_node(alloc: Global, values: &[Value]) -> Result<Subscripts, AllocError>
    requires { AreSubscripts values.now }
    ensures { IfOk result (λ subscripts. subscripts ≡ values.now) }
{
    let copies = Values::copies(alloc, values)?;
    match Subscripts::new(copies) {
        Some(subscripts) => Ok(subscripts),
        None => unreachable!(),
    }
}

// Subscripts that were found, if there are some.
fn as_found(alloc: Global, found: Option<Subs>) -> Result<Option<Subscripts>, AllocError>
    ensures { IfOk result (λ subscripts. subscripts ≡ found) }
{
    let Some(subs) = found else {
        return Ok(None);
    };
    let texts = subs.values(alloc)?;
    let values = Values::of_vec(texts);
    match Subscripts::new(values) {
        Some(subscripts) => Ok(Some(subscripts)),
        None => unreachable!(),
    }
}

// The key of the node beside this one that has these subscripts.
fn key_in(alloc: Global, node: &GlobalReference, subscripts: &[Value]) -> Result<NodeKey, Code>
    requires account { IsAccountName node.now.account }
    requires subscripts { AreSubscripts subscripts.now }
    ensures key { IfOk result (λ key. key ≡ record node.now { subscripts = subscripts.now }) }
    ensures memory { IfErr result (λ code. code ≡ Zmem) }
{
    let (account, name) = (node.account(), node.name().as_bytes7());
    match NodeKey::build_values(alloc, account, name, subscripts) {
        Ok(key) => Ok(key),
        Err(KeyFault::Memory) => Err(Code::Zmem),
        Err(KeyFault::Sub) => unreachable!(),
    }
}

// The place of a variable that has these subscripts.
fn place_in<'u>(alloc: Global, walk: &'u Walk, subscripts: Subscripts) -> Result<Place<'u>, Code>
    requires { IsCopy walk.now }
    ensures place { IfOk result (λ place. place_view place ≡ merging.at_subscripts (walk_view walk.now) subscripts) }
    ensures memory { IfErr result (λ code. code ≡ Zmem) }
{
    match walk {
        Walk::Local(name, _) => Ok(Place::Local(VariableName::Lent(name.as_name()), subscripts)),
        Walk::Node(node) => Ok(Place::Node(key_in(alloc, node, subscripts.as_slice())?)),
    }
}

// What stands below the target for a node at or below the source.
fn counterpart(alloc: Global, to: &Walk, from: &Walk, at: &[Value]) -> Result<Subscripts, Code>
    ensures checked { Yields fault_of (unless Zsub (are_subscripts (merging.counterpart (walk_view to.now) (walk_view from.now) at.now))) (λ _. tt) result }
    ensures subscripts { IfOk result (λ subscripts. subscripts ≡ merging.counterpart (walk_view to.now) (walk_view from.now) at.now) }
{
    let behind = values_behind(at, subscripts_of(from).len());
    let rest = Values::copies(alloc, behind)?;
    let values = rest.behind(alloc, subscripts_of(to))?;
    match Subscripts::new(values) {
        Some(subscripts) => Ok(subscripts),
        None => Err(Code::Zsub),
    }
}

// Whether these subscripts are those of a place, or below it.
fn is_in(alloc: Global, at: &Subscripts, above: &SubsKey) -> Result<bool, AllocError>
    ensures { IfOk result (λ is. is ≡ is_within above.now at.now) }
{
    let key = SubsKey::build(alloc, at.as_slice())?;
    Ok(key.is_within(above))
}

// Whether there is something to copy between the places of these subscripts, of one variable or of two.
fn apart(one: bool, to: &SubsKey, from: &SubsKey) -> Result<bool, Code>
    ensures { Yields fault_of (merging.apart one to.now from.now) (λ copies. copies) result }
{
    if !one {
        return Ok(true);
    }
    match (from.is_within(to), to.is_within(from)) {
        (true, true) => Ok(false),
        (false, false) => Ok(true),
        (true, false) => Err(Code::M19),
        (false, true) => Err(Code::M19),
    }
}

// Whether both nodes are of one global.
fn is_beside(one: &GlobalReference, other: &GlobalReference) -> bool
    ensures { result ≡ is_beside one.now other.now }
{
    let (mine, theirs) = (one.account(), other.account());
    if mine == theirs {
        let (name, known) = (one.name(), other.name());
        let is_named = name == known;
        return is_named;
    }
    false
}

impl<'a, S: NodeStore> Eval<'a, S> {
    // The place of a node that is let through, to which is not referred yet.
    fn node_copyable<'t>(&self, mode: Mode, node: GlobalReference<'t>) -> Result<Walk<'t>, Code>
        ensures allowed { IfOk result (λ walk. IsOpen (standing_of self.now) (mode_of mode) (walk_view walk)) }
        ensures copy { IfOk result IsCopy }
        ensures does { Evaluates S.NodeStore (λ i. merging.node_sought (use_of mode) node.entry) walk_view self.now result self.now }
    {
        self.check(mode, &node)?;
        check_node(node.subscripts())?;
        Ok(Walk::Node(node))
    }

    // The place of a reference that is let through, to which is not referred yet.
    fn copyable<'t>(
        &self,
        alloc: Global,
        mode: Mode,
        pending: Pending<'t>,
    ) -> Result<Walk<'t>, Code>
        ensures allowed { IfOk result (λ walk. IsOpen (standing_of self.now) (mode_of mode) (walk_view walk)) }
        ensures copy { IfOk result IsCopy }
        ensures does { Evaluates S.NodeStore (λ i. merging.sought (use_of mode) (pending_view pending.entry)) walk_view self.now result self.now }
    {
        match pending {
            Pending::Local(name, values) => {
                check_node(values.as_slice())?;
                Ok(Walk::Local(name, values))
            }
            Pending::Global(node) => self.node_copyable(mode, node),
            Pending::Naked(values) => {
                let node = self.beside(alloc, values)?;
                self.node_copyable(mode, node)
            }
        }
    }

    // Makes a node the one that was referred to last.
    fn refer_to(&mut self, alloc: Global, walk: &Walk) -> Result<(), Code>
        ensures { Evaluates S.NodeStore (λ i. merging.referred_to (walk_view walk.now)) (λ u. u) self.old result self.new }
    {
        match walk {
            Walk::Local(_, _) => Ok(()),
            Walk::Node(node) => {
                let copy = node.copy(alloc)?;
                self.refer(copy)
            }
        }
    }

    // Whether two places are of one variable, by whatever names.
    fn of_one(&self, to: &Walk, from: &Walk) -> bool
        ensures { Evaluates S.NodeStore (λ i. merging.of_one (walk_view to.now) (walk_view from.now)) (λ one. one) self.now (Ok result) self.now }
    {
        match (to, from) {
            (Walk::Local(one, _), Walk::Local(other, _)) => {
                let (mine, theirs) = (one.as_name(), other.as_name());
                self.session.locals.are_one(mine, theirs)
            }
            (Walk::Node(one), Walk::Node(other)) => is_beside(one, other),
            (Walk::Local(_, _), Walk::Node(_)) => false,
            (Walk::Node(_), Walk::Local(_, _)) => false,
        }
    }

    // The subscripts of the node after these of a place's variable that has a text.
    fn next_after(
        &mut self,
        alloc: Global,
        from: &Walk,
        at: &[Value],
    ) -> Result<Option<Subscripts>, Code>
        requires copy { IsCopy from.now }
        requires subscripts { AreSubscripts at.now }
        requires allowed { IsOpen (standing_of self.old) Read (walk_view from.now) }
        ensures { Evaluates S.NodeStore (λ i. merging.next_after (walk_view from.now) at.now) (λ next. next) self.old result self.new }
    {
        match from {
            Walk::Local(name, _) => {
                let found = self
                    .session
                    .locals
                    .following(name.as_name(), at, Direction::Forward)?;
                let next = as_found(alloc, found)?;
                Ok(next)
            }
            Walk::Node(node) => {
                let (account, name) = (node.account(), node.name().as_bytes7());
                let found = self.node_following(alloc, account, name, at, Direction::Forward)?;
                let next = as_found(alloc, found)?;
                Ok(next)
            }
        }
    }

    // A place's own subscripts, if it has a text, and otherwise those of the next node.
    fn first_node(&mut self, alloc: Global, from: &Walk) -> Result<Option<Subscripts>, Code>
        requires copy { IsCopy from.now }
        requires allowed { IsOpen (standing_of self.old) Read (walk_view from.now) }
        ensures { Evaluates S.NodeStore (λ i. merging.first_node (walk_view from.now)) (λ first. first) self.old result self.new }
    {
        let own = subscripts_of(from);
        let subscripts = as_node(alloc, own)?;
        let place = place_in(alloc, from, subscripts)?;
        let found = self.found(&place)?;
        match found {
            None => self.next_after(alloc, from, own),
            Some(_) => {
                let first = as_node(alloc, own)?;
                Ok(Some(first))
            }
        }
    }

    // Assigns the text of a node to what stands for it below the target.
    fn node_merged(
        &mut self,
        alloc: Global,
        to: &Walk,
        from: &Walk,
        at: &[Value],
    ) -> Result<(), Code>
        requires target { IsCopy to.now }
        requires source { IsCopy from.now }
        requires subscripts { AreSubscripts at.now }
        requires reads { IsOpen (standing_of self.old) Read (walk_view from.now) }
        requires writes { IsOpen (standing_of self.old) Write (walk_view to.now) }
        ensures spent { IfOk result (λ _. self.new.steps < self.old.steps) }
        ensures does { Evaluates S.NodeStore (λ i. merging.node_merged (walk_view to.now) (walk_view from.now) at.now) (λ u. u) self.old result self.new }
    {
        self.charge()?;
        let below = counterpart(alloc, to, from, at)?;
        let subscripts = as_node(alloc, at)?;
        let source = place_in(alloc, from, subscripts)?;
        let value = self.read(&source)?;
        let target = place_in(alloc, to, below)?;
        self.put(alloc, &target, value)
    }

    // The same of a node with these subscripts, and the next one then; none, if this one is past the source, whose subscripts are those
    // above.
    fn node_passed(
        &mut self,
        alloc: Global,
        to: &Walk,
        from: &Walk,
        above: &SubsKey,
        at: &Subscripts,
    ) -> Result<Option<Subscripts>, Code>
        requires target { IsCopy to.now }
        requires source { IsCopy from.now }
        requires above { above.now ≡ merging.subscripts_at (walk_view from.now) }
        requires reads { IsOpen (standing_of self.old) Read (walk_view from.now) }
        requires writes { IsOpen (standing_of self.old) Write (walk_view to.now) }
        ensures spent { IfOk result (λ next. is_some next ≡ true → self.new.steps < self.old.steps) }
        ensures does { Evaluates S.NodeStore (λ i. copies.node_passed (walk_view to.now) (walk_view from.now) at.now) (λ next. next) self.old result self.new }
    {
        let is = is_in(alloc, at, above)?;
        if !is {
            return Ok(None);
        }
        let subscripts = at.as_slice();
        self.node_merged(alloc, to, from, subscripts)?;
        self.next_after(alloc, from, subscripts)
    }

    // Assigns the texts of all nodes at or below the source.
    fn nodes_merged(&mut self, alloc: Global, to: &Walk, from: &Walk) -> Result<(), Code>
        requires target { IsCopy to.now }
        requires source { IsCopy from.now }
        requires reads { IsOpen (standing_of self.old) Read (walk_view from.now) }
        requires writes { IsOpen (standing_of self.old) Write (walk_view to.now) }
        ensures { Evaluates S.NodeStore (λ i. merging.merged (walk_view to.now) (walk_view from.now)) (λ u. u) self.old result self.new }
    {
        let above = SubsKey::build(alloc, subscripts_of(from))?;
        let mut next = self.first_node(alloc, from)?;
        while let Some(at) = next {
            let after = self.node_passed(alloc, to, from, &above, &at)?;
            next = after;
        }
        Ok(())
    }

    // From the one place to the other.
    fn copied(&mut self, alloc: Global, to: &Walk, from: &Walk) -> Result<(), Code>
        requires target { IsCopy to.now }
        requires source { IsCopy from.now }
        requires reads { IsOpen (standing_of self.old) Read (walk_view from.now) }
        requires writes { IsOpen (standing_of self.old) Write (walk_view to.now) }
        ensures { Evaluates S.NodeStore (λ i. merging.copied (walk_view to.now) (walk_view from.now)) (λ u. u) self.old result self.new }
    {
        let one = self.of_one(to, from);
        let below = SubsKey::build(alloc, subscripts_of(to))?;
        let above = SubsKey::build(alloc, subscripts_of(from))?;
        let copies = apart(one, &below, &above)?;
        self.refer_to(alloc, to)?;
        if !copies {
            return Ok(());
        }
        self.nodes_merged(alloc, to, from)
    }

    /// MERGE: copies what a variable has at and below the source to the target.
    ///
    /// # Errors
    ///
    /// Those of the values of both references; of the source, and then of the target, those of `resolved`; `M19` if one is above the other;
    /// `Zsteps` if the steps do not suffice, and `Zsub` if a node would get too many subscripts: what was assigned before stays; `Zmem` if
    /// memory runs out, and `Zstore` if the store refuses.
    pub fn merging(
        &mut self,
        alloc: Global,
        target: &Reference,
        source: &Reference,
    ) -> Result<(), Code>
        ensures { Evaluates S.NodeStore (λ i. merging.merging i (reference_tree target.now) (reference_tree source.now)) (λ u. u) self.old result self.new }
    {
        let pending = self.evaluated(alloc, target)?;
        let other = self.evaluated(alloc, source)?;
        self.merge_found(alloc, pending, other)
    }

    /// The same, once all that both references have to evaluate is evaluated.
    ///
    /// # Errors
    ///
    /// Those of `merging` that come after the values of the references.
    pub fn merge_found(
        &mut self,
        alloc: Global,
        target: Pending,
        source: Pending,
    ) -> Result<(), Code>
        ensures { Evaluates S.NodeStore (λ i. merging.merge_found (pending_view target.entry) (pending_view source.entry)) (λ u. u) self.old result self.new }
    {
        let from = self.copyable(alloc, Mode::Read, source)?;
        self.refer_to(alloc, &from)?;
        let to = self.copyable(alloc, Mode::Write, target)?;
        self.copied(alloc, &to, &from)
    }
}
