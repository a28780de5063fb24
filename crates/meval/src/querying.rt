// SPDX-License-Identifier: Apache-2.0
// $QUERY: the name of the node that follows one, of those that have a text. A place of which it is asked is a walk, as that of $ORDER, but
// needs no subscript.
ghost use Rattle.std.specs.Prelude.{[], ◌∷◌, map, IfOk};
ghost use Rattle.mgrammar.specs.Grammar.{exprs_of};
ghost use Rattle.mkey.specs.Way.{way};
ghost use Rattle.mmeaning.specs.Variables as variables;
ghost use Rattle.mspec.specs.Access.{Read};
ghost use Rattle.mspec.specs.Trees.{AreQuerySubscripts};
ghost use Rattle.mtree.specs.Tree.{expr_tree, reference_tree};
ghost use Rattle.meval.specs.Evaluates.{Evaluates, standing_of};
ghost use Rattle.meval.specs.Places.{pending_view, walk_view, IsOpen};
ghost use Rattle.meval.specs.Queries as queries;
ghost use Rattle.meval.specs.Queries.{IsSearch};
ghost use Rattle.meval.specs.Words.{IsAccountName, Yields, checked, fault_of};

use crate::eval::Eval;
use crate::global_reference::GlobalReference;
use crate::place::{Pending, Walk};
use crate::walk::{direction, next_value};
use mgrant::Mode;
use mkey::{Direction, order_values_ok};
use mnodes::NodeStore;
use mnum::Name;
use moperator::{Code, found_name};
use mtree::{Expr, Reference};
use mvalue::Value;
use std::alloc::Global;
use std::marker::Model;
use std::slice::from_ref;

/// A place that the checks let through for $QUERY: its last subscript may be empty, and there may be none. Contracts see it as one of the
/// definitions.
pub struct Seekable {
    walk: Walk<'static>,
}

// Written out, so that dropping it is one call, which is proved once.
impl Drop for Seekable {
    fn drop(self) {
        let Seekable { walk: _ } = self;
    }
}

impl Model for Seekable {
    ghost use Rattle.mmeaning.specs.Variables.{Place};
    ghost use Rattle.meval.specs.Places.{walk_view};
    ghost use Rattle.meval.specs.Queries.{IsSearch};

    ghost Value = { Place };

    ghost view = { λ seekable. walk_view seekable.walk };

    ghost invariant = { λ seekable. IsSearch seekable.walk };
}

// Whether these can be the subscripts of $QUERY: those of $ORDER, or none.
fn check_search(values: &[Value]) -> Result<(), Code>
    ensures checked { Yields fault_of (checked variables.querying values.now) (λ u. u) result }
    ensures search { IfOk result (λ _. AreQuerySubscripts values.now) }
{
    if values.is_empty() {
        return Ok(());
    }
    if !order_values_ok(values) {
        return Err(Code::Zsub);
    }
    Ok(())
}

impl<'a, S: NodeStore> Eval<'a, S> {
    // The place of a node of which $QUERY is asked. What comes after the reference may refer to another node, so the walk keeps a node of
    // its own.
    fn node_sought<'t>(
        &mut self,
        alloc: Global,
        node: GlobalReference<'t>,
    ) -> Result<Walk<'t>, Code>
        ensures allowed { IfOk result (λ walk. IsOpen (standing_of self.new) Read (walk_view walk)) }
        ensures search { IfOk result IsSearch }
        ensures does { Evaluates S.NodeStore (λ i. variables.node_place variables.querying node.entry) walk_view self.old result self.new }
    {
        self.check(Mode::Read, &node)?;
        check_search(node.subscripts())?;
        let walk = node.copy(alloc)?;
        self.refer(node)?;
        Ok(Walk::Node(walk))
    }

    // The place of a reference of which $QUERY is asked.
    fn sought<'t>(&mut self, alloc: Global, pending: Pending<'t>) -> Result<Walk<'t>, Code>
        ensures allowed { IfOk result (λ walk. IsOpen (standing_of self.new) Read (walk_view walk)) }
        ensures search { IfOk result IsSearch }
        ensures does { Evaluates S.NodeStore (λ i. variables.resolve variables.querying (pending_view pending.entry)) walk_view self.old result self.new }
    {
        match pending {
            Pending::Local(name, values) => {
                check_search(values.as_slice())?;
                Ok(Walk::Local(name, values))
            }
            Pending::Global(node) => self.node_sought(alloc, node),
            Pending::Naked(values) => {
                let node = self.beside(alloc, values)?;
                self.node_sought(alloc, node)
            }
        }
    }

    // The name of the node of a local variable that follows the one with these subscripts, or the empty text if none does.
    fn local_query(
        &self,
        alloc: Global,
        name: &Name,
        subscripts: &[Value],
        direction: Direction,
    ) -> Result<Value, Code>
        requires { AreQuerySubscripts subscripts.now }
        ensures { Evaluates S.NodeStore (λ i. variables.query_at i.account (way direction) (variables.at_local name.now subscripts.now))
            (λ v. v) self.now result self.now }
    {
        let next = self.session.locals.following(name, subscripts, direction)?;
        match next {
            None => Ok(next_value(alloc, None)),
            Some(found) => {
                let front = name.as_bytes7().copy()?;
                found_name(front, found.as_slice())
            }
        }
    }

    // The same of a global.
    fn node_query(
        &mut self,
        alloc: Global,
        node: &GlobalReference,
        direction: Direction,
    ) -> Result<Value, Code>
        requires account { IsAccountName node.now.account }
        requires subscripts { AreQuerySubscripts node.now.subscripts }
        requires allowed { IsOpen (standing_of self.old) Read (variables.at_node node.now) }
        ensures { Evaluates S.NodeStore (λ i. variables.query_at i.account (way direction) (variables.at_node node.now)) (λ v. v) self.old result self.new }
    {
        let (account, name, subscripts) = (
            node.account(),
            node.name().as_bytes7(),
            node.subscripts(),
        );
        let next = self.node_following(alloc, account, name, subscripts, direction)?;
        match next {
            None => Ok(next_value(alloc, None)),
            Some(found) => {
                let front = self.front_of(alloc, node)?;
                found_name(front, found.as_slice())
            }
        }
    }

    // The name of the node that follows a place, or the empty text if none does.
    fn query(&mut self, alloc: Global, walk: &Walk, direction: Direction) -> Result<Value, Code>
        requires search { IsSearch walk.now }
        requires allowed { IsOpen (standing_of self.old) Read (walk_view walk.now) }
        ensures { Evaluates S.NodeStore (λ i. variables.query_at i.account (way direction) (walk_view walk.now)) (λ v. v) self.old result self.new }
    {
        match walk {
            Walk::Local(name, values) => {
                self.local_query(alloc, name.as_name(), values.as_slice(), direction)
            }
            Walk::Node(node) => self.node_query(alloc, node, direction),
        }
    }

    // What $QUERY gives of a variable, in the direction that the first of these says.
    #[cycle(eval)]
    #[inline(never)]
    pub(crate) fn query_of(
        &mut self,
        alloc: Global,
        reference: &Reference,
        more: &[Expr],
    ) -> Result<Value, Code>
        ensures { Evaluates S.NodeStore (λ i. queries.query_of i (reference_tree reference.now) (exprs_of (map expr_tree more.now)))
            (λ v. v) self.old result self.new }
    {
        let pending = self.evaluated(alloc, reference)?;
        let walk = self.sought(alloc, pending)?;
        let direction = self.direction(alloc, more)?;
        self.query(alloc, &walk, direction)
    }

    // `query_of`, for a local variable with this subscript.
    #[cycle(eval)]
    #[inline(never)]
    pub(crate) fn fast_query(
        &mut self,
        alloc: Global,
        name: &Name,
        subscript: &Value,
        more: &[Expr],
    ) -> Result<Value, Code>
        ensures { Evaluates S.NodeStore (λ i. queries.query_behind (exprs_of (map expr_tree more.now)) i (variables.of_local name.now (subscript.now ∷ [])))
            (λ v. v) self.old result self.new }
    {
        let subscripts = from_ref(subscript);
        check_search(subscripts)?;
        let direction = self.direction(alloc, more)?;
        self.local_query(alloc, name, subscripts, direction)
    }

    /// The place of a reference of which $QUERY is asked later, once all of it is evaluated.
    ///
    /// # Errors
    ///
    /// Those of `resolved`, where the last subscript may be empty.
    pub fn seekable(&mut self, alloc: Global, pending: Pending) -> Result<Seekable, Code>
        ensures { Evaluates S.NodeStore (λ i. variables.resolve variables.querying (pending_view pending.entry)) (λ walk. walk) self.old result self.new }
    {
        let own = pending.into_own()?;
        let walk = self.sought(alloc, own)?;
        Ok(Seekable { walk })
    }

    /// What $QUERY gives of a place, in the direction that the first of these says. Beside a node that the account may not read there is
    /// none.
    ///
    /// # Errors
    ///
    /// `Zarg` if the first of them is neither 1 nor -1, and `Zover` if its number is too large; `Zlong` if the name has more than 4,095
    /// characters; `Zmem` if memory runs out, and `Zstore` if the store refuses.
    pub fn query_at(
        &mut self,
        alloc: Global,
        place: &Seekable,
        more: &[Value],
    ) -> Result<Value, Code>
        ensures { Evaluates S.NodeStore (λ i. queries.query_by more.now i place.now) (λ v. v) self.old result self.new }
    {
        let direction = direction(more)?;
        let walk = &place.walk;
        if !self.may_walk(walk) {
            return Ok(next_value(alloc, None));
        }
        self.query(alloc, walk, direction)
    }
}
