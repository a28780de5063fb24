// SPDX-License-Identifier: Apache-2.0
// What the steps of a program do with texts, references and places that are on its stack. Functions were called since, so nothing is known
// of where the line's account may read by then: that is asked once more.
ghost use Rattle.std.specs.Prelude.{◌≡◌, [], map, slice_get, unwrap_or, IfOk};
ghost use Rattle.mspec.specs.Act.{give};
ghost use Rattle.mgrammar.specs.Grammar.{exprs_of};
ghost use Rattle.mmeaning.specs.Variables as variables;
ghost use Rattle.mtree.specs.Tree.{expr_tree};
ghost use Rattle.meval.specs.Acts as acts;
ghost use Rattle.meval.specs.Evaluates.{Evaluates, standing_of};
ghost use Rattle.meval.specs.Kept.{readable_view, may_read_at};
ghost use Rattle.meval.specs.Places.{pending_view, walk_view};

use crate::eval::Eval;
use crate::global_reference::GlobalReference;
use crate::kept::{Readable, Walkable, readable_local};
use crate::owner::Owner;
use crate::place::{Pending, Subscripts, Walk};
use crate::reading_reference::read_reference;
use crate::value_list::Values;
use crate::variable_name::VariableName;
use crate::walk::{data_value, direction, first_or_empty, next_value};
use mgrant::Mode;
use mkey::AccountName;
use mnodes::NodeStore;
use mnum::Name;
use moperator::{Code, whole_at};
use mtree::Expr;
use mvalue::Value;
use std::alloc::{AllocError, Global};

/// A node of the global of this name that the account has which a value names, with these values as subscripts. No tree need hold it.
///
/// # Errors
///
/// `AllocError` if memory runs out.
pub fn extended_found(
    alloc: Global,
    owner: Value,
    name: &Name,
    values: Vec<Value>,
) -> Result<Pending<'static>, AllocError>
    ensures { IfOk result (λ pending. pending_view pending ≡ variables.of_global (record { account = owner; name = name.now; subscripts = values.items })) }
{
    let account = Owner::of_value(alloc, owner)?;
    let name = VariableName::Own(name.copy()?);
    let node = GlobalReference::new(account, name, Values::of_vec(values));
    Ok(Pending::Global(node))
}

impl<'a, S: NodeStore> Eval<'a, S> {
    /// A node of the account's own global of this name, with these values as subscripts. No tree need hold it.
    ///
    /// # Errors
    ///
    /// `Zmem` if memory runs out.
    pub fn own_found(
        &self,
        alloc: Global,
        name: &Name,
        values: Vec<Value>,
    ) -> Result<Pending<'static>, Code>
        ensures { Evaluates S.NodeStore (λ i. give (variables.of_global (record { account = i.account; name = name.now; subscripts = values.items })))
            pending_view self.now result self.now }
    {
        let name = VariableName::Own(name.copy()?);
        let node = self.own_node(alloc, name, Values::of_vec(values));
        Ok(Pending::Global(node))
    }

    /// What the variable that a text names has to evaluate, and the subscripts after it. The text is evaluated one indirection deeper, and
    /// is one text more than the expressions here may enter, so a step has to be spent before it. No `?` comes in between, so the depth is
    /// afterwards what it was.
    ///
    /// # Errors
    ///
    /// `Zdepth` if no indirection is free, `Zsyntax` if the text names no variable in the line's language, and those of the values of its
    /// subscripts and of the subscripts after it; `Zmem` if memory runs out.
    #[cycle(eval)]
    pub fn named_by<'u>(
        &mut self,
        alloc: Global,
        given: Value,
        subscripts: &[Expr],
    ) -> Result<Pending<'u>, Code>
        ensures { Evaluates S.NodeStore (λ i. acts.named_within i (exprs_of (map expr_tree subscripts.now)) given) pending_view self.old result self.new }
    {
        let depth = self.depth;
        let Some(deeper) = depth.indirected() else {
            return Err(Code::Zdepth);
        };
        let text = given.into_text(alloc)?;
        let reference = read_reference(alloc, self.language(), text)?;
        self.depth = deeper;
        let result = self.through_given(alloc, reference, subscripts);
        self.depth = depth;
        result
    }

    /// The value of a variable, once all that its reference has to evaluate is evaluated.
    ///
    /// # Errors
    ///
    /// Those of `resolved`; `M6` if a local variable has no value, and `M7` if a node has none; `Zmem` if memory runs out, and `Zstore` if
    /// the store refuses.
    pub fn read_found(&mut self, alloc: Global, pending: Pending) -> Result<Value, Code>
        ensures { Evaluates S.NodeStore (λ i. acts.read_act (pending_view pending.entry)) (λ v. v) self.old result self.new }
    {
        let place = self.resolved(alloc, Mode::Read, pending)?;
        self.read(&place)
    }

    /// What $DATA gives of a variable, once all that its reference has to evaluate is evaluated.
    ///
    /// # Errors
    ///
    /// Those of `resolved`; `Zmem` if memory runs out, and `Zstore` if the store refuses.
    pub fn data_found(&mut self, alloc: Global, pending: Pending) -> Result<Value, Code>
        ensures { Evaluates S.NodeStore (λ i. acts.data_act (pending_view pending.entry)) (λ v. v) self.old result self.new }
    {
        let place = self.resolved(alloc, Mode::Read, pending)?;
        let data = self.status(alloc, &place)?;
        Ok(data_value(data))
    }

    // The place of a node that is to be read later.
    fn node_readable(&mut self, alloc: Global, node: GlobalReference) -> Result<Readable, Code>
        ensures { Evaluates S.NodeStore (λ i. variables.node_place variables.reading node.entry) readable_view self.old result self.new }
    {
        self.check(Mode::Read, &node)?;
        let values = node.copied_subscripts(alloc)?;
        let Some(subscripts) = Subscripts::new(values) else {
            return Err(Code::Zsub);
        };
        let name = node.name().copy()?;
        let account = AccountName::of_name(node.account());
        self.refer(node)?;
        Ok(Readable::Node(account, name, subscripts))
    }

    /// The place of a reference that is to be read later, once all of it is evaluated.
    ///
    /// # Errors
    ///
    /// Those of `resolved`.
    pub fn readable(&mut self, alloc: Global, pending: Pending) -> Result<Readable, Code>
        ensures { Evaluates S.NodeStore (λ i. variables.resolve variables.reading (pending_view pending.entry)) readable_view self.old result self.new }
    {
        match pending {
            Pending::Local(name, values) => readable_local(name, values),
            Pending::Global(node) => self.node_readable(alloc, node),
            Pending::Naked(values) => {
                let node = self.beside(alloc, values)?;
                self.node_readable(alloc, node)
            }
        }
    }

    // Whether the line's account may read a place.
    fn may_read(&self, place: &Readable) -> bool
        ensures { result ≡ may_read_at (standing_of self.now) (readable_view place.now) }
    {
        match place {
            Readable::Local(_, _) => true,
            Readable::Node(account, name, _) => self.settings.may(
                self.account,
                account.as_bytes(),
                name.as_bytes(),
                Mode::Read,
            ),
        }
    }

    /// What $GET gives of a place: its value, or the first of these if it has none; the empty text if there is neither. A node that the
    /// account may not read has no value.
    ///
    /// # Errors
    ///
    /// `Zmem` if memory runs out, and `Zstore` if the store refuses.
    pub fn get_at(
        &mut self,
        alloc: Global,
        place: Readable,
        others: Vec<Value>,
    ) -> Result<Value, Code>
        ensures { Evaluates S.NodeStore (λ i. variables.read_or (unwrap_or (slice_get others.items 0) []) (readable_view place)) (λ v. v) self.old result self.new }
    {
        let others = Values::of_vec(others);
        if !self.may_read(&place) {
            return Ok(first_or_empty(alloc, others));
        }
        let place = place.into_place(alloc)?;
        self.read_or(alloc, &place, others)
    }

    /// The place of a reference of which $ORDER is asked later, once all of it is evaluated.
    ///
    /// # Errors
    ///
    /// Those of `resolved`, where the last subscript may be empty; `Zarg` if there is none.
    pub fn walkable(&mut self, alloc: Global, pending: Pending) -> Result<Walkable, Code>
        ensures { Evaluates S.NodeStore (λ i. variables.resolve variables.ordering (pending_view pending.entry)) (λ walk. walk) self.old result self.new }
    {
        let own = pending.into_own()?;
        let walk = self.walked(alloc, own)?;
        Ok(Walkable { walk })
    }

    // Whether the line's account may read where a walk is.
    pub(crate) fn may_walk(&self, walk: &Walk) -> bool
        ensures { result ≡ may_read_at (standing_of self.now) (walk_view walk.now) }
    {
        match walk {
            Walk::Local(_, _) => true,
            Walk::Node(node) => self.settings.may(
                self.account,
                node.account(),
                node.name().as_bytes(),
                Mode::Read,
            ),
        }
    }

    /// What $ORDER gives of a place, in the direction that the first of these says. Beside a node that the account may not read there is
    /// none.
    ///
    /// # Errors
    ///
    /// `Zarg` if the first of them is neither 1 nor -1, and `Zover` if its number is too large; `Zmem` if memory runs out, and `Zstore` if
    /// the store refuses.
    pub fn next_at(
        &mut self,
        alloc: Global,
        place: &Walkable,
        more: &[Value],
    ) -> Result<Value, Code>
        ensures { Evaluates S.NodeStore (λ i. acts.next_by more.now place.now) (λ v. v) self.old result self.new }
    {
        let direction = direction(more)?;
        let walk = &place.walk;
        if !self.may_walk(walk) {
            return Ok(next_value(alloc, None));
        }
        self.next(alloc, walk, direction)
    }

    /// What $NAME gives of a variable, once all that its reference has to evaluate is evaluated: with as many subscripts as the first of
    /// these says. Nothing is asked of the settings, since a name tells nothing that the reference did not.
    ///
    /// # Errors
    ///
    /// `Zover` if the number of the first of them is too large; `M1` if the reference is naked and none came before it; `Zarg` if the number
    /// is below 0; `Zlong` if the name has more than 4,095 characters; `Zmem` if memory runs out.
    pub fn name_found(&self, alloc: Global, pending: Pending, more: &[Value]) -> Result<Value, Code>
        ensures { Evaluates S.NodeStore (λ i. acts.name_by more.now i (pending_view pending.entry)) (λ v. v) self.now result self.now }
    {
        let most = whole_at(more, 0)?;
        self.named_pending(alloc, pending, most)
    }
}
