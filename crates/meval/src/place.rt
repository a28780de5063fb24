// SPDX-License-Identifier: Apache-2.0
// Fully evaluated references, and places that the checks let through.
ghost use Rattle.std.specs.Prelude.{◌≡◌, ◌↔◌, IsTrue, IsSome, IfSome, IfOk, []};
ghost use Rattle.mgrammar.specs.Grammar as grammar;
ghost use Rattle.meval.specs.Words.{AreOrderSubscripts, AreSubscripts, Own, Yields, are_subscripts, bracket, checked, expr_tree, fault_of, operand_tree};
ghost use Rattle.meval.specs.Words.{ordering};
ghost use Rattle.mmeaning.specs.Variables as variables;
ghost use Rattle.meval.specs.Held.{name_view};
ghost use Rattle.meval.specs.Places.{pending_view, place_view, undefined_at};

use crate::global_reference::GlobalReference;
use crate::value_list::Values;
use crate::variable_name::VariableName;
use mkey::{NodeKey, order_values_ok, values_ok};
use moperator::Code;
use mtree::{Expr, Operand, Primary};
use mvalue::Value;
use std::alloc::{AllocError, Global};
use std::marker::Model;

/// A reference, once all that it has to evaluate is evaluated. Contracts see it by `pending_view`, as one of the definitions.
#[derive(Drop)]
pub enum Pending<'t> {
    /// A local variable: its name, and its subscripts.
    Local(VariableName<'t>, Values),
    /// A node of a global.
    Global(GlobalReference<'t>),
    /// A node beside the one that was referred to last: the subscripts that take the place of the last one.
    Naked(Values),
}

impl<'t> Pending<'t> {
    /// The same, which no tree need hold: a name that is lent is copied.
    ///
    /// # Errors
    ///
    /// `AllocError` if memory runs out.
    pub fn into_own<'u>(self) -> Result<Pending<'u>, AllocError>
        ensures { IfOk result (λ pending. pending_view pending ≡ pending_view self.entry) }
    {
        match self {
            Pending::Local(name, subscripts) => {
                let name = name.into_own()?;
                Ok(Pending::Local(name, subscripts))
            }
            Pending::Global(node) => {
                let node = node.into_own()?;
                Ok(Pending::Global(node))
            }
            Pending::Naked(subscripts) => Ok(Pending::Naked(subscripts)),
        }
    }

    /// The same with these subscripts after its own. It needs no tree.
    ///
    /// # Errors
    ///
    /// `AllocError` if memory runs out.
    pub fn extended<'u>(self, alloc: Global, values: Values) -> Result<Pending<'u>, AllocError>
        ensures { IfOk result (λ pending. pending_view pending ≡ variables.with_more values (pending_view self.entry)) }
    {
        match self {
            Pending::Local(name, subscripts) => {
                let name = name.into_own()?;
                let subscripts = subscripts.joined(alloc, values)?;
                Ok(Pending::Local(name, subscripts))
            }
            Pending::Global(node) => {
                let node = node.extended(alloc, values)?;
                Ok(Pending::Global(node))
            }
            Pending::Naked(subscripts) => {
                let subscripts = subscripts.joined(alloc, values)?;
                Ok(Pending::Naked(subscripts))
            }
        }
    }
}

// The expression in an operand that is an expression in brackets, without signs.
pub fn bracketed(operand: &Operand) -> Option<&Expr>
    ensures { IfSome result (λ e. operand_tree operand.now ≡ grammar.operand [] (bracket (expr_tree e.now))) }
{
    if !operand.signs.is_empty() {
        return None;
    }
    match &operand.primary {
        Primary::Bracket(inner) => Some(inner),
        _ => None,
    }
}

/// Subscripts of a node: at most 15, of 1 to 255 characters each. Contracts see them as a list of texts, and the function
/// that gives the values says that their texts are such subscripts.
pub struct Subscripts {
    values: Values,
}

// Written out, so that dropping it is one call, which is proved once.
impl Drop for Subscripts {
    fn drop(self) {
        let Subscripts { values: _ } = self;
    }
}

impl Model for Subscripts {
    ghost use Rattle.std.specs.Prelude.{List, ℕ};
    ghost use Rattle.mspec.specs.KeyBytes.{AreSubscripts};

    ghost Value = { List (List ℕ) };

    ghost view = { λ subscripts. subscripts.values };

    ghost invariant = { λ subscripts. AreSubscripts subscripts.values };
}

impl Subscripts {
    /// These values as subscripts, if they can be those of a node. Takes no memory.
    pub fn new(values: Values) -> Option<Subscripts>
        ensures when { IsSome result ↔ IsTrue (are_subscripts values) }
        ensures subscripts { IfSome result (λ subscripts. subscripts ≡ values) }
    {
        if !values_ok(values.as_slice()) {
            return None;
        }
        Some(Subscripts { values })
    }

    /// Their values. Takes no memory.
    pub fn as_slice(&self) -> &[Value]
        ensures texts { result.now ≡ self.now }
        ensures are_subscripts { AreSubscripts result.now }
    {
        self.values.as_slice()
    }
}

/// A place that the checks let through. Contracts see it by `place_view`, as one of the definitions.
pub enum Place<'t> {
    /// A node of a local variable: its name, and its subscripts.
    Local(VariableName<'t>, Subscripts),
    /// A node of a global.
    Node(NodeKey),
}

// Written out, so that dropping it is one call, which is proved once.
impl<'t> Drop for Place<'t> {
    fn drop(self) {
        match self {
            Place::Local(_, _) => {}
            Place::Node(_) => {}
        }
    }
}

// The code of a read where there is no text.
pub fn undefined(place: &Place) -> Code
    ensures { fault_of result ≡ Own (undefined_at (place_view place.now)) }
{
    match place {
        Place::Local(_, _) => Code::M6,
        Place::Node(_) => Code::M7,
    }
}

// The place of a local variable with these subscripts; `Zsub` if they cannot be those of a node.
pub fn local_place<'t>(name: VariableName<'t>, values: Values) -> Result<Place<'t>, Code>
    ensures checked { Yields fault_of (variables.resolve variables.reading (variables.of_local (name_view name.entry) values)) place_view result }
    ensures local { IfOk result (λ place. place_view place ≡ variables.at_local (name_view name.entry) values) }
{
    match Subscripts::new(values) {
        Some(subscripts) => Ok(Place::Local(name, subscripts)),
        None => Err(Code::Zsub),
    }
}

// A place that the checks let through for $ORDER: its last subscript may be empty. Contracts see it by `walk_view`.
pub enum Walk<'t> {
    Local(VariableName<'t>, Values),
    Node(GlobalReference<'t>),
}

// Written out, so that dropping it is one call, which is proved once.
impl<'t> Drop for Walk<'t> {
    fn drop(self) {
        match self {
            Walk::Local(_, _) => {}
            Walk::Node(_) => {}
        }
    }
}

// Whether these can be the subscripts of $ORDER, which takes an empty last one.
pub fn check_walk(values: &[Value]) -> Result<(), Code>
    ensures checked { Yields fault_of (checked ordering values.now) (λ u. u) result }
    ensures walk { IfOk result (λ _. AreOrderSubscripts values.now) }
{
    if values.is_empty() {
        return Err(Code::Zarg);
    }
    if !order_values_ok(values) {
        return Err(Code::Zsub);
    }
    Ok(())
}
