// SPDX-License-Identifier: Apache-2.0
// What is asked of globals, each by one operation.
ghost use Rattle.std.specs.Prelude.{◌≡◌};
ghost use Rattle.mspec.specs.Access.{Read, Write};
ghost use Rattle.mspec.specs.Act.{ask};
ghost use Rattle.mspec.specs.KeyBytes.{IsAccountName};
ghost use Rattle.mspec.specs.Names.{IsName};
ghost use Rattle.mspec.specs.Plan.{Value, Status, Neighbour, Following, Kill};
ghost use Rattle.mspec.specs.Trees.{AreOrderSubscripts, AreQuerySubscripts};
ghost use Rattle.mkey.specs.Way.{way};
ghost use Rattle.mmeaning.specs.Variables.{at_node, put_at};
ghost use Rattle.meval.specs.Evaluates.{Evaluates, standing_of};
ghost use Rattle.meval.specs.Places.{IsOpen, status_view};
ghost use Rattle.meval.specs.Stores.{store_code};

use crate::eval::Eval;
use mglobal::{following, neighbour, status};
use mkey::{Data, Direction, NodeKey, Subs};
use mnodes::{NodeStore, StoreFault};
use mnum::Bytes7;
use moperator::Code;
use mspec::limits::MAX_TEXT;
use std::alloc::Global;

// A fault of a store as the code that ends the line.
pub(crate) fn code_of(fault: StoreFault) -> Code
    ensures { result ≡ store_code fault }
{
    match fault {
        StoreFault::Memory => Code::Zmem,
        StoreFault::Store => Code::Zstore,
    }
}

impl<'a, S: NodeStore> Eval<'a, S> {
    // The text at a node, if there is one.
    pub(crate) fn node_text(&mut self, key: &NodeKey) -> Result<Option<Bytes7>, Code>
        requires { IsOpen (standing_of self.old) Read (at_node key.now) }
        ensures { Evaluates S.NodeStore (λ i. ask (Value key.now)) (λ text. text) self.old result self.new }
    {
        match self.store.get(key) {
            Ok(text) => Ok(text),
            Err(fault) => Err(code_of(fault)),
        }
    }

    // Whether a node has a text, and whether one below it has one.
    pub(crate) fn node_status(&mut self, alloc: Global, key: &NodeKey) -> Result<Data, Code>
        requires { IsOpen (standing_of self.old) Read (at_node key.now) }
        ensures { Evaluates S.NodeStore (λ i. ask (Status key.now)) status_view self.old result self.new }
    {
        match status(self.store, alloc, key) {
            Ok(data) => Ok(data),
            Err(fault) => Err(code_of(fault)),
        }
    }

    // The subscript next to the last one of the node of this account, global name and subscripts.
    pub(crate) fn node_neighbour(
        &mut self,
        alloc: Global,
        account: &[u8],
        name: &Bytes7,
        subscripts: &[mvalue::Value],
        direction: Direction,
    ) -> Result<Option<mvalue::Value>, Code>
        requires account { IsAccountName account.now }
        requires name { IsName name.now }
        requires subscripts { AreOrderSubscripts subscripts.now }
        requires allowed { IsOpen (standing_of self.old) Read (at_node (record { account = account.now; name = name.now; subscripts = subscripts.now })) }
        ensures { Evaluates S.NodeStore (λ i. ask (Neighbour (way direction) (record { account = account.now; name = name.now; subscripts = subscripts.now })))
            (λ next. next) self.old result self.new }
    {
        match neighbour(self.store, alloc, account, name, subscripts, direction) {
            Ok(next) => Ok(next),
            Err(fault) => Err(code_of(fault)),
        }
    }

    // The subscripts of the node that follows the one of this account, global name and subscripts.
    pub(crate) fn node_following(
        &mut self,
        alloc: Global,
        account: &[u8],
        name: &Bytes7,
        subscripts: &[mvalue::Value],
        direction: Direction,
    ) -> Result<Option<Subs>, Code>
        requires account { IsAccountName account.now }
        requires name { IsName name.now }
        requires subscripts { AreQuerySubscripts subscripts.now }
        requires allowed { IsOpen (standing_of self.old) Read (at_node (record { account = account.now; name = name.now; subscripts = subscripts.now })) }
        ensures { Evaluates S.NodeStore (λ i. ask (Following (way direction) (record { account = account.now; name = name.now; subscripts = subscripts.now })))
            (λ found. found) self.old result self.new }
    {
        match following(self.store, alloc, account, name, subscripts, direction) {
            Ok(found) => Ok(found),
            Err(fault) => Err(code_of(fault)),
        }
    }

    // Gives a node a text. What is below it stays.
    pub(crate) fn put_node(&mut self, key: &NodeKey, text: &Bytes7) -> Result<(), Code>
        requires { IsOpen (standing_of self.old) Write (at_node key.now) }
        ensures { Evaluates S.NodeStore (λ i. put_at (at_node key.now) text.now) (λ u. u) self.old result self.new }
    {
        if text.as_bytes().len() > MAX_TEXT {
            return Err(Code::Zlong);
        }
        match self.store.put(key, text) {
            Ok(()) => Ok(()),
            Err(fault) => Err(code_of(fault)),
        }
    }

    // Removes the text of a node, and of what is below it.
    pub(crate) fn kill_node(&mut self, key: &NodeKey) -> Result<(), Code>
        requires { IsOpen (standing_of self.old) Write (at_node key.now) }
        ensures { Evaluates S.NodeStore (λ i. ask (Kill key.now)) (λ u. u) self.old result self.new }
    {
        match self.store.kill(key) {
            Ok(()) => Ok(()),
            Err(fault) => Err(code_of(fault)),
        }
    }
}
