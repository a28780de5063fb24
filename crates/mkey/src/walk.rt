// SPDX-License-Identifier: Apache-2.0
// What $DATA, $ORDER and $QUERY ask.
ghost use Rattle.std.specs.Prelude.{◌≡◌, ◌<◌, length};
ghost use Rattle.mspec.specs.KeyBytes.{AreSubscripts};
ghost use Rattle.mspec.specs.Trees.{front, last, ends_empty, without_empty, AreQuerySubscripts};

use mvalue::Value;

/// What a variable or a global has at a node.
#[derive(Clone, Copy, PartialEq, Eq)]
pub struct Data {
    /// The node has a text.
    pub value: bool,
    /// A node below it has one.
    pub descendants: bool,
}

/// Which way a walk over subscripts goes.
#[derive(Clone, Copy, PartialEq, Eq)]
pub enum Direction {
    Forward,
    Backward,
}

/// The subscripts in front of the last one. Takes no memory.
pub fn front(subs: &[Value]) -> &[Value]
    requires { 0 < length subs.now }
    ensures { result.now ≡ front subs.now }
{
    &subs[..subs.len() - 1]
}

/// The last subscript. Takes no memory.
pub fn last(subs: &[Value]) -> &Value
    requires { 0 < length subs.now }
    ensures { result.now ≡ last subs.now }
{
    &subs[subs.len() - 1]
}

/// Whether there is a last subscript, and it is empty. Takes no memory.
pub fn ends_empty(subs: &[Value]) -> bool
    ensures { result ≡ ends_empty subs.now }
{
    if subs.is_empty() {
        return false;
    }
    last(subs).is_empty()
}

/// The subscripts without the last one if that is empty: those of a node. Takes no memory.
pub fn without_empty(subs: &[Value]) -> &[Value]
    requires { AreQuerySubscripts subs.now }
    ensures front { result.now ≡ without_empty subs.now }
    ensures subscripts { AreSubscripts result.now }
{
    if ends_empty(subs) { front(subs) } else { subs }
}
