// SPDX-License-Identifier: Apache-2.0
// Keys of nodes.
ghost use Rattle.std.specs.Prelude.{◌≡◌, ◌↔◌, ◌*◌, ◌≤◌, [], ◌∷◌, ◌++◌, IfOk, IfSome, Err, All, Some, MatchOption, refl};
ghost use Rattle.std.specs.Cmp.{partial_equiv_from_equiv, partial_order_from_total, eq_by_cmp_equiv};
ghost use Rattle.std.specs.Ordering.{eq_by_cmp};
ghost use Rattle.mkey.specs.Front.{IsSub};
ghost use Rattle.mkey.specs.Key.{IsKey, IsKeyOf, IsKey-prop, BoundsKeysOf};
ghost use Rattle.mkey.specs.Parent.{IsParent};
ghost use Rattle.mkey.specs.Under.{child_under};
ghost use Rattle.mspec.specs.Act.{Node};
ghost use Rattle.mspec.specs.Names.{IsName};
ghost use Rattle.mspec.specs.KeyBytes.{text_bytes, key_bytes, children_start, subtree_end, IsAccountName, AreSubscripts, IsStored};
ghost use Rattle.mspec.specs.KeyLaws.{BeginsWith, IsWithin};
ghost use Rattle.mspec.specs.NodeOrder.{IsAncestor, node_cmp};
ghost use Rattle.mspec.specs.Number.{significant_digits};
ghost use Rattle.mspec.proofs.NodeOrders.{node_cmp_total};

use crate::ancestors::last_subscript;
use crate::decoding::behind;
use crate::encoding::{push_text, push_texts, push_values, texts_room, values_room};
use crate::fault::KeyFault;
use crate::order::compare;
use crate::subs::{subs_ok, values_ok};
use crate::values::first_value;
use mnum::Bytes7;
use mvalue::Value;
use std::alloc::{AllocError, Global};
use std::cmp::Ordering;
use std::marker::Model;

// What comes after a key in the bounds of the nodes below it.
const FIRST_TAG: u8 = 1;

const BEHIND_TAGS: u8 = 3;

/// The key of a node of a store, in the order of nodes. Contracts see it as the node.
#[derive(Drop)]
pub struct NodeKey {
    bytes: Vec<u8>,
    ghost of_node: { IsKey bytes.items } by { IsKey-prop bytes.items },
}

impl Model for NodeKey {
    ghost use Rattle.mspec.specs.Act.{Node};

    ghost Value = { Node };

    ghost view = { λ key. key.of_node.0 };
}

// The bytes of an account's name and of a global's, with space for `room` more after them, and for one that follows a key.
fn begun(alloc: Global, account: &[u8], name: &Bytes7, room: usize) -> Result<Vec<u8>, AllocError>
    requires account { IsAccountName account.now }
    requires name { IsName name.now }
    requires room { room ≤ 15 * 272 }
    ensures { IfOk result (λ bytes. bytes.items ≡ text_bytes account.now ++ text_bytes name.now) }
{
    let names = account.len() + 1 + name.as_bytes().len() + 1;
    let mut bytes = Vec::with_capacity(alloc, names + room + 1)?;
    push_text(&mut bytes, account);
    push_text(&mut bytes, name.as_bytes());
    Ok(bytes)
}

impl From<AllocError> for KeyFault {
    ghost use Rattle.std.specs.Prelude.{◌≡◌};
    ghost use Rattle.mkey.specs.declared.fault.KeyFault.TheVariants.{Memory};

    ghost from_gives = { λ _ fault. fault ≡ Memory };

    fn from(_error: AllocError) -> KeyFault {
        KeyFault::Memory
    }
}

impl NodeKey {
    /// The key of the node of this account, global name and subscripts.
    ///
    /// # Errors
    ///
    /// `Sub` exactly if `subs_ok` is false, and `Memory`.
    pub fn build(
        alloc: Global,
        account: &Bytes7,
        name: &Bytes7,
        subs: &[Bytes7],
    ) -> Result<NodeKey, KeyFault>
        requires account { IsAccountName account.now }
        requires name { IsName name.now }
        ensures ok { IfOk result (λ key. key ≡ record { account = account.now; name = name.now; subscripts = subs.now }) }
        ensures sub { (result ≡ Err KeyFault.Sub) ↔ (AreSubscripts subs.now → ⊥) }
        ensures memory { result ≡ Err KeyFault.Memory → AreSubscripts subs.now }
    {
        if !subs_ok(subs) {
            return Err(KeyFault::Sub);
        }
        let mut bytes = begun(alloc, account.as_bytes(), name, texts_room(subs))?;
        push_texts(&mut bytes, subs)?;
        Ok(NodeKey { bytes })
    }

    /// The same for subscripts that are values, as the language has them: a number is put into the key as it is.
    ///
    /// # Errors
    ///
    /// `Sub` exactly if `values_ok` is false, and `Memory`.
    pub fn build_values(
        alloc: Global,
        account: &[u8],
        name: &Bytes7,
        subs: &[Value],
    ) -> Result<NodeKey, KeyFault>
        requires account { IsAccountName account.now }
        requires name { IsName name.now }
        ensures ok { IfOk result (λ key. key ≡ record { account = account.now; name = name.now; subscripts = subs.now }) }
        ensures sub { (result ≡ Err KeyFault.Sub) ↔ (AreSubscripts subs.now → ⊥) }
        ensures memory { result ≡ Err KeyFault.Memory → AreSubscripts subs.now }
    {
        if !values_ok(subs) {
            return Err(KeyFault::Sub);
        }
        let mut bytes = begun(alloc, account, name, values_room(subs))?;
        push_values(&mut bytes, subs)?;
        Ok(NodeKey { bytes })
    }

    /// A second key of the same node, on this one's allocator.
    ///
    /// # Errors
    ///
    /// `AllocError` if it runs out of memory.
    pub fn copy(&self) -> Result<NodeKey, AllocError>
        ensures key { IfOk result (λ key. key ≡ self.now) }
        ensures stored { IsStored self.now }
    {
        let bytes = self.bytes.clone()?;
        Ok(NodeKey { bytes })
    }

    /// The key of the node with one subscript fewer, in this one's memory, or None if the node has no subscript. Takes no memory.
    pub fn into_parent(self) -> Option<NodeKey>
        ensures { MatchOption result (self.subscripts ≡ []) (λ above. IsParent above self) }
    {
        let mut bytes = self.bytes;
        let start = last_subscript(&bytes)?;
        bytes.truncate(start);
        Some(NodeKey { bytes })
    }

    /// The bytes of the key. They are in the order of nodes, and begin with the bytes of another key exactly if this node is the
    /// other or below it. Takes no memory.
    pub fn as_bytes(&self) -> &[u8]
        ensures bytes { result.now ≡ key_bytes significant_digits self.now }
        ensures stored { IsStored self.now }
    {
        self.bytes.as_slice()
    }

    // The bytes of the key with one more after them.
    fn followed_by(&self, alloc: Global, byte: u8) -> Result<Vec<u8>, AllocError>
        ensures bytes { IfOk result (λ bytes. bytes.items ≡ key_bytes significant_digits self.now ++ byte ∷ []) }
        ensures stored { IsStored self.now }
    {
        let key = self.as_bytes();
        let mut bytes = Vec::with_capacity(alloc, key.len() + 1)?;
        bytes.extend_from_slice(key)?;
        bytes.push(byte)?;
        Ok(bytes)
    }

    /// The end of the keys of the node and of the nodes below it. These keys are those that begin with this key: they are from
    /// this key on and before that end.
    ///
    /// # Errors
    ///
    /// `AllocError` if it runs out of memory.
    pub fn after_subtree(&self, alloc: Global) -> Result<Vec<u8>, AllocError>
        ensures bytes { IfOk result (λ end. end.items ≡ subtree_end (key_bytes significant_digits self.now)) }
        ensures subtree { IfOk result (λ end. BoundsKeysOf (IsWithin self.now) (key_bytes significant_digits self.now) end.items) }
        ensures begins { IfOk result (λ end. BoundsKeysOf (λ n. BeginsWith (key_bytes significant_digits n) (key_bytes significant_digits self.now))
            (key_bytes significant_digits self.now) end.items) }
    {
        let end = self.followed_by(alloc, BEHIND_TAGS)?;
        Ok(end)
    }

    /// The same, in this key's memory.
    ///
    /// # Errors
    ///
    /// `AllocError` if it runs out of memory.
    pub fn into_after_subtree(self) -> Result<Vec<u8>, AllocError>
        ensures { IfOk result (λ end. end.items ≡ subtree_end (key_bytes significant_digits self)) }
    {
        let mut bytes = self.into_bytes();
        bytes.push(BEHIND_TAGS)?;
        Ok(bytes)
    }

    /// The first bytes that come after the key, in this key's memory.
    ///
    /// # Errors
    ///
    /// `AllocError` if it runs out of memory.
    pub fn into_behind(self) -> Result<Vec<u8>, AllocError>
        ensures { IfOk result (λ low. low.items ≡ key_bytes significant_digits self ++ 0 ∷ []) }
    {
        let mut bytes = self.into_bytes();
        bytes.push(0)?;
        Ok(bytes)
    }

    /// The bytes of the key, in its own memory. Takes no memory.
    pub fn into_bytes(self) -> Vec<u8>
        ensures { result.items ≡ key_bytes significant_digits self }
    {
        self.bytes
    }

    /// Where the keys of the nodes below this one begin.
    ///
    /// # Errors
    ///
    /// `AllocError` if it runs out of memory.
    pub fn children_start(&self, alloc: Global) -> Result<Vec<u8>, AllocError>
        ensures { IfOk result (λ low. low.items ≡ children_start (key_bytes significant_digits self.now)) }
    {
        let low = self.followed_by(alloc, FIRST_TAG)?;
        Ok(low)
    }

    /// The bounds of the keys of the nodes below this one: the keys are from the first bound on and before the second.
    ///
    /// # Errors
    ///
    /// `AllocError` if it runs out of memory.
    pub fn child_bounds(&self, alloc: Global) -> Result<(Vec<u8>, Vec<u8>), AllocError>
        ensures low { IfOk result (λ bounds. bounds.0.items ≡ children_start (key_bytes significant_digits self.now)) }
        ensures high { IfOk result (λ bounds. bounds.1.items ≡ subtree_end (key_bytes significant_digits self.now)) }
        ensures stored { IsStored self.now }
        ensures below { IfOk result (λ bounds. BoundsKeysOf (IsAncestor self.now) bounds.0.items bounds.1.items) }
    {
        let low = self.followed_by(alloc, FIRST_TAG)?;
        let high = self.followed_by(alloc, BEHIND_TAGS)?;
        Ok((low, high))
    }

    /// The subscript that comes next after this node's in the node whose key these bytes are, if that node is below this one. If it
    /// is a number, it comes as a number, which takes no memory. Nothing is said of bytes that are no key.
    ///
    /// # Errors
    ///
    /// `AllocError` if it runs out of memory.
    pub fn child_in(&self, alloc: Global, bytes: &[u8]) -> Result<Option<Value>, AllocError>
        ensures child { IfOk result (λ child. (m : Node) → IsKeyOf m bytes.now → child ≡ child_under self.now m) }
        ensures sub { IfOk result (λ child. IfSome child IsSub) }
    {
        let key = self.as_bytes();
        if !bytes.starts_with(key) {
            return Ok(None);
        }
        let child = first_value(alloc, behind(bytes, key.len()))?;
        Ok(child)
    }
}

// Keys are in the order of their nodes, and are equal if those are.

impl PartialEq for NodeKey {
    ghost eq = { eq_by_cmp (node_cmp significant_digits) };

    ghost laws = { partial_equiv_from_equiv (eq_by_cmp_equiv (node_cmp_total significant_digits)) };

    fn eq(&self, other: &NodeKey) -> bool {
        self.cmp(other).is_eq()
    }
}

impl Eq for NodeKey {
    ghost laws = { eq_by_cmp_equiv (node_cmp_total significant_digits) };
}

impl PartialOrd for NodeKey {
    ghost partial_cmp = { λ a b. Some (node_cmp significant_digits a b) };

    ghost laws = { partial_order_from_total (node_cmp_total significant_digits) };

    fn partial_cmp(&self, other: &NodeKey) -> Option<Ordering> {
        Some(self.cmp(other))
    }
}

impl Ord for NodeKey {
    ghost cmp = { node_cmp significant_digits };

    ghost total = { node_cmp_total significant_digits };

    ghost matches_partial_cmp = { λ a b. refl };

    ghost matches_eq = { λ a b. refl };

    fn cmp(&self, other: &NodeKey) -> Ordering {
        compare(self.as_bytes(), other.as_bytes())
    }
}
