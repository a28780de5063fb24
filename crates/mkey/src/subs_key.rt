// SPDX-License-Identifier: Apache-2.0
// Keys of lists of subscripts.
ghost use Rattle.std.specs.Prelude.{◌≡◌, ◌==◌, length, IfOk, Some, refl, [], ◌∷◌};
ghost use Rattle.std.specs.Cmp.{partial_equiv_from_equiv, partial_order_from_total, eq_by_cmp_equiv};
ghost use Rattle.std.specs.Ordering.{eq_by_cmp};
ghost use Rattle.mkey.specs.Front.{AreSubs};
ghost use Rattle.mkey.specs.Head.{head_number};
ghost use Rattle.mkey.specs.SubsKey.{IsSubsKey, IsSubsKeyOf, IsSubsKey-prop, behind_below};
ghost use Rattle.mspec.specs.KeyBytes.{AreSubscripts, subscripts_bytes};
ghost use Rattle.mspec.specs.KeyLaws.{NoneEmpty};
ghost use Rattle.mspec.specs.NodeOrder.{subscripts_cmp};
ghost use Rattle.mspec.specs.Number.{significant_digits};
ghost use Rattle.mspec.specs.Trees.{is_within, child_of};
ghost use Rattle.mspec.proofs.NodeOrders.{subscripts_cmp_total};

use crate::decoding::{DIGITS, behind, read_subs};
use crate::encoding::{push_values, values_room};
use crate::head::Head;
use crate::order::compare;
use crate::subs::Subs;
use crate::values::first_value;
use mvalue::Value;
use std::alloc::{AllocError, Global};
use std::cmp::Ordering;
use std::marker::Model;

// What comes after the bytes of subscripts in the bound of those that begin with them: more than any other subscript's.
const BEYOND: [u8; 3] = [2, 255, 0];

/// The key of a list of subscripts, in the order of subscripts. Contracts see it as the list.
#[derive(Drop)]
pub struct SubsKey {
    // tells most keys apart without looking at the bytes, which are elsewhere
    head: Head,
    bytes: Vec<u8>,
    ghost of_subs: { IsSubsKey bytes.items } by { IsSubsKey-prop bytes.items },
    ghost head_of: { head ≡ head_number 32 bytes.items },
}

impl Model for SubsKey {
    ghost use Rattle.std.specs.Prelude.{List, ℕ};

    ghost Value = { List (List ℕ) };

    ghost view = { λ key. key.of_subs.0 };
}

impl SubsKey {
    // The key that has these bytes.
    fn of_bytes(bytes: Vec<u8>) -> SubsKey
        requires { IsSubsKey bytes.items }
        ensures { IsSubsKeyOf result bytes.items }
    {
        let head = Head::of(bytes.as_slice());
        SubsKey { head, bytes }
    }

    /// The key of these subscripts. A number is put into it as it is.
    ///
    /// # Errors
    ///
    /// `AllocError` if it runs out of memory.
    pub fn build(alloc: Global, subs: &[Value]) -> Result<SubsKey, AllocError>
        requires { AreSubscripts subs.now }
        ensures key { IfOk result (λ key. key ≡ subs.now) }
        ensures subs { AreSubs subs.now }
    {
        let mut bytes = Vec::with_capacity(alloc, values_room(subs))?;
        push_values(&mut bytes, subs)?;
        Ok(SubsKey::of_bytes(bytes))
    }

    /// A bound of the keys of subscripts that begin with these: it comes after all of them, and before all others that come
    /// after one of them.
    ///
    /// # Errors
    ///
    /// `AllocError` if it runs out of memory.
    pub fn behind_below(alloc: Global, subs: &[Value]) -> Result<SubsKey, AllocError>
        requires { AreSubscripts subs.now }
        ensures key { IfOk result (λ key. key ≡ behind_below subs.now) }
        ensures subs { AreSubs subs.now }
    {
        let mut bound = Vec::with_capacity(alloc, values_room(subs) + BEYOND.len())?;
        push_values(&mut bound, subs)?;
        bound.extend_from_slice(&BEYOND)?;
        Ok(SubsKey::of_bytes(bound))
    }

    /// Whether it is the key of no subscripts. Takes no memory.
    #[tactic(auto, using(crate::proofs::SubsKeys::none_of_bytes))]
    pub fn is_empty(&self) -> bool
        ensures { result ≡ (length self.now == 0) }
    {
        self.as_bytes().is_empty()
    }

    /// The bytes of the key. They are in the order of subscripts, and begin with the bytes of another key exactly if the list
    /// begins with the other's. Takes no memory.
    pub fn as_bytes(&self) -> &[u8]
        ensures bytes { result.now ≡ subscripts_bytes significant_digits self.now }
        ensures subs { NoneEmpty self.now }
    {
        self.bytes.as_slice()
    }

    /// A second key of the same subscripts, on this one's allocator.
    ///
    /// # Errors
    ///
    /// `AllocError` if it runs out of memory.
    pub fn copy(&self) -> Result<SubsKey, AllocError>
        ensures { IfOk result (λ key. key ≡ self.now) }
    {
        Ok(SubsKey::of_bytes(self.bytes.clone()?))
    }

    /// The subscripts of the list as texts.
    ///
    /// # Errors
    ///
    /// `AllocError` if it runs out of memory.
    pub fn subs(&self, alloc: Global) -> Result<Subs, AllocError>
        requires { AreSubs self.now }
        ensures { IfOk result (λ subs. subs ≡ self.now) }
    {
        let read = read_subs(alloc, self.as_bytes(), DIGITS)?;
        match read {
            Some(subs) => Ok(subs),
            None => unreachable!(),
        }
    }

    /// Whether the list begins with another one. Takes no memory.
    #[tactic(auto, using(crate::proofs::SubsKeys::within_bytes))]
    pub fn is_within(&self, above: &SubsKey) -> bool
        ensures { result ≡ is_within above.now self.now }
    {
        self.as_bytes().starts_with(above.as_bytes())
    }

    /// The subscript that comes next after those of another list, if the list begins with the other and goes on. If it is a number,
    /// it comes as a number, which takes no memory.
    ///
    /// # Errors
    ///
    /// `AllocError` if it runs out of memory.
    #[inline]
    #[tactic(auto, using(crate::proofs::SubsKeys::bytes_behind, crate::proofs::SubsKeys::child_read))]
    pub fn child_of(&self, alloc: Global, above: &SubsKey) -> Result<Option<Value>, AllocError>
        requires { AreSubs self.now }
        ensures { IfOk result (λ child. child ≡ child_of above.now self.now) }
    {
        if !self.is_within(above) {
            return Ok(None);
        }
        let child = first_value(alloc, behind(self.as_bytes(), above.as_bytes().len()))?;
        Ok(child)
    }
}

// Keys are in the order of their subscripts, and are equal if those are.

impl PartialEq for SubsKey {
    ghost eq = { eq_by_cmp (subscripts_cmp significant_digits) };

    ghost laws = { partial_equiv_from_equiv (eq_by_cmp_equiv (subscripts_cmp_total significant_digits)) };

    fn eq(&self, other: &SubsKey) -> bool {
        self.cmp(other).is_eq()
    }
}

impl Eq for SubsKey {
    ghost laws = { eq_by_cmp_equiv (subscripts_cmp_total significant_digits) };
}

impl PartialOrd for SubsKey {
    ghost partial_cmp = { λ a b. Some (subscripts_cmp significant_digits a b) };

    ghost laws = { partial_order_from_total (subscripts_cmp_total significant_digits) };

    fn partial_cmp(&self, other: &SubsKey) -> Option<Ordering> {
        Some(self.cmp(other))
    }
}

impl Ord for SubsKey {
    ghost cmp = { subscripts_cmp significant_digits };

    ghost total = { subscripts_cmp_total significant_digits };

    ghost matches_partial_cmp = { λ a b. refl };

    ghost matches_eq = { λ a b. refl };

    fn cmp(&self, other: &SubsKey) -> Ordering {
        // before the heads, whose order is theirs since each of these is below 256
        let bytes = self.as_bytes();
        let others = other.as_bytes();
        let order = self.head.order(&other.head);
        if order.is_ne() {
            return order;
        }
        compare(bytes, others)
    }
}
