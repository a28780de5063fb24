// SPDX-License-Identifier: Apache-2.0
// Texts of characters below 128.
ghost use Rattle.std.specs.Prelude.{◌≡◌, ◌↔◌, ◌<◌, [], ◌∷◌, ◌++◌, reverse, All, IsOk, IfOk, IfErr, OnOk, OnErr};
ghost use Rattle.std.specs.Prelude.{Some, nat_eq, refl};
ghost use Rattle.std.specs.Cmp.{partial_equiv_from_equiv};
ghost use Rattle.std.specs.Cmp.Lexicographic.{pointwise, slice_cmp, nat_list_eq_equiv, nat_list_cmp_total, texts_po, texts_ties, bytes_decides};
ghost use Rattle.std.proofs.Common.{ap};
ghost use Rattle.std.specs.Ordering.{nat_cmp};

use std::alloc::{AllocError, Global};
use std::cmp::Ordering;
use std::hash::{Hash, Hasher};
use std::marker::Model;

/// A text of ASCII characters: bytes that are each under 128. Contracts see it as its list of bytes. It may have more than
/// `MAX_TEXT` characters: whatever makes a text of the language then refuses it.
#[derive(Drop)]
pub struct Bytes7 {
    bytes: Vec<u8>,
}

impl Model for Bytes7 {
    ghost use Rattle.std.specs.Prelude.{List, ℕ, ◌<◌, All};

    ghost Value = { List ℕ };

    ghost view = { λ text. text.bytes.items };

    ghost invariant = { λ text. All (λ c. c < 128) text.bytes.items };
}

impl Bytes7 {
    /// The text of these bytes. Takes no memory.
    ///
    /// # Errors
    ///
    /// Hands the bytes back, as they were, exactly if one of them is over 127.
    pub fn new(bytes: Vec<u8>) -> Result<Bytes7, Vec<u8>>
        ensures when { IsOk result ↔ All (λ c. c < 128) bytes.items }
        ensures text { IfOk result (λ text. text ≡ bytes.items) }
        ensures handed_back { IfErr result (λ same. same ≡ bytes) }
    {
        if bytes.as_slice().iter().all(|c| *c < 128) {
            Ok(Bytes7 { bytes })
        } else {
            Err(bytes)
        }
    }

    /// The bytes of the text, each under 128. Takes no memory.
    pub fn as_bytes(&self) -> &[u8]
        ensures bytes { result.now ≡ self.now }
        ensures ascii { All (λ c. c < 128) result.now }
    {
        self.bytes.as_slice()
    }

    /// A second text of the same bytes, on this one's allocator.
    ///
    /// # Errors
    ///
    /// `AllocError` if it runs out of memory.
    pub fn copy(&self) -> Result<Bytes7, AllocError>
        ensures { IfOk result (λ text. text ≡ self.now) }
    {
        let bytes = self.bytes.clone()?;
        Ok(Bytes7 { bytes })
    }

    /// A text of the same bytes, the last one first, on this one's allocator.
    ///
    /// # Errors
    ///
    /// `AllocError` if it runs out of memory.
    pub fn reversed(&self) -> Result<Bytes7, AllocError>
        ensures { IfOk result (λ text. text ≡ reverse self.now) }
    {
        let mut bytes = self.bytes.clone()?;
        bytes.reverse();
        Ok(Bytes7 { bytes })
    }

    /// The empty text, which takes no memory.
    pub fn empty(alloc: Global) -> Bytes7
        ensures { result ≡ [] }
    {
        Bytes7 {
            bytes: Vec::new(alloc),
        }
    }

    /// The text of these bytes, each of which is under 128.
    ///
    /// # Errors
    ///
    /// `AllocError` if it runs out of memory.
    pub fn from_slice(alloc: Global, bytes: &[u8]) -> Result<Bytes7, AllocError>
        requires { All (λ c. c < 128) bytes.now }
        ensures { IfOk result (λ text. text ≡ bytes.now) }
    {
        let bytes = Vec::from_slice(alloc, bytes)?;
        Ok(Bytes7 { bytes })
    }

    /// Adds a byte under 128 at the end.
    ///
    /// # Errors
    ///
    /// `AllocError` if it runs out of memory; the text is then as it was.
    pub fn push(&mut self, byte: u8) -> Result<(), AllocError>
        requires { byte < 128 }
        ensures ok { OnOk result (self.new ≡ self.old ++ byte ∷ []) }
        ensures err { OnErr result (self.new ≡ self.old) }
    {
        self.bytes.push(byte)?;
        Ok(())
    }

    /// Adds these bytes, each of which is under 128, at the end.
    ///
    /// # Errors
    ///
    /// `AllocError` if it runs out of memory; the text is then as it was.
    pub fn append(&mut self, bytes: &[u8]) -> Result<(), AllocError>
        requires { All (λ c. c < 128) bytes.now }
        ensures ok { OnOk result (self.new ≡ self.old ++ bytes.now) }
        ensures err { OnErr result (self.new ≡ self.old) }
    {
        self.bytes.extend_from_slice(bytes)
    }
}

// Texts are equal if their bytes are, and are in dictionary order.

impl PartialEq for Bytes7 {
    ghost eq = { pointwise nat_eq };

    ghost laws = { partial_equiv_from_equiv nat_list_eq_equiv };

    fn eq(&self, other: &Bytes7) -> bool {
        self.as_bytes() == other.as_bytes()
    }
}

impl Eq for Bytes7 {
    ghost laws = { nat_list_eq_equiv };
}

impl Hash for Bytes7 {
    ghost hash_input = { λ text. text ∷ [] };

    ghost respects_eq = { λ x y same. ap (λ text. text ∷ []) ((bytes_decides x y).0 same) };

    fn hash<H: Hasher>(&self, state: &mut H) {
        state.write(self.as_bytes());
    }
}

impl PartialOrd for Bytes7 {
    ghost partial_cmp = { λ a b. Some (slice_cmp nat_cmp a b) };

    ghost laws = { texts_po };

    fn partial_cmp(&self, other: &Bytes7) -> Option<Ordering> {
        Some(self.cmp(other))
    }
}

impl Ord for Bytes7 {
    ghost cmp = { slice_cmp nat_cmp };

    ghost total = { nat_list_cmp_total };

    ghost matches_partial_cmp = { λ a b. refl };

    ghost matches_eq = { texts_ties };

    fn cmp(&self, other: &Bytes7) -> Ordering {
        self.as_bytes().cmp(other.as_bytes())
    }
}
