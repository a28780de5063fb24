// SPDX-License-Identifier: Apache-2.0
// Names of variables, of labels and of globals.
ghost use Rattle.std.specs.Prelude.{◌≡◌, ◌↔◌, [], ◌∷◌, All, IsTrue, IsOk, IfOk, IfErr, true};
ghost use Rattle.std.specs.Prelude.{Some, nat_eq, refl};
ghost use Rattle.std.specs.Cmp.{partial_equiv_from_equiv};
ghost use Rattle.std.specs.Cmp.Lexicographic.{pointwise, slice_cmp, nat_list_eq_equiv, nat_list_cmp_total, texts_po, texts_ties, bytes_decides};
ghost use Rattle.std.specs.Ordering.{nat_cmp};
ghost use Rattle.std.proofs.Common.{ap};
ghost use Rattle.mspec.specs.Names.{IsName, is_name_start, is_name_rest};

use crate::bytes::Bytes7;
use mspec::limits::MAX_NAME;
use std::alloc::{AllocError, Global};
use std::cmp::Ordering;
use std::hash::{Hash, Hasher};
use std::marker::Model;

// Whether a name can begin with the character: a letter, or `%`.
fn starts_name(c: u8) -> bool
    ensures { result ≡ is_name_start c }
{
    c.is_ascii_alphabetic() || c == b'%'
}

// Whether the character can come after the first one: a letter or a digit.
fn continues_name(c: u8) -> bool
    ensures { result ≡ is_name_rest c }
{
    c.is_ascii_alphanumeric()
}

/// Whether these are letters and digits alone, as after the first character of a name. Takes no memory.
pub fn continue_name(text: &[u8]) -> bool
    ensures { IsTrue result ↔ All (λ c. is_name_rest c ≡ true) text.now }
{
    text.iter().all(|c| continues_name(*c))
}

/// Whether this is a name: a letter or `%` with at most 30 letters or digits after it. Takes no memory.
pub fn is_name(text: &Bytes7) -> bool
    ensures { IsTrue result ↔ IsName text.now }
{
    let characters = text.as_bytes();
    if characters.is_empty() || characters.len() > MAX_NAME {
        return false;
    }
    starts_name(characters[0]) && continue_name(&characters[1..])
}

/// A name: a letter or `%` with at most 30 letters or digits after it. Contracts see it as its list of bytes, and whatever
/// gives its text says that this is a name.
#[derive(Drop)]
pub struct Name {
    text: Bytes7,
}

impl Model for Name {
    ghost use Rattle.std.specs.Prelude.{List, ℕ};
    ghost use Rattle.mspec.specs.Names.{IsName};

    ghost Value = { List ℕ };

    ghost view = { λ name. name.text };

    ghost invariant = { λ name. IsName name.text };
}

impl Name {
    /// The name that is this text. Takes no memory.
    ///
    /// # Errors
    ///
    /// Hands the text back exactly if it is no name.
    pub fn new(text: Bytes7) -> Result<Name, Bytes7>
        ensures when { IsOk result ↔ IsName text }
        ensures name { IfOk result (λ name. name ≡ text) }
        ensures handed_back { IfErr result (λ same. same ≡ text) }
    {
        if is_name(&text) {
            Ok(Name { text })
        } else {
            Err(text)
        }
    }

    /// The name that these bytes are; they must be one.
    ///
    /// # Errors
    ///
    /// `AllocError` if it runs out of memory.
    #[tactic(auto, using(crate::proofs::NameTexts::name_is_ascii))]
    pub fn from_slice(alloc: Global, bytes: &[u8]) -> Result<Name, AllocError>
        requires { IsName bytes.now }
        ensures { IfOk result (λ name. name ≡ bytes.now) }
    {
        let text = Bytes7::from_slice(alloc, bytes)?;
        Ok(Name { text })
    }

    /// The text of the name. Takes no memory.
    pub fn as_bytes7(&self) -> &Bytes7
        ensures text { result.now ≡ self.now }
        ensures is_name { IsName result.now }
    {
        &self.text
    }

    /// The bytes of the name. Takes no memory.
    pub fn as_bytes(&self) -> &[u8]
        ensures bytes { result.now ≡ self.now }
        ensures is_name { IsName result.now }
    {
        self.text.as_bytes()
    }

    /// A second name of the same text, on this one's allocator.
    ///
    /// # Errors
    ///
    /// `AllocError` if it runs out of memory.
    pub fn copy(&self) -> Result<Name, AllocError>
        ensures { IfOk result (λ name. name ≡ self.now) }
    {
        let text = self.text.copy()?;
        Ok(Name { text })
    }
}

// Names are equal if their texts are, and are in dictionary order.

impl PartialEq for Name {
    ghost eq = { pointwise nat_eq };

    ghost laws = { partial_equiv_from_equiv nat_list_eq_equiv };

    fn eq(&self, other: &Name) -> bool {
        self.text == other.text
    }
}

impl Eq for Name {
    ghost laws = { nat_list_eq_equiv };
}

impl Hash for Name {
    ghost hash_input = { λ text. text ∷ [] };

    ghost respects_eq = { λ x y same. ap (λ text. text ∷ []) ((bytes_decides x y).0 same) };

    fn hash<H: Hasher>(&self, state: &mut H) {
        state.write(self.as_bytes());
    }
}

impl PartialOrd for Name {
    ghost partial_cmp = { λ a b. Some (slice_cmp nat_cmp a b) };

    ghost laws = { texts_po };

    fn partial_cmp(&self, other: &Name) -> Option<Ordering> {
        Some(self.cmp(other))
    }
}

impl Ord for Name {
    ghost cmp = { slice_cmp nat_cmp };

    ghost total = { nat_list_cmp_total };

    ghost matches_partial_cmp = { λ a b. refl };

    ghost matches_eq = { texts_ties };

    fn cmp(&self, other: &Name) -> Ordering {
        self.as_bytes().cmp(other.as_bytes())
    }
}
