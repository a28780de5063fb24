// SPDX-License-Identifier: Apache-2.0
// Names of accounts and of globals.
ghost use Rattle.std.specs.Prelude.{◌≡◌, ◌↔◌, IsTrue};
ghost use Rattle.std.specs.List.{list_all};
ghost use Rattle.mspec.specs.Names.{IsName, is_name_start, is_name_rest};
ghost use Rattle.mspec.specs.KeyBytes.{IsAccountName};
ghost use Rattle.mgrant.specs.Document.{is_account_name, is_name};

use mspec::limits::{MAX_ACCOUNT_NAME, MAX_NAME_REST};

// Whether the character is a letter or a digit.
fn is_word(c: u8) -> bool
    ensures { result ≡ is_name_rest c }
{
    c.is_ascii_alphanumeric()
}

// Whether these are only letters and digits.
fn are_words(text: &[u8]) -> bool
    ensures { result ≡ list_all is_name_rest text.now }
{
    text.iter().all(|c| is_word(*c))
}

// Whether a name can begin with the character: a letter, or `%`.
fn starts_name(c: u8) -> bool
    ensures { result ≡ is_name_start c }
{
    c.is_ascii_alphabetic() || c == b'%'
}

// Whether this is an account's name: 1 to 16 letters or digits.
#[tactic(auto, using(mspec::proofs::SubscriptTests::account_name_is, mspec::proofs::SubscriptTests::account_name_test))]
pub(crate) fn is_account_name(text: &[u8]) -> bool
    ensures test { result ≡ is_account_name text.now }
    ensures fact { IsTrue result ↔ IsAccountName text.now }
{
    !text.is_empty() && text.len() <= MAX_ACCOUNT_NAME && are_words(text)
}

// Whether this is a name: a letter or `%`, followed by at most 30 letters or digits.
#[tactic(auto, using(crate::proofs::NameTests::name_is, crate::proofs::NameTests::name_test))]
pub(crate) fn is_name(text: &[u8]) -> bool
    ensures test { result ≡ is_name text.now }
    ensures fact { IsTrue result ↔ IsName text.now }
{
    match text.split_first() {
        Some((first, rest)) => starts_name(*first)
            && are_words(rest)
            && rest.len() <= MAX_NAME_REST,
        None => false,
    }
}
