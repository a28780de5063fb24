// SPDX-License-Identifier: Apache-2.0
// The islands of settings, one per line.
ghost use Rattle.std.specs.Prelude.{◌≡◌, ◌⊎◌, ◌++◌, ◌∷◌, [], true, List, IfOk, IfErr, OnOk};
ghost use Rattle.std.specs.List.{flat_map, list_any};
ghost use Rattle.mspec.specs.Node.{Text};
ghost use Rattle.mspec.specs.Trees.{text_eq};
ghost use Rattle.mgrant.specs.Reading.{IsRead, IsRefused};
ghost use Rattle.mgrant.specs.Words.{texts_of};
ghost use Rattle.mgrant.specs.declared.fault.SettingsFault.TheVariants.{Memory};
ghost use Rattle.mislands.specs.Listing.{names_of, names_at, named, is_among, AreIslands, line_of, lines_of, IsListing};

use crate::names::names_of;
use mgrant::{AccountId, Settings, SettingsFault};
use std::alloc::{AllocError, Global};

// Appends the names of some accounts, a space before each.
fn push_names(
    settings: &Settings,
    accounts: &[AccountId],
    text: &mut Vec<u8>,
) -> Result<(), AllocError>
    ensures { OnOk result (text.new.items ≡ text.old.items ++ flat_map (λ b. 32 ∷ b) (names_at settings.now accounts.now)) }
{
    for account in accounts {
        text.push(b' ')?;
        text.extend_from_slice(settings.name_of(*account))?;
    }
    Ok(())
}

// Appends the line of an island.
fn push_line(
    settings: &Settings,
    island: &[AccountId],
    text: &mut Vec<u8>,
) -> Result<(), AllocError>
    ensures { OnOk result (text.new.items ≡ text.old.items ++ line_of (names_at settings.now island.now)) }
{
    let Some(first) = island.first() else {
        return Ok(());
    };
    text.extend_from_slice(settings.name_of(*first))?;
    push_names(settings, &island[1..], text)?;
    text.push(b'\n')?;
    Ok(())
}

// The lines of islands.
fn lines(
    alloc: Global,
    settings: &Settings,
    islands: &[Vec<AccountId>],
) -> Result<Vec<u8>, AllocError>
    ensures { IfOk result (λ text. text.items ≡ lines_of (named settings.now islands.now)) }
{
    let mut text = Vec::new(alloc);
    for island in islands {
        push_line(settings, island, &mut text)?;
    }
    Ok(text)
}

// Whether an island has the account of a name.
#[tactic(auto, using(crate::proofs::Lines::any_here, crate::proofs::Lines::none_more))]
fn has_account(settings: &Settings, island: &[AccountId], name: &[u8]) -> bool
    ensures { result ≡ list_any (text_eq name.now) (names_at settings.now island.now) }
{
    for account in island {
        if name == settings.name_of(*account) {
            return true;
        }
    }
    false
}

// Whether one of the islands has the account of a name.
#[tactic(auto, using(crate::proofs::Lines::any_here))]
fn is_among(settings: &Settings, islands: &[Vec<AccountId>], name: &[u8]) -> bool
    ensures { result ≡ is_among name.now (named settings.now islands.now) }
{
    for island in islands {
        if has_account(settings, island, name) {
            return true;
        }
    }
    false
}

// Adds the island of the account of a name, unless one of the islands has it.
#[tactic(auto, using(crate::proofs::Lines::known_name))]
fn add_island(
    alloc: Global,
    settings: &Settings,
    name: &[u8],
    islands: &mut Vec<Vec<AccountId>>,
) -> Result<(), AllocError>
    requires { list_any (text_eq name.now) (names_of settings.now) ≡ true }
    ensures { OnOk result ((before : List Text) → AreIslands settings.now before (named settings.now islands.old.items) → AreIslands settings.now
        (before ++ name.now ∷ []) (named settings.now islands.new.items)) }
{
    if is_among(settings, islands, name) {
        return Ok(());
    }
    let Some(account) = settings.account_named(name) else {
        return Ok(());
    };
    islands.push(settings.island_of(alloc, account)?)?;
    Ok(())
}

// The islands of settings, by the names of all their accounts.
fn islands(
    alloc: Global,
    settings: &Settings,
    names: &[Vec<u8>],
) -> Result<Vec<Vec<AccountId>>, AllocError>
    requires { texts_of names.now ≡ names_of settings.now }
    ensures { IfOk result (λ islands. AreIslands settings.now (names_of settings.now) (named settings.now islands.items)) }
{
    let mut islands = Vec::new(alloc);
    for name in names {
        add_island(alloc, settings, name, &mut islands)?;
    }
    Ok(islands)
}

// The lines of the islands of the settings that a document gives.
pub(crate) fn listing(alloc: Global, document: &[u8]) -> Result<Vec<u8>, SettingsFault>
    ensures ok { IfOk result (λ text. IsListing document.now text.items) }
    ensures err { IfErr result (λ e. (e ≡ Memory) ⊎ IsRefused document.now e) }
{
    let settings = Settings::read(alloc, document)?;
    let names = names_of(alloc, document)?;
    let islands = islands(alloc, &settings, &names)?;
    Ok(lines(alloc, &settings, &islands)?)
}
