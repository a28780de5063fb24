// SPDX-License-Identifier: Apache-2.0
// The formal parameters of a level that DO opens.
ghost use Rattle.std.specs.Prelude.{◌≡◌, length, map, option_map, IfOk};
ghost use Rattle.mgrammar.specs.RoutineLine.{formals_of};
ghost use Rattle.mmeaning.specs.Parameters as meaning;
ghost use Rattle.mmeaning.specs.Programs.{listed};
ghost use Rattle.mmeaning.specs.Yields.{Yields};
ghost use Rattle.moperator.specs.Codes.{fault_of};
ghost use Rattle.mtree.specs.Tree.{formals_tree};
ghost use Rattle.mlocal.specs.Bindings.{binding_of, bindings_of};

use mlocal::Binding;
use mnum::Name;
use moperator::Code;
use mscan::{formals_of, has_formal_list};
use std::alloc::{AllocError, Global};

// Copies of names, each with what its actual hands over; those past the last actual have no value.
fn paired(
    alloc: Global,
    names: &[Name],
    bindings: Vec<Binding>,
) -> Result<Vec<(Name, Binding)>, AllocError>
    ensures { IfOk result (λ formals. bindings_of formals.items ≡ meaning.paired names.now (map binding_of bindings.items)) }
{
    let mut formals = Vec::with_capacity(alloc, names.len())?;
    let mut rest = bindings.into_iter();
    for name in names {
        let binding = rest.next().unwrap_or(Binding::Unset);
        formals.push((name.copy()?, binding))?;
    }
    Ok(formals)
}

/// The same as `formals_for`, for a formal list that a tree lends.
///
/// # Errors
///
/// As `formals_for`.
pub fn formals_lent(
    alloc: Global,
    is_listed: bool,
    formals: &Option<Vec<Name>>,
    bindings: Vec<Binding>,
) -> Result<Option<Vec<(Name, Binding)>>, Code>
    ensures { Yields fault_of (meaning.formals_for (listed is_listed) (formals_tree formals.now) (map binding_of bindings.items))
        (option_map (λ formals. bindings_of formals.items)) result }
{
    match formals {
        None => if is_listed { Err(Code::M20) } else { Ok(None) },
        Some(names) => if bindings.len() > names.len() {
            Err(Code::M58)
        } else {
            let formals = paired(alloc, names, bindings)?;
            Ok(Some(formals))
        },
    }
}

// The same as `formals_for`, for a line that may have a formal list. Kept out of line, so that a line without one is entered at once.
#[inline(never)]
fn formals_listed(
    alloc: Global,
    language: u32,
    is_listed: bool,
    line: &[u8],
    bindings: Vec<Binding>,
) -> Result<Option<Vec<(Name, Binding)>>, Code>
    ensures { Yields fault_of (meaning.formals_for (listed is_listed) (formals_of language line.now) (map binding_of bindings.items))
        (option_map (λ formals. bindings_of formals.items)) result }
{
    let names = formals_of(alloc, language, line)?;
    formals_lent(alloc, is_listed, &names, bindings)
}

/// The formal parameters of a line in a language, each with what its actual hands over; none if the line has no formal list.
///
/// # Errors
///
/// `M20` if a list of actuals is written, but the line has no formal list; `M58` if there are more actuals than formal parameters; `Zmem` if memory runs out.
#[inline(always)]
pub fn formals_for(
    alloc: Global,
    language: u32,
    is_listed: bool,
    line: &[u8],
    bindings: Vec<Binding>,
) -> Result<Option<Vec<(Name, Binding)>>, Code>
    ensures { Yields fault_of (meaning.formals_for (listed is_listed) (formals_of language line.now) (map binding_of bindings.items))
        (option_map (λ formals. bindings_of formals.items)) result }
{
    if has_formal_list(language, line) {
        formals_listed(alloc, language, is_listed, line, bindings)
    } else if is_listed {
        Err(Code::M20)
    } else {
        Ok(None)
    }
}
