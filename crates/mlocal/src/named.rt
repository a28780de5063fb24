// SPDX-License-Identifier: Apache-2.0
// The names that NEW or a formal list gave a scope, with their variables. The first entry of a name counts, so no two need to differ,
// and a variable without a text counts as none.
ghost use Rattle.std.specs.Prelude.{◌≡◌, ◌++◌, OnOk, OnErr, not, List};
ghost use Rattle.std.specs.List.{position_or_len};
ghost use Rattle.std.specs.Map.{keys_of};
ghost use Rattle.mspec.specs.Node.{Text};
ghost use Rattle.mspec.specs.Scopes.{is_among, stays, formals, bind, valued};
ghost use Rattle.mspec.specs.Trees.{text_eq};
ghost use Rattle.mlocal.specs.Bindings.{binding_of, bindings_of};
ghost use Rattle.mlocal.specs.Named.{AreFresh, bound_scope, spared};

use crate::binding::Binding;
use crate::level::{Level, stays};
use crate::scope::is_among;
use crate::variable::Variable;
use mnum::Name;
use mvalue::Value;
use std::alloc::{AllocError, Global};

// The index of a name's first entry, or how many entries there are if it has none.
#[inline(always)]
pub(crate) fn index_of(named: &[(Name, Variable)], name: &Name) -> usize
    ensures { result ≡ position_or_len (text_eq name.now) (keys_of named.now) }
{
    for index in 0..named.len() {
        if name == &named[index].0 {
            return index;
        }
    }
    named.len()
}

// Takes away the texts of the variables to which none of these names leads through the levels above, but some name.
pub(crate) fn keep_spared(named: &mut Vec<(Name, Variable)>, names: &[Name], above: &[Level])
    ensures { named.new.items ≡ spared (stays names.now above.now) named.old.items }
{
    for index in 0..named.len() {
        if !stays(names, above, &named[index].0) {
            named[index].1.clear();
        }
    }
}

// Takes away the texts of the variables of all names but these.
pub(crate) fn keep_names(named: &mut Vec<(Name, Variable)>, names: &[Name])
    ensures { named.new.items ≡ spared (is_among names.now) named.old.items }
{
    for index in 0..named.len() {
        if !is_among(&named[index].0, names) {
            named[index].1.clear();
        }
    }
}

// Takes away the texts of the variables of these names.
fn drop_names(named: &mut Vec<(Name, Variable)>, names: &[Name])
    ensures { named.new.items ≡ spared (λ n. not (is_among names.now n)) named.old.items }
{
    for index in 0..named.len() {
        if is_among(&named[index].0, names) {
            named[index].1.clear();
        }
    }
}

// Adds entries without a text, and takes away the texts of the variables of these names. If memory runs out, the entries are as they
// were.
pub(crate) fn add_names(
    named: &mut Vec<(Name, Variable)>,
    mut fresh: Vec<(Name, Variable)>,
    names: &[Name],
) -> Result<(), AllocError>
    requires { AreFresh fresh.items }
    ensures ok { OnOk result (named.new.items ≡ spared (λ n. not (is_among names.now n)) (named.old.items ++ fresh.items)) }
    ensures err { OnErr result (named.new.items ≡ named.old.items) }
{
    let count = named.len();
    if count == 0 {
        *named = fresh;
        return Ok(());
    }
    named.append(&mut fresh)?;
    drop_names(named, names);
    Ok(())
}

// Adds the names and the links of formal parameters, the last one first. If memory runs out, there may be some of them.
pub(crate) fn bind_all(
    alloc: Global,
    named: &mut Vec<(Name, Variable)>,
    links: &mut Vec<(Name, Name)>,
    mut bindings: Vec<(Name, Binding)>,
) -> Result<(), AllocError>
    ensures { OnOk result (bound_scope named.new.items links.new.items ≡ formals (bindings_of bindings.items) (bound_scope named.old.items
        links.old.items)) }
{
    while let Some((name, binding)) = bindings.pop() {
        let count = bindings.len() + 1;
        add_formal(alloc, named, links, (name, binding), count)?;
    }
    Ok(())
}

// Adds the name or the link of a formal parameter; this many are left.
fn add_formal(
    alloc: Global,
    named: &mut Vec<(Name, Variable)>,
    links: &mut Vec<(Name, Name)>,
    formal: (Name, Binding),
    count: usize,
) -> Result<(), AllocError>
    ensures { OnOk result (bound_scope named.new.items links.new.items ≡ bind formal.0 (binding_of formal.1) (bound_scope named.old.items
        links.old.items)) }
{
    let (name, binding) = formal;
    match binding {
        Binding::Valued(value) => {
            named.reserve(count)?;
            add_valued(alloc, named, name, value)
        }
        Binding::Linked(other) => {
            links.push((name, other))?;
            Ok(())
        }
        Binding::Unset => {
            named.push((name, Variable::new(alloc)))?;
            Ok(())
        }
    }
}

// Adds the name of a formal parameter with a value.
fn add_valued(
    alloc: Global,
    named: &mut Vec<(Name, Variable)>,
    name: Name,
    value: Value,
) -> Result<(), AllocError>
    ensures { (links : List (Text × Text)) → OnOk result (bound_scope named.new.items links ≡ bind name (valued value) (bound_scope
        named.old.items links)) }
{
    let index = index_of(named.as_slice(), &name);
    if index < named.len() {
        named[index].1.set_own(value);
        named.push((name, Variable::new(alloc)))?;
        return Ok(());
    }
    let mut variable = Variable::new(alloc);
    variable.set_own(value);
    named.push((name, variable))?;
    Ok(())
}
