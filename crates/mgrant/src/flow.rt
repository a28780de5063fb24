// SPDX-License-Identifier: Apache-2.0
// Where chains of steps lead.
ghost use Rattle.std.specs.Prelude.{◌≡◌, ◌<◌, ◌↔◌, ◌++◌, ◌∷◌, [], ℕ, Bool, All, IfOk, OnOk, IsTrue, true, false, length, slice_index_or, slice_set, vec_len};
ghost use Rattle.std.specs.Prelude.{nat_lt, nat_le, List, if◌then◌else◌};
ghost use Rattle.std.specs.List.Sorted.{IsNonDecreasingBy};
ghost use Rattle.mgrant.specs.Edges.{Leads, IsRun, IsStage, IsMore};
ghost use Rattle.mgrant.specs.declared.flow.Edge.{Edge};

use std::alloc::{AllocError, Global};

// A step from one place to another.
#[derive(Clone, Copy)]
pub(crate) struct Edge {
    pub source: usize,
    pub target: usize,
}

impl Edge {
    // The step the other way.
    pub(crate) fn turned(self) -> Edge
        ensures { result ≡ record { source = self.target; target = self.source } }
    {
        Edge {
            source: self.target,
            target: self.source,
        }
    }
}

// Marks a place, and lists it if it was not marked before.
fn mark(marks: &mut Vec<bool>, order: &mut Vec<usize>, place: usize) -> Result<(), AllocError>
    requires { place < vec_len marks.old }
    ensures marked { OnOk result (marks.new.items ≡ slice_set marks.old.items place true) }
    ensures listed { OnOk result (order.new.items ≡ (if slice_index_or marks.old.items place false then order.old.items else order.old.items ++ place ∷ [])) }
    ensures len { vec_len marks.new ≡ vec_len marks.old }
{
    if !marks[place] {
        order.push(place)?;
        marks[place] = true;
    }
    Ok(())
}

// The steps from a place, among steps sorted by where they begin.
fn steps_from(edges: &[Edge], place: usize) -> &[Edge]
    requires { IsNonDecreasingBy (λ e. e.source) edges.now }
    ensures { IsRun edges.now place result.now }
{
    let first = edges.partition_point(
        |edge: &Edge| -> bool
            ensures { result ≡ nat_lt edge.now.source place }
        { edge.source < place },
    );
    let rest = &edges[first..];
    let count = rest.partition_point(
        |edge: &Edge| -> bool
            ensures { result ≡ nat_le edge.now.source place }
        { edge.source <= place },
    );
    &rest[..count]
}

// Marks the places that steps lead to.
fn mark_targets(
    steps: &[Edge],
    marks: &mut Vec<bool>,
    order: &mut Vec<usize>,
) -> Result<(), AllocError>
    requires { All (λ e. e.target < vec_len marks.old) steps.now }
    ensures stage { OnOk result ((edges : List Edge) (start : ℕ) → IsStage edges start marks.old.items order.old.items → All
        (λ e. Leads edges start e.target) steps.now → IsStage edges start marks.new.items order.new.items) }
    ensures more { OnOk result (IsMore marks.old.items order.old.items marks.new.items order.new.items) }
    ensures marked { OnOk result (All (λ e. slice_index_or marks.new.items e.target false ≡ true) steps.now) }
    ensures len { vec_len marks.new ≡ vec_len marks.old }
{
    for step in steps {
        mark(marks, order, step.target)?;
    }
    Ok(())
}

// Marks all places that chains of steps lead to from the marked ones.
fn spread(edges: &[Edge], marks: &mut Vec<bool>, order: &mut Vec<usize>) -> Result<(), AllocError>
    requires sorted { IsNonDecreasingBy (λ e. e.source) edges.now }
    requires in_range { All (λ e. e.target < vec_len marks.old) edges.now }
    ensures reached { OnOk result ((start : ℕ) → IsStage edges.now start marks.old.items order.old.items → (y : ℕ) → (slice_index_or marks.new.items y false
        ≡ true) ↔ Leads edges.now start y) }
    ensures len { vec_len marks.new ≡ vec_len marks.old }
{
    for turn in 0..marks.len() {
        if turn >= order.len() {
            break;
        }
        let place = order[turn];
        mark_targets(steps_from(edges, place), marks, order)?;
    }
    Ok(())
}

// Which of `count` places chains of steps lead to from one of them.
pub(crate) fn reached(
    alloc: Global,
    edges: Vec<Edge>,
    count: usize,
    from: usize,
) -> Result<Vec<bool>, AllocError>
    requires in_range { All (λ e. e.target < count) edges.items }
    requires from { from < count }
    ensures reached { IfOk result (λ marks. (y : ℕ) → (slice_index_or marks.items y false ≡ true) ↔ Leads edges.items from y) }
    ensures len { IfOk result (λ marks. vec_len marks ≡ count) }
{
    let mut edges = edges;
    edges.sort_unstable_by_key(
        |edge: &Edge| -> usize
            ensures { result ≡ edge.now.source }
        { edge.source },
    );
    let mut marks = vec![in alloc; false; count]?;
    let mut order = Vec::new(alloc);
    mark(&mut marks, &mut order, from)?;
    spread(&edges, &mut marks, &mut order)?;
    Ok(marks)
}

// Whether a chain of steps between `count` places leads from one place to another.
#[tactic(auto, using(std::proofs::lemmas::List::get_or_default))]
pub(crate) fn leads(
    alloc: Global,
    edges: Vec<Edge>,
    count: usize,
    from: usize,
    to: usize,
) -> Result<bool, AllocError>
    requires in_range { All (λ e. e.target < count) edges.items }
    requires from { from < count }
    requires to { to < count }
    ensures { IfOk result (λ b. IsTrue b ↔ Leads edges.items from to) }
{
    let marks = reached(alloc, edges, count, from)?;
    Ok(marks[to])
}
