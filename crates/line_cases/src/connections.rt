// SPDX-License-Identifier: Apache-2.0
// Peers, who connect one after another, and what each is answered.
use crate::failing::{FailingWorld, ample_world};
use crate::lines::Lines;
use mtranscript::{bytes_of, print_case, print_result, print_results};
use mwire::{AcceptFault, Peers, serve_each};
use std::alloc::Global;
use std::collections::VecDeque;

/// Serves peers who send these bytes, each case a peer, in one world by the settings of the document, and prints below each what it was
/// answered; then what was reported of faults of connections, and what comes if one more connection is asked for.
///
/// # Errors
///
/// If the document gives no settings, if not all peers are served, or if memory runs out.
pub fn play_connections(alloc: Global, block: &Lines, out: &mut Vec<u8>) -> anyhow::Result<()> {
    let mut peers = peers_of(alloc, block.cases)?;
    let mut world = ample_world(alloc, block.document)?;
    connected(alloc, &mut world, &mut peers, block.cases, out)
}

// Peers who send these bytes.
fn peers_of(alloc: Global, cases: &[&str]) -> anyhow::Result<Peers> {
    let mut sent = VecDeque::new(alloc);
    for case in cases {
        sent.push_back(bytes_of(alloc, case)?)?;
    }
    Ok(Peers::new(alloc, sent)?)
}

// Serves peers in a world. Both are lent, so that they are dropped in one place.
fn connected(
    alloc: Global,
    world: &mut FailingWorld,
    peers: &mut Peers,
    cases: &[&str],
    out: &mut Vec<u8>,
) -> anyhow::Result<()> {
    let count = u32::try_from(cases.len())?;
    let mut errors = Vec::new(alloc);
    served(alloc, world, peers, count, &mut errors)?;
    for (case, answer) in cases.iter().zip(peers.answers()) {
        print_case(out, case)?;
        print_results(alloc, out, answer)?;
    }
    print_results(alloc, out, &errors)?;
    match served(alloc, world, peers, 1, &mut errors) {
        Ok(()) => print_result(out, b"one more"),
        Err(fault) => print_result(out, format!(in alloc; "then {fault}")?.as_bytes()),
    }
}

// Serves `count` of them.
fn served(
    alloc: Global,
    world: &mut FailingWorld,
    peers: &mut Peers,
    count: u32,
    errors: &mut Vec<u8>,
) -> Result<(), AcceptFault> {
    serve_each(alloc, world, peers, count, errors)
}
