// SPDX-License-Identifier: Apache-2.0
// The law of keys read back. The contract is the law, and the body is empty: the code never calls it.
ghost use Rattle.mspec.specs.KeyReading.{KeysAreRead};

/// The node that the bytes of a node's key stand for is the node.
#[tactic(auto, using(mspec::proofs::KeyReadings::keys_are_read))]
pub fn keys_are_read()
    ensures { KeysAreRead }
{}
