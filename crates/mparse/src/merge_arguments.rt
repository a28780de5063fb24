// SPDX-License-Identifier: Apache-2.0
// The arguments of MERGE: two variables; or an `@` with its operand and nothing more.
ghost use Rattle.mgrammar.specs.Reading.{merge_argument_at};
ghost use Rattle.mtree.specs.Tree.{arg_tree};
ghost use Rattle.mscan.specs.Gives.{Gives};

use crate::expr::reference;
use mscan::{ParseFault, past};
use mspec::limits::MAX_DEPTH;
use mtree::{Arg, Keyword};
use std::alloc::Global;

/// The target and the source; or an operand, after which no `=` comes.
#[tactic(auto, unfolding(mgrammar::specs::Reading::merge_argument_at))]
pub fn merge_argument(alloc: Global, bytes: &[u8]) -> Result<(Arg, &[u8]), ParseFault>
    ensures { Gives (λ x. (arg_tree x.0, x.1.now)) result (merge_argument_at bytes.now) }
{
    let (target, rest) = reference(alloc, bytes, MAX_DEPTH)?;
    let Some(behind) = past(b'=', rest) else {
        return match target.into_operand() {
            Ok(operand) => Ok((Arg::Indirect(Keyword::Merge, operand), rest)),
            Err(_) => Err(ParseFault::Syntax),
        };
    };
    let (source, rest) = reference(alloc, behind, MAX_DEPTH)?;
    Ok((Arg::MergeOne(target, source), rest))
}
