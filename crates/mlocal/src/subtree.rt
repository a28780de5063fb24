// SPDX-License-Identifier: Apache-2.0
// The keys of a node and of the nodes below it, which KILL takes out.
ghost use Rattle.std.specs.Prelude.{◌≡◌, cond, map, None, IfOk};
ghost use Rattle.std.specs.BTreeMap.{get, keys};
ghost use Rattle.std.specs.BTreeMap.Range.{IsLtBy};
ghost use Rattle.std.specs.List.{All, filter};
ghost use Rattle.mlocal.specs.Own.{AreSomeSubs};
ghost use Rattle.mlocal.specs.Way.{is_from, is_one_of};
ghost use Rattle.mspec.specs.NodeOrder.{subscripts_cmp};
ghost use Rattle.mspec.specs.Number.{significant_digits};

use mkey::SubsKey;
use mvalue::Value;
use std::alloc::{AllocError, Global};
use std::collections::BTreeMap;
use std::ops::Bound;

// Copies of the keys from `low` on that are before `high`.
pub(crate) fn keys_from(
    alloc: Global,
    values: &BTreeMap<SubsKey, Value>,
    low: &SubsKey,
    high: &SubsKey,
) -> Result<Vec<SubsKey>, AllocError>
    requires { IsLtBy (subscripts_cmp significant_digits) low.now high.now }
    ensures { IfOk result (λ found. found.items ≡ map (λ e. e.0) (filter (λ e. is_from low.now high.now e.0) values.now.entries)) }
{
    let mut found = Vec::new(alloc);
    for entry in values.range((Bound::Included(low), Bound::Excluded(high))) {
        let key = entry.0.copy()?;
        found.push(key)?;
    }
    Ok(found)
}

// Takes out what is at these keys. Takes no memory.
pub(crate) fn remove_all(values: &mut BTreeMap<SubsKey, Value>, found: &[SubsKey])
    ensures taken { (q : _) → get (subscripts_cmp significant_digits) values.new q ≡ cond (is_one_of found.now q) None (get
        (subscripts_cmp significant_digits) values.old q) }
    ensures subs { All AreSomeSubs (keys values.old) → All AreSomeSubs (keys values.new) }
{
    for key in found {
        let _ = values.remove(key);
    }
}
