// SPDX-License-Identifier: Apache-2.0
// The laws of calls. Each function's contract is the law, and its body is empty: the code never calls them.
ghost use Rattle.mmeaning.specs.CallLaws.{CallsAloneDiffer, FunctionKeepsTest};

/// An expression without a call means the same whatever functions give. So what is proved of expressions without functions serves those
/// that call none, in a line that has them.
pub fn calls_alone_differ()
    ensures { CallsAloneDiffer }
{}

/// A function that gives a value leaves $TEST as it was before its actuals, whatever it does.
pub fn function_keeps_test()
    ensures { FunctionKeepsTest }
{}
