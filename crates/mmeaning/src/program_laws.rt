// SPDX-License-Identifier: Apache-2.0
// The laws of programs. Each function's contract is the law, and its body is empty: the code never calls them.
ghost use Rattle.mmeaning.specs.ProgramLaws.{ArgumentsPause, ConditionsGoOn, ConditionsPause, ProgramsAreThere, ProgramsCarryArguments};
ghost use Rattle.mmeaning.specs.ProgramLaws.{ParametersPause, ProgramsCarryConditions, ProgramsCarryParameters};
ghost use Rattle.mmeaning.specs.ProgramLaws.{ProgramsPause, ProgramsTakeValues, StepsEvaluate, StepsFind};

/// The steps of an expression evaluate it, whatever comes after them, and whatever else is on the stack.
pub fn steps_evaluate()
    ensures { StepsEvaluate }
{}

/// The steps of a reference evaluate it in the same way.
pub fn steps_find()
    ensures { StepsFind }
{}

/// An argument with a call has a program, if each call in it stands where steps are.
pub fn programs_are_there()
    ensures { ProgramsAreThere }
{}

/// An argument of a command does what its program does, if it has one.
pub fn programs_carry_arguments()
    ensures { ProgramsCarryArguments }
{}

/// A command's condition is what its program leads to, before whatever the command does.
pub fn programs_carry_conditions()
    ensures { ProgramsCarryConditions }
{}

/// A parameter of FOR leads to what its program leads to.
pub fn programs_carry_parameters()
    ensures { ProgramsCarryParameters }
{}

/// A program does what it does up to the first level that it opens, and then what that level leads to.
pub fn programs_pause()
    ensures { ProgramsPause }
{}

/// What is left of a program goes on with the value that a function's level is left with.
pub fn programs_take_values()
    ensures { ProgramsTakeValues }
{}

/// A command with a condition is the condition's program on top of the command.
pub fn conditions_go_on()
    ensures { ConditionsGoOn }
{}

/// What an argument with a program leads to is done on top of the arguments after it.
pub fn arguments_pause()
    ensures { ArgumentsPause }
{}

/// What a condition with a program leads to is done on top of its command.
pub fn conditions_pause()
    ensures { ConditionsPause }
{}

/// What a parameter of FOR with a program leads to comes after the functions in it.
pub fn parameters_pause()
    ensures { ParametersPause }
{}
