// SPDX-License-Identifier: Apache-2.0
// The laws of steps. Each function's contract is the law, and its body is empty: the code never calls them.
ghost use Rattle.mprogram.specs.StepLaws.{ProgramsHaveSteps, ConditionsHaveSteps, CallsHavePrograms, ConditionsHavePrograms, ParametersHavePrograms};

/// The program of an argument, if it has one, has the steps and the ending that are found here.
pub fn programs_have_steps()
    ensures { ProgramsHaveSteps }
{}

/// The program of a command's condition, if it has one, has the steps and the ending that are found here.
pub fn conditions_have_steps()
    ensures { ConditionsHaveSteps }
{}

/// An argument with a call has the program of these steps, if each call in it stands where steps are.
pub fn calls_have_programs()
    ensures { CallsHavePrograms }
{}

/// A command's condition has the program of these steps, if each call in it stands where steps are.
pub fn conditions_have_programs()
    ensures { ConditionsHavePrograms }
{}

/// So has a parameter of FOR.
pub fn parameters_have_programs()
    ensures { ParametersHavePrograms }
{}
