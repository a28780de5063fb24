// SPDX-License-Identifier: Apache-2.0
// The code with which the fault of another call ends a line.
ghost use Rattle.std.specs.Prelude.{◌≡◌};
ghost use Rattle.moperator.specs.declared.code.Code.TheVariants.{Zmem, Zover};
ghost use Rattle.moperator.specs.Faults.{division_code, fault_code};

use crate::code::Code;
use mnum::{ArithFault, Over};
use mtext::TextFault;
use std::alloc::{AllocError, AllocFailed};

impl From<AllocError> for Code {
    ghost from_gives = { λ _ code. code ≡ Zmem };

    fn from(_error: AllocError) -> Code {
        Code::Zmem
    }
}

impl From<Over> for Code {
    ghost from_gives = { λ _ code. code ≡ Zover };

    fn from(_over: Over) -> Code {
        Code::Zover
    }
}

impl From<ArithFault> for Code {
    ghost from_gives = { λ fault code. code ≡ division_code fault };

    fn from(fault: ArithFault) -> Code {
        match fault {
            ArithFault::Zero => Code::M9,
            ArithFault::Over => Code::from(Over),
        }
    }
}

impl From<TextFault> for Code {
    ghost from_gives = { λ fault code. code ≡ fault_code fault };

    fn from(fault: TextFault) -> Code {
        match fault {
            TextFault::Memory => Code::from(AllocError),
            TextFault::Arg => Code::Zarg,
            TextFault::Format => Code::M2,
            TextFault::TooLong => Code::Zlong,
        }
    }
}

impl<T: Drop> From<AllocFailed<T>> for Code {
    ghost from_gives = { λ _ code. code ≡ Zmem };

    fn from(_error: AllocFailed<T>) -> Code {
        Code::Zmem
    }
}
