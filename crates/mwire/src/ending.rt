// SPDX-License-Identifier: Apache-2.0
// How the end of a line is shown.
ghost use Rattle.std.specs.Prelude.{◌≡◌, ◌++◌, OnOk};
ghost use Rattle.mspec.specs.Code.{fault_text};
ghost use Rattle.moperator.specs.Codes.{fault_of};
ghost use Rattle.mexec.specs.Runs.{ending_of};
ghost use Rattle.mwire.specs.Wire.{ending_text};

use mworld::{Code, Ended};
use std::alloc::AllocError;

/// Appends what shows how a line ended.
pub fn push_ending(out: &mut Vec<u8>, ending: Ended) -> Result<(), AllocError>
    ensures { OnOk result (out.new.items ≡ out.old.items ++ ending_text (ending_of ending)) }
{
    match ending {
        Ended::Done | Ended::Halt => out.push(b'.')?,
        Ended::Fault(code) => {
            out.push(b'!')?;
            out.extend_from_slice(code_name(code))?;
        }
    }
    Ok(())
}

// A code as a reply shows it; none shows that of HALT.
fn code_name(code: Code) -> &'static [u8]
    ensures { result.now ≡ fault_text (fault_of code) }
{
    match code {
        Code::M1 => b"M1",
        Code::M2 => b"M2",
        Code::M4 => b"M4",
        Code::M6 => b"M6",
        Code::M7 => b"M7",
        Code::M9 => b"M9",
        Code::M10 => b"M10",
        Code::M11 => b"M11",
        Code::M13 => b"M13",
        Code::M15 => b"M15",
        Code::M16 => b"M16",
        Code::M17 => b"M17",
        Code::M19 => b"M19",
        Code::M20 => b"M20",
        Code::M28 => b"M28",
        Code::M58 => b"M58",
        Code::M90 => b"M90",
        Code::M94 => b"M94",
        Code::Zlong => b"ZLONG",
        Code::Zsyntax => b"ZSYNTAX",
        Code::Zover => b"ZOVER",
        Code::Zarg => b"ZARG",
        Code::Zsub => b"ZSUB",
        Code::Zgrant => b"ZGRANT",
        Code::Zlocked => b"ZLOCKED",
        Code::Zsteps => b"ZSTEPS",
        Code::Zdepth => b"ZDEPTH",
        Code::Zlevel => b"ZLEVEL",
        Code::Zchar => b"ZCHAR",
        Code::Zline => b"ZLINE",
        Code::Zterm => b"ZTERM",
        Code::Zmem => b"ZMEM",
        Code::Zstore => b"ZSTORE",
        Code::Halting => b"",
    }
}
