// SPDX-License-Identifier: Apache-2.0
// The checks before a line's text is parsed.
ghost use Rattle.std.specs.Prelude.{◌≡◌};
ghost use Rattle.mmeaning.specs.Transition.{is_ascii};
ghost use Rattle.mworld.specs.Admits.{Admits};

use mgrant::{AccountId, Settings};
use moperator::Code;
use mspec::limits::MAX_LINE;

// Whether a text has only characters. It looks at all bytes, so that the compiler compares many together.
fn has_characters_only(text: &[u8]) -> bool
    ensures { result ≡ is_ascii text.now }
{
    let mut are_characters = true;
    for byte in text {
        are_characters &= *byte < 128;
    }
    are_characters
}

// The account of a line that passes the checks before its text is parsed, or the code of the first that it fails.
pub(crate) fn admitted(settings: &Settings, terminal: u32, text: &[u8]) -> Result<AccountId, Code>
    ensures { Admits settings.now (record { terminal = terminal; text = text.now }) result }
{
    let Some(account) = settings.account_of(terminal) else {
        return Err(Code::Zterm);
    };
    if text.len() > MAX_LINE {
        return Err(Code::Zline);
    }
    if !has_characters_only(text) {
        return Err(Code::Zchar);
    }
    Ok(account)
}
