// SPDX-License-Identifier: Apache-2.0
// Why a text could not be made.
ghost use Rattle.std.specs.Prelude.{◌≡◌, ◌<◌, ◌≤◌, MatchResult};
ghost use Rattle.mspec.specs.TextFunctions.{max_text};
ghost use Rattle.mtext.specs.declared.fault.TextFault.TheVariants.{Memory};

use mspec::limits::MAX_TEXT;
use std::alloc::AllocError;

/// Why a text was not made.
#[derive(Clone, Copy, PartialEq, Eq)]
pub enum TextFault {
    /// An argument is out of its range.
    Arg,
    /// The letters of a format leave no place for a sign.
    Format,
    /// The text would have more than 4,095 characters.
    TooLong,
    /// There was no memory for the text.
    Memory,
}

/// Lets `length` characters be a text.
///
/// # Errors
///
/// `TooLong` exactly if there are more than 4,095.
pub fn check_length(length: usize) -> Result<(), TextFault>
    ensures { MatchResult result (λ _. length ≤ max_text) (λ fault. (fault ≡ TextFault.TooLong) × (max_text < length)) }
{
    if length > MAX_TEXT {
        return Err(TextFault::TooLong);
    }
    Ok(())
}

impl From<AllocError> for TextFault {
    ghost from_gives = { λ _ fault. fault ≡ Memory };

    fn from(_error: AllocError) -> TextFault {
        TextFault::Memory
    }
}
