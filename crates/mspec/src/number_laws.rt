// SPDX-License-Identifier: Apache-2.0
// The laws of numbers and of their texts. Each function's contract is the law, and its body is empty: the code never
// calls them.
ghost use Rattle.mspec.specs.NumberLaws.{RoundingIsNearest, EachHasDigits, NearestIsUnique, ZeroRoundsToZero, RoundedIsNumber, NumberRoundsToItself};
ghost use Rattle.mspec.specs.NumberLaws.{ReadsLongestLiteral, TextHasValue, CanonicalIsText, TextHasCanonicalForm, PlainLiteralIsUnique, CanonicalByMoreDigits};

/// A fraction with d digits before its point is rounded to the nearest multiple of 10^(d - kept), or of 10^-18 if that is
/// larger; of two nearest ones, to the one larger in size. There is no number exactly when the fraction or the multiple reaches 10^18.
#[tactic(auto, using(crate::proofs::DistanceLaws::rounding_is_nearest))]
pub fn rounding_is_nearest()
    ensures { RoundingIsNearest }
{}

/// Each fraction but 0 has such a d.
#[tactic(auto, using(crate::proofs::DistanceLaws::each_has_digits))]
pub fn each_has_digits()
    ensures { EachHasDigits }
{}

/// There is one such multiple.
#[tactic(auto, using(crate::proofs::DistanceLaws::nearest_is_unique))]
pub fn nearest_is_unique()
    ensures { NearestIsUnique }
{}

/// 0 is rounded to 0.
#[tactic(auto, using(crate::proofs::NearestLaws::zero_rounds_to_zero))]
pub fn zero_rounds_to_zero()
    ensures { ZeroRoundsToZero }
{}

/// What is rounded to `kept` digits is a number of at most `kept` digits.
pub fn rounded_is_number()
    ensures { RoundedIsNumber }
{}

/// A number is rounded to itself.
#[tactic(auto, using(crate::proofs::NearestLaws::number_rounds_to_itself))]
pub fn number_rounds_to_itself()
    ensures { NumberRoundsToItself }
{}

/// A text without signs is read as the longest literal of the grammar that it begins with, or as 0 if it begins with
/// none.
#[tactic(auto, using(crate::proofs::LongestLiteral::reads_longest_literal))]
pub fn reads_longest_literal()
    ensures { ReadsLongestLiteral }
{}

/// The numeric value of the text of a number is that number.
#[tactic(auto, using(crate::proofs::TextLaws::text_has_value))]
pub fn text_has_value()
    ensures { TextHasValue }
{}

/// A canonical text is the text of its value, so each number has one.
#[tactic(auto, using(crate::proofs::TextLaws::canonical_is_text))]
pub fn canonical_is_text()
    ensures { CanonicalIsText }
{}

/// The text of a number has the canonical form: no zero in front, none at the end of a fraction, no exponent and no `+`.
pub fn text_has_canonical_form()
    ensures { TextHasCanonicalForm }
{}

/// No two literals of that form have the same value, so the text of a number is the only one of that form with its value.
#[tactic(auto, using(crate::proofs::CanonicalForm::plain_literal_is_unique))]
pub fn plain_literal_is_unique()
    ensures { PlainLiteralIsUnique }
{}

/// A text that is canonical with fewer digits is also canonical with more, and has the same value: keys of stores written
/// with fifteen digits name the same nodes with eighteen.
pub fn canonical_by_more_digits()
    ensures { CanonicalByMoreDigits }
{}
