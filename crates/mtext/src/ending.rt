// SPDX-License-Identifier: Apache-2.0
// Pattern match in one pass: the short way for `pattern`, for atoms whose segments can end at one place only.
ghost use Rattle.std.specs.Prelude.{◌≡◌, ◌≢◌, ℕ, ◌<◌, ◌≤◌, List, ◌++◌, true, length, take, drop, Decides, MatchOption, Some};
ghost use Rattle.std.specs.List.{prefix_len};
ghost use Rattle.mspec.specs.Pattern as plain;
ghost use Rattle.mspec.specs.Names.{AllAre};
ghost use Rattle.mspec.specs.Pattern.{IsPermitted, IsRepetition, copied};
ghost use Rattle.mtext.specs.ClassSets.{is_in_set};
ghost use Rattle.mtext.specs.Endings.{Repeats, IsLent, IsFirstOf, IsEnding, IsOtherwise, NoneBegins, members_atom, copies_atom};
ghost use Rattle.mtext.specs.PatternPlaces.{count_of};

use crate::classes::Classes;
use crate::pattern::Count;

/// What an atom repeats, lent from where it stands.
#[derive(Clone, Copy, PartialEq, Eq, Drop)]
pub enum LentRepeated<'a> {
    /// Characters, each of any of the classes.
    Members(Classes),
    /// Copies of a string.
    Copies(&'a [u8]),
    /// Whichever texts.
    Any,
}

/// An atom of a pattern, lent from where it stands: it needs no memory.
#[derive(Clone, Copy, PartialEq, Eq, Drop)]
pub struct LentAtom<'a> {
    pub count: Count,
    pub repeated: LentRepeated<'a>,
}

/// Where the segment of the first atom of a pattern ends, whichever way the others match.
#[derive(Clone, Copy, PartialEq, Eq, Drop)]
pub enum Ending {
    /// After this many characters.
    Behind(usize),
    /// Nowhere: the text does not match.
    Nowhere,
    /// At any of several places, or nowhere.
    Open,
}

// The number of repetitions, if there is only one.
fn only_number(count: Count) -> Option<usize>
    ensures { MatchOption result (Unit {0}) (λ n. (count.least ≡ n) × (count.most ≡ Some n)) }
{
    match count.most {
        Some(most) if most == count.least => Some(most),
        _ => None,
    }
}

// Whether `number` repetitions are permitted.
fn permits(count: Count, number: usize) -> bool
    ensures { Decides result (IsPermitted (count_of count) number) }
{
    number >= count.least && count.is_at_most(number)
}

// How many characters at the front of a text are of the classes.
fn run(text: &[u8], set: Classes) -> usize
    ensures { result ≡ prefix_len (is_in_set set) text.now }
{
    for (place, byte) in text.iter().enumerate() {
        if !set.contains(*byte) {
            return place;
        }
    }
    text.len()
}

// Whether there are `number` characters of the classes at the front of a text.
fn has_members(text: &[u8], set: Classes, number: usize) -> bool
    ensures { Decides result ((number ≤ length text.now) × AllAre (is_in_set set) (take number text.now)) }
{
    number <= text.len() && run(&text[..number], set) == number
}

// The place after `number` copies of a string at the front of a text.
fn behind_copies(text: &[u8], string: &[u8], number: usize) -> Option<usize>
    requires { 0 < length string.now }
    ensures { MatchOption result ((rest : List ℕ) → text.now ≢ copied number string.now ++ rest) (λ at. (at ≤ length text.now) × (text.now
        ≡ copied number string.now ++ drop at text.now)) }
{
    let mut at = 0;
    for _copy in 0..number {
        if !text[at..].starts_with(string) {
            return None;
        }
        at += string.len();
    }
    Some(at)
}

// Whether what an atom matches is sure not to begin with a character of the classes.
fn is_apart(repeated: LentRepeated, set: Classes) -> bool
    ensures { result ≡ true → (count : plain.Count) (what : plain.Repeated) → Repeats repeated.entry what → 0 < count.least
        → (text : List ℕ) → IsRepetition count what text → IsOtherwise (is_in_set set) text }
{
    match repeated {
        LentRepeated::Members(other) => !set.meets(other),
        LentRepeated::Copies(string) => match string.first() {
            None => false,
            Some(character) => !set.contains(*character),
        },
        LentRepeated::Any => false,
    }
}

// Whether what the next atom matches, or the end of the text, is sure not to begin so.
fn is_barred(next: Option<LentAtom>, set: Classes) -> bool
    ensures { result ≡ true → (atoms : List plain.Atom) → IsFirstOf next.entry atoms → NoneBegins (is_in_set set) atoms }
{
    match next {
        None => true,
        Some(next) => next.count.least > 0 && is_apart(next.repeated, set),
    }
}

// For members: as many as the count says, or the longest run of them, if what follows begins with none.
fn ending_of_members(text: &[u8], set: Classes, count: Count, next: Option<LentAtom>) -> Ending
    ensures { (codes : List plain.PatternCode) (others : List plain.Atom) → Repeats (LentRepeated.Members set) (plain.members codes)
        → IsFirstOf next.entry others
        → IsEnding text.now (members_atom (count_of count) codes) others result }
{
    if let Some(number) = only_number(count) {
        return if has_members(text, set, number) {
            Ending::Behind(number)
        } else {
            Ending::Nowhere
        };
    }
    if !is_barred(next, set) {
        return Ending::Open;
    }
    let length = run(text, set);
    if permits(count, length) {
        Ending::Behind(length)
    } else {
        Ending::Nowhere
    }
}

// For copies of a string: as many as the count says.
fn ending_of_copies(text: &[u8], string: &[u8], count: Count) -> Ending
    ensures { (others : List plain.Atom) → IsEnding text.now (copies_atom (count_of count) string.now) others result }
{
    let Some(number) = only_number(count) else {
        return Ending::Open;
    };
    if string.is_empty() {
        return Ending::Behind(0);
    }
    match behind_copies(text, string, number) {
        None => Ending::Nowhere,
        Some(at) => Ending::Behind(at),
    }
}

/// Where the segment of an atom at the front of a text ends, if the atom and the next one say so. They do if the atom's count is
/// a single number, or if the atom is of classes and what follows begins with none of their characters, so that it takes the
/// longest run of them. Of whichever texts nothing is said. Takes no memory.
pub fn segment_end(text: &[u8], atom: LentAtom, next: Option<LentAtom>) -> Ending
    ensures { (first : plain.Atom) (others : List plain.Atom) → IsLent atom.entry first → IsFirstOf next.entry others → IsEnding text.now first others result }
{
    match atom.repeated {
        LentRepeated::Members(set) => ending_of_members(text, set, atom.count, next),
        LentRepeated::Copies(string) => ending_of_copies(text, string, atom.count),
        LentRepeated::Any => Ending::Open,
    }
}
