// SPDX-License-Identifier: Apache-2.0
// Pattern match.
ghost use Rattle.std.specs.List.{list_any};
ghost use Rattle.std.specs.Prelude.{◌≡◌, ◌||◌, ℕ, ◌+◌, ◌<◌, ◌≤◌, true, false, None, IfSome, IfOk, Decides, length, get_or};
ghost use Rattle.mspec.specs.Pattern.{IsAtMost, is_in, is_in_any, copies, members};
ghost use Rattle.mtext.specs.PatternPlaces.{code_of, codes_of, count_of, repeated_of, IsNear, IsBefore, AreCopiesBefore, no_copies, AreEnds, AreFirst};

use mnum::Bytes7;
use std::alloc::{AllocError, Global};

/// A class of ASCII characters, by its letter in a pattern.
#[derive(Clone, Copy, PartialEq, Eq, Drop)]
pub enum PatternCode {
    /// The letters.
    A,
    /// The controls: 0 to 31 and 127.
    C,
    /// Every character of ASCII.
    E,
    /// The lower case letters.
    L,
    /// The digits.
    N,
    /// The 33 others, including the space.
    P,
    /// The upper case letters.
    U,
}

/// How often an atom repeats: at least `least` times, and at most `most` times if there is a greatest count.
#[derive(Clone, Copy, PartialEq, Eq, Drop)]
pub struct Count {
    pub least: usize,
    pub most: Option<usize>,
}

/// What an atom repeats.
#[derive(Drop)]
pub enum Repeated {
    /// Characters, each of any of the classes.
    Members(Vec<PatternCode>),
    /// Copies of a string.
    Copies(Bytes7),
}

/// An atom of a pattern.
#[derive(Drop)]
pub struct Atom {
    pub count: Count,
    pub repeated: Repeated,
}

// The copies of a string right before a place.
#[derive(Clone, Copy, Drop)]
struct CopiesBefore {
    // how many there are
    number: usize,
    // the fewest of them that serve, and more than there are if none do
    fewest: usize,
}

impl PatternCode {
    // Whether the byte is a character of the class.
    fn contains(self, byte: u8) -> bool
        ensures { result ≡ is_in (code_of self) byte }
    {
        match self {
            PatternCode::A => byte.is_ascii_alphabetic(),
            PatternCode::C => byte.is_ascii_control(),
            PatternCode::E => byte < 128,
            PatternCode::L => byte.is_ascii_lowercase(),
            PatternCode::N => byte.is_ascii_digit(),
            PatternCode::P => byte == b' ' || byte.is_ascii_punctuation(),
            PatternCode::U => byte.is_ascii_uppercase(),
        }
    }
}

impl Count {
    // Whether the number is not above the greatest count.
    pub(crate) fn is_at_most(self, number: usize) -> bool
        ensures { Decides result (IsAtMost self.most number) }
    {
        match self.most {
            None => true,
            Some(most) => number <= most,
        }
    }
}

impl CopiesBefore {
    // Whether any serve, and the fewest are not above the greatest count.
    fn serve(self, count: Count) -> bool
        ensures { Decides result ((self.fewest ≤ self.number) × IsAtMost count.most self.fewest) }
    {
        self.fewest <= self.number && count.is_at_most(self.fewest)
    }
}

// Whether the byte is a character of one of the classes.
fn is_of_any(codes: &[PatternCode], byte: u8) -> bool
    ensures { result ≡ is_in_any (codes_of codes.now) byte }
{
    codes.iter().any(|code| code.contains(byte))
}

// Whether the latest start is not before `first`, and no more characters before the place than are permitted.
fn is_near(latest: Option<usize>, first: usize, count: Count, place: usize) -> bool
    requires { IfSome latest (λ start. start ≤ place) }
    ensures { Decides result (IsNear count.most latest first place) }
{
    match latest {
        None => false,
        Some(start) => start >= first && count.is_at_most(place - start),
    }
}

// The places to which an atom of classes leads: marks for the places 0 to the text's length, from those where it may start.
fn ends_of_members(
    alloc: Global,
    text: &[u8],
    codes: &[PatternCode],
    count: Count,
    starts: &[bool],
) -> Result<Vec<bool>, AllocError>
    requires { length starts.now ≡ length text.now + 1 }
    ensures { IfOk result (λ ends. AreEnds text.now (count_of count) (members (codes_of codes.now)) starts.now ends.items) }
{
    let mut ends = Vec::with_capacity(alloc, starts.len())?;
    // every character from `first` up to the place is of a class; `latest` is the last start that is far enough back
    let mut first = 0;
    let mut latest = None;
    for place in 0..starts.len() {
        if place >= count.least && starts[place - count.least] {
            latest = Some(place - count.least);
        }
        ends.push(is_near(latest, first, count, place))?;
        if place < text.len() && !is_of_any(codes, text[place]) {
            first = place + 1;
        }
    }
    Ok(ends)
}

// Whether the string is right before the place.
fn stands_before(text: &[u8], string: &[u8], place: usize) -> bool
    requires { place ≤ length text.now }
    ensures { Decides result (IsBefore text.now string.now place) }
{
    place >= string.len() && &text[place - string.len()..place] == string
}

// How many copies of a string stand right before a place, and the fewest of those that serve: at least `least`, from one of the
// starts. If none serve, that is more than there are. Both are found from those at the places before.
fn copies_before(
    text: &[u8],
    string: &[u8],
    least: usize,
    starts: &[bool],
    known: &[CopiesBefore],
) -> CopiesBefore
    requires some { 0 < length string.now }
    requires size { length starts.now ≡ length text.now + 1 }
    requires within { length known.now ≤ length text.now }
    requires before { (k : ℕ) → k < length known.now → AreCopiesBefore text.now string.now least starts.now k (get_or known.now k no_copies) }
    ensures { AreCopiesBefore text.now string.now least starts.now (length known.now) result }
{
    let place = known.len();
    let found = if stands_before(text, string, place) {
        let last = known[place - string.len()];
        CopiesBefore {
            number: last.number + 1,
            fewest: last.fewest + 1,
        }
    } else {
        CopiesBefore {
            number: 0,
            fewest: 1,
        }
    };
    if least <= found.number && starts[place - least * string.len()] {
        return CopiesBefore {
            number: found.number,
            fewest: least,
        };
    }
    found
}

// The places to which an atom of copies of a string leads, each found from the fewest copies that serve.
fn ends_of_copies(
    alloc: Global,
    text: &[u8],
    string: &[u8],
    count: Count,
    starts: &[bool],
) -> Result<Vec<bool>, AllocError>
    requires some { 0 < length string.now }
    requires size { length starts.now ≡ length text.now + 1 }
    ensures { IfOk result (λ ends. AreEnds text.now (count_of count) (copies string.now) starts.now ends.items) }
{
    let mut ends = Vec::with_capacity(alloc, starts.len())?;
    let mut known = Vec::with_capacity(alloc, starts.len())?;
    for _place in 0..starts.len() {
        let found = copies_before(text, string, count.least, starts, known.as_slice());
        ends.push(found.serve(count))?;
        known.push(found)?;
    }
    Ok(ends)
}

// The places to which an atom of copies of the empty string leads.
fn ends_of_nothing(alloc: Global, count: Count, starts: &[bool]) -> Result<Vec<bool>, AllocError>
    ensures size { IfOk result (λ ends. length ends.items ≡ length starts.now) }
    ensures each { IfOk result (λ ends. (k : ℕ) → k < length starts.now → Decides (get_or ends.items k false) ((get_or starts.now k false ≡ true)
        × IsAtMost count.most count.least)) }
{
    if count.is_at_most(count.least) {
        Vec::from_slice(alloc, starts)
    } else {
        vec![in alloc; false; starts.len()]
    }
}

/// The places to which an atom leads: marks for the places 0 to the text's length, from those where it may start. Its segment
/// is a permitted number of characters of its classes or of copies of its string. A byte over 127 is in no class. If the
/// greatest count is below the least, it leads nowhere.
///
/// Time is at most the text's length times the atom's. Memory is a few words for each place of the text.
///
/// # Errors
///
/// `AllocError` if it runs out of memory.
pub fn ends_of(
    alloc: Global,
    text: &[u8],
    atom: &Atom,
    starts: &[bool],
) -> Result<Vec<bool>, AllocError>
    requires { length starts.now ≡ length text.now + 1 }
    ensures { IfOk result (λ ends. AreEnds text.now (count_of atom.now.count) (repeated_of atom.now.repeated) starts.now ends.items) }
{
    // from nowhere it leads nowhere, which takes no look at the text
    if starts.iter().all(|mark| !*mark) {
        return Vec::from_slice(alloc, starts);
    }
    match &atom.repeated {
        Repeated::Members(codes) => ends_of_members(
            alloc,
            text,
            codes.as_slice(),
            atom.count,
            starts,
        ),
        Repeated::Copies(string) => if string.as_bytes().is_empty() {
            ends_of_nothing(alloc, atom.count, starts)
        } else {
            ends_of_copies(alloc, text, string.as_bytes(), atom.count, starts)
        },
    }
}

/// The marks of a text before any atom: the place 0 alone.
///
/// # Errors
///
/// `AllocError` if it runs out of memory.
pub fn first_marks(alloc: Global, text: &[u8]) -> Result<Vec<bool>, AllocError>
    ensures { IfOk result (λ marks. AreFirst text.now marks.items) }
{
    let mut marks = Vec::with_capacity(alloc, text.len() + 1)?;
    for place in 0..text.len() + 1 {
        marks.push(place == 0)?;
    }
    Ok(marks)
}

/// Whether any place is marked.
pub fn has_mark(marks: &[bool]) -> bool
    ensures { result ≡ list_any (λ mark. mark) marks.now }
{
    marks.iter().any(|mark| *mark)
}

/// The marks of either of two.
///
/// # Errors
///
/// `AllocError` if it runs out of memory.
pub fn either_marks(alloc: Global, one: &[bool], other: &[bool]) -> Result<Vec<bool>, AllocError>
    requires { length one.now ≡ length other.now }
    ensures size { IfOk result (λ marks. length marks.items ≡ length one.now) }
    ensures each { IfOk result (λ marks. (k : ℕ) → k < length one.now → get_or marks.items k false ≡ (get_or one.now k false || get_or other.now k false)) }
{
    let mut marks = Vec::with_capacity(alloc, one.len())?;
    for place in 0..one.len() {
        marks.push(one[place] || other[place])?;
    }
    Ok(marks)
}
