// SPDX-License-Identifier: Apache-2.0
//! The limits of mserve, by name, for all of its code. `limits_are_defined` says that they are those of the definitions.
ghost use Rattle.std.specs.Prelude.{◌≡◌, suc};
ghost use Rattle.mspec.specs.Limits as limits;

/// The most characters of a text of the language.
pub const MAX_TEXT: usize = 4095;

/// The most characters of a name of a variable, a label or a routine.
pub const MAX_NAME: usize = 31;

/// The most characters of a name after its first one.
pub const MAX_NAME_REST: usize = 30;

/// The last place of a `$PIECE` that SET assigns to.
pub const MAX_PLACE: usize = 500;

/// The most characters of a subscript.
pub const MAX_SUBSCRIPT: usize = 255;

/// The most subscripts of a node.
pub const MAX_SUBSCRIPTS: usize = 15;

/// The most characters of an account's name.
pub const MAX_ACCOUNT_NAME: usize = 16;

/// The most characters of a terminal's line.
pub const MAX_LINE: usize = 255;

/// The most bytes of a line of the wire: a terminal, a space and a line.
pub const MAX_WIRE_LINE: usize = 260;

/// How many brackets may be open at a place of a text, counting the bars and the operands of `@` that it lies in.
pub const MAX_DEPTH: u32 = 40;

/// The most levels that a line opens, including indirections under evaluation.
pub const MAX_LEVELS: u32 = 256;

/// The most indirections under evaluation.
pub const MAX_INDIRECTIONS: u32 = 32;

/// The most times that a terminal holds one name by LOCK.
pub const MAX_COUNT: u32 = 1_000_000;

/// How far `$X` and `$Y` count.
pub const MAX_POSITION: u32 = 4_294_967_295;

/// The largest number of a terminal.
pub const MAX_TERMINAL: u32 = 9999;

/// The most steps that settings give a line.
pub const MAX_STEPS: u32 = 1_000_000;

/// The most accounts of settings, and the most grants.
pub const MAX_ENTRIES: usize = 9999;

/// Each is the limit of the definitions that has its name.
pub fn limits_are_defined()
    ensures texts { (MAX_TEXT ≡ limits.max_text) × (MAX_PLACE ≡ limits.max_place) }
    ensures names { (MAX_NAME ≡ limits.max_name) × (MAX_NAME_REST ≡ limits.max_name_rest) × (MAX_NAME ≡ suc MAX_NAME_REST) }
    ensures subscripts { (MAX_SUBSCRIPT ≡ limits.max_subscript) × (MAX_SUBSCRIPTS ≡ limits.max_subscripts) }
    ensures accounts { MAX_ACCOUNT_NAME ≡ limits.max_account_name }
    ensures lines { (MAX_LINE ≡ limits.max_line) × (MAX_WIRE_LINE ≡ limits.max_wire_line) }
    ensures depth { (MAX_DEPTH ≡ limits.max_depth) × (MAX_LEVELS ≡ limits.max_levels) × (MAX_INDIRECTIONS ≡ limits.max_indirections) }
    ensures counts { (MAX_COUNT ≡ limits.max_count) × (MAX_POSITION ≡ limits.max_position) }
    ensures settings { (MAX_TERMINAL ≡ limits.max_terminal) × (MAX_STEPS ≡ limits.max_steps) × (MAX_ENTRIES ≡ limits.max_entries) }
{}
