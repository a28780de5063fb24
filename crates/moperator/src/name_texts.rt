// SPDX-License-Identifier: Apache-2.0
// The texts of names, as $NAME and $QUERY give them.
ghost use Rattle.std.specs.Prelude.{◌≡◌, ◌++◌, None, Some, IfOk, OnOk};
ghost use Rattle.mgrammar.specs.NameValues.{subscript_text, more_subscripts, subscripts_text, global_text};
ghost use Rattle.mmeaning.specs.Variables as meaning;
ghost use Rattle.mmeaning.specs.Yields.{Yields};
ghost use Rattle.moperator.specs.Codes.{fault_of};

use crate::code::Code;
use mnum::{Bytes7, Name, is_canonical};
use mspec::limits::MAX_TEXT;
use mtree::{put_string, put_text};
use mvalue::Value;
use std::alloc::{AllocError, Global};

// Appends the text of a subscript: that of a number as it is, and any other as a string.
fn push_text(out: &mut Bytes7, text: &Bytes7) -> Result<(), AllocError>
    ensures { OnOk result (out.new ≡ out.old ++ subscript_text text.now) }
{
    let bytes = text.as_bytes();
    if is_canonical(bytes) {
        out.append(bytes)
    } else {
        put_string(out, text)
    }
}

// The same for a value.
fn push_subscript(alloc: Global, out: &mut Bytes7, value: &Value) -> Result<(), AllocError>
    ensures { OnOk result (out.new ≡ out.old ++ subscript_text value.now) }
{
    let shown = value.shown(alloc)?;
    push_text(out, shown.as_text())
}

// Appends subscripts with a comma before each, and the bracket after them.
fn push_more(alloc: Global, out: &mut Bytes7, values: &[Value]) -> Result<(), AllocError>
    ensures { OnOk result (out.new ≡ out.old ++ more_subscripts values.now) }
{
    for value in values {
        out.push(b',')?;
        push_subscript(alloc, out, value)?;
    }
    out.push(b')')
}

// Appends subscripts in brackets, if there are any.
fn push_subscripts(alloc: Global, out: &mut Bytes7, values: &[Value]) -> Result<(), AllocError>
    ensures { OnOk result (out.new ≡ out.old ++ subscripts_text values.now) }
{
    let Some((first, more)) = values.split_first() else {
        return Ok(());
    };
    out.push(b'(')?;
    push_subscript(alloc, out, first)?;
    push_more(alloc, out, more)
}

// The first of these values, up to this many; all if nothing is said.
fn first_of(values: &[Value], most: Option<i64>) -> Result<&[Value], Code>
    ensures { Yields fault_of (meaning.first_of values.now most) (λ kept. kept.now) result }
{
    let Some(most) = most else {
        return Ok(values);
    };
    if most < 0 {
        return Err(Code::Zarg);
    }
    Ok(&values[..values.len().min(most as usize)])
}

// Appends texts as subscripts with a comma before each, and the bracket after them.
fn push_more_texts(out: &mut Bytes7, texts: &[Bytes7]) -> Result<(), AllocError>
    ensures { OnOk result (out.new ≡ out.old ++ more_subscripts texts.now) }
{
    for text in texts {
        out.push(b',')?;
        push_text(out, text)?;
    }
    out.push(b')')
}

// Appends texts as subscripts in brackets, if there are any.
fn push_texts(out: &mut Bytes7, texts: &[Bytes7]) -> Result<(), AllocError>
    ensures { OnOk result (out.new ≡ out.old ++ subscripts_text texts.now) }
{
    let Some((first, more)) = texts.split_first() else {
        return Ok(());
    };
    out.push(b'(')?;
    push_text(out, first)?;
    push_more_texts(out, more)
}

/// What the name of a global begins with, if it is of the account that the name is for: its name alone, without an environment.
///
/// # Errors
///
/// `AllocError` if it runs out of memory.
pub fn own_front(alloc: Global, name: &Name) -> Result<Bytes7, AllocError>
    ensures { IfOk result (λ text. text ≡ global_text None name.now) }
{
    let mut text = Bytes7::from_slice(alloc, b"^")?;
    put_text(&mut text, name.as_bytes7())?;
    Ok(text)
}

/// What the name of a global of another account begins with: the account's name as an environment, and its own.
///
/// # Errors
///
/// `AllocError` if it runs out of memory.
pub fn other_front(alloc: Global, account: &Bytes7, name: &Name) -> Result<Bytes7, AllocError>
    ensures { IfOk result (λ text. text ≡ global_text (Some account.now) name.now) }
{
    let mut text = Bytes7::from_slice(alloc, b"^|")?;
    put_string(&mut text, account)?;
    text.push(b'|')?;
    put_text(&mut text, name.as_bytes7())?;
    Ok(text)
}

/// The text of a name, of what comes before its subscripts, and of the first of them, up to `most`.
///
/// # Errors
///
/// `Zarg` if `most` is below 0; `Zlong` if the text has more than 4,095 characters; `Zmem` if memory runs out.
pub fn name_text(
    alloc: Global,
    front: Bytes7,
    values: &[Value],
    most: Option<i64>,
) -> Result<Value, Code>
    ensures { Yields fault_of (meaning.name_with front values.now most) (λ value. value) result }
{
    let kept = first_of(values, most)?;
    let mut text = front;
    push_subscripts(alloc, &mut text, kept)?;
    if text.as_bytes().len() > MAX_TEXT {
        return Err(Code::Zlong);
    }
    Ok(Value::of_text(text))
}

/// The text of a name, of what comes before its subscripts, and of all these.
///
/// # Errors
///
/// `Zlong` if the text has more than 4,095 characters; `Zmem` if memory runs out.
pub fn found_name(front: Bytes7, texts: &[Bytes7]) -> Result<Value, Code>
    ensures { Yields fault_of (meaning.name_with front texts.now None) (λ value. value) result }
{
    let mut text = front;
    push_texts(&mut text, texts)?;
    if text.as_bytes().len() > MAX_TEXT {
        return Err(Code::Zlong);
    }
    Ok(Value::of_text(text))
}
