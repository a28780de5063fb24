// SPDX-License-Identifier: Apache-2.0
// Lists with commas between, appended to the text of a line.
ghost use Rattle.std.specs.Prelude.{◌≡◌, ◌++◌, ◌∷◌, [], List, ℕ, OnOk};
ghost use Rattle.mgrammar.specs.Grammar.{spell_list};

use mnum::Bytes7;
use std::alloc::AllocError;

// What a list with commas between is made of.
pub trait Listed {
    ghost spelling: { Self → List ℕ };

    // Appends the text.
    fn put(&self, out: &mut Bytes7) -> Result<(), AllocError>
        ensures { OnOk result (out.new ≡ out.old ++ spelling self.now) };
}

// The texts of all, with commas between. They come as the `Vec` that a tree holds, so that the writer of an expression may call
// this with what is in it.
pub fn put_list<T: Listed>(out: &mut Bytes7, all: &Vec<T>) -> Result<(), AllocError>
    ensures { OnOk result (out.new ≡ out.old ++ spell_list T.spelling all.now.items) }
{
    let Some((first, rest)) = all.split_first() else {
        return Ok(());
    };
    first.put(out)?;
    for other in rest {
        out.push(b',')?;
        other.put(out)?;
    }
    Ok(())
}

// The same in brackets.
pub fn put_bracketed<T: Listed>(out: &mut Bytes7, all: &Vec<T>) -> Result<(), AllocError>
    ensures { OnOk result (out.new ≡ out.old ++ 40 ∷ (spell_list T.spelling all.now.items ++ 41 ∷ [])) }
{
    out.push(b'(')?;
    put_list(out, all)?;
    out.push(b')')
}
