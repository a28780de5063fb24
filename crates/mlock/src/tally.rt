// SPDX-License-Identifier: Apache-2.0
// How many names are held, and whether by one terminal alone.
ghost use Rattle.std.specs.Prelude.{◌≡◌, ◌+◌, ◌*◌, ◌≤◌, ℕ, nat_eq};

/// For some names that are held: how many there are, the sum of their terminals, and the sum of the squares of these. All are of
/// one terminal exactly if both sums are as if they were.
#[derive(Clone, Copy)]
pub(crate) struct Tally {
    pub names: u64,
    pub terminals: u128,
    pub squares: u128,
}

impl Tally {
    ghost use Rattle.mlock.specs.Tallies.{no_names, with_one, is_only, is_none, HasRoom};

    /// The tally of no name.
    pub fn none() -> Tally
        ensures { result ≡ no_names }
    {
        Tally {
            names: 0,
            terminals: 0,
            squares: 0,
        }
    }

    /// Whether it is the tally of no name.
    pub fn is_none(self) -> bool
        ensures { result ≡ is_none self }
    {
        self.names == 0 && self.terminals == 0 && self.squares == 0
    }

    /// With one more name, which the terminal holds.
    pub fn with_one(self, terminal: u32) -> Tally
        requires { HasRoom self }
        ensures { result ≡ with_one terminal self }
    {
        Tally {
            names: self.names + 1,
            terminals: self.terminals + u128::from(terminal),
            squares: self.squares + square(terminal),
        }
    }

    /// Without one name, which the terminal holds.
    pub fn without_one(self, terminal: u32) -> Tally
        requires { (rest : Tally) × (with_one terminal rest ≡ self) }
        ensures { with_one terminal result ≡ self }
    {
        Tally {
            names: self.names - 1,
            terminals: self.terminals - u128::from(terminal),
            squares: self.squares - square(terminal),
        }
    }

    /// Whether all the names are the terminal's.
    pub fn is_only(self, terminal: u32) -> bool
        ensures { result ≡ is_only terminal self }
    {
        let number = u128::from(terminal);
        is_product(u128::from(self.names), number, self.terminals)
            && is_product(self.terminals, number, self.squares)
    }
}

fn square(terminal: u32) -> u128
    ensures square { result ≡ terminal * terminal }
    ensures small { result ≤ 18446744073709551615 }
{
    let number = u128::from(terminal);
    number * number
}

// Whether the product of the first two is the third.
fn is_product(left: u128, right: u128, product: u128) -> bool
    ensures { result ≡ nat_eq (left * right) product }
{
    match left.checked_mul(right) {
        Some(number) => number == product,
        None => false,
    }
}
