// SPDX-License-Identifier: Apache-2.0
// The order of bytes, eight at a time.
ghost use Rattle.std.specs.Prelude.{◌≡◌, ◌≤◌, ◌++◌, length, drop};
ghost use Rattle.std.specs.Cmp.Lexicographic.{slice_cmp};
ghost use Rattle.std.specs.Ordering.{nat_cmp};
ghost use Rattle.mspec.specs.KeyBytes.{big_endian};

use std::cmp::Ordering;

pub const WORD_BYTES: usize = 8;

// The number that the first eight bytes are, high byte first.
pub fn first_word(bytes: &[u8]) -> u64
    requires { 8 ≤ length bytes.now }
    ensures { bytes.now ≡ big_endian 8 result ++ drop 8 bytes.now }
{
    u64::from_be_bytes([
        bytes[0], bytes[1], bytes[2], bytes[3], bytes[4], bytes[5], bytes[6], bytes[7],
    ])
}

/// The order of two runs of bytes. It is the order of slices, which looks at one byte at a time. Takes no memory.
pub fn compare(left: &[u8], right: &[u8]) -> Ordering
    ensures { result ≡ slice_cmp nat_cmp left.now right.now }
{
    let mut rest = left;
    let mut other = right;
    while rest.len() >= WORD_BYTES && other.len() >= WORD_BYTES {
        let order = first_word(rest).cmp(&first_word(other));
        if order.is_ne() {
            return order;
        }
        rest = &rest[WORD_BYTES..];
        other = &other[WORD_BYTES..];
    }
    rest.cmp(other)
}
