// SPDX-License-Identifier: Apache-2.0
// How values begin. A search is led by it, and nothing that is proved rests on it.
use sqlite_value::value::ValueRef;

/// The first 32 bytes of a value, as two numbers. Values mostly order as these do.
#[derive(Clone, Copy)]
pub(crate) struct Lead {
    pub high: u128,
    pub low: u128,
}

// An integer as a number whose bytes order as it does.
fn risen(number: i64) -> u64 {
    (number ^ i64::MIN).cast_unsigned()
}

// The first 16 bytes as a number, with zeros after the last.
fn sixteen(bytes: &[u8]) -> u128 {
    if let Some(whole) = bytes.first_chunk::<16>() {
        return u128::from_be_bytes(*whole);
    }
    let mut room = [0u8; 16];
    room[..bytes.len()].copy_from_slice(bytes);
    u128::from_be_bytes(room)
}

// The same of four bytes from a place on.
fn four(bytes: &[u8], from: usize) -> u32 {
    let rest = &bytes[from.min(bytes.len())..];
    if let Some(whole) = rest.first_chunk::<4>() {
        return u32::from_be_bytes(*whole);
    }
    let mut room = [0u8; 4];
    room[..rest.len()].copy_from_slice(rest);
    u32::from_be_bytes(room)
}

fn common_bytes(a: &[u8], b: &[u8]) -> usize {
    let most = a.len().min(b.len());
    for at in 0..most {
        if a[at] != b[at] {
            return at;
        }
    }
    most
}

fn common_of_numbers(a: i64, b: i64) -> usize {
    let differing = risen(a) ^ risen(b);
    (differing.leading_zeros() / 8) as usize
}

fn begin_alike(a: &[u8], b: &[u8], count: usize) -> bool {
    match (a.get(..count), b.get(..count)) {
        (Some(front), Some(other)) => front == other,
        _ => false,
    }
}

// How many bytes two values both begin with.
pub(crate) fn common(a: ValueRef<'_>, b: ValueRef<'_>) -> usize {
    match (a, b) {
        (ValueRef::Int(m), ValueRef::Int(n)) => common_of_numbers(m, n),
        (ValueRef::Text(s), ValueRef::Text(t)) => common_bytes(s, t),
        (ValueRef::Blob(s), ValueRef::Blob(t)) => common_bytes(s, t),
        _ => 0,
    }
}

// Whether two values begin alike, up to a count of bytes.
pub(crate) fn share(a: ValueRef<'_>, b: ValueRef<'_>, count: usize) -> bool {
    match (a, b) {
        (ValueRef::Int(m), ValueRef::Int(n)) => count <= common_of_numbers(m, n),
        (ValueRef::Text(s), ValueRef::Text(t)) => begin_alike(s, t, count),
        (ValueRef::Blob(s), ValueRef::Blob(t)) => begin_alike(s, t, count),
        _ => count == 0,
    }
}

// Four bytes of a value from a place on.
pub(crate) fn mark(value: ValueRef<'_>, from: usize) -> u32 {
    match value {
        ValueRef::Int(n) if from < 8 => (risen(n) << (8 * from as u32) >> 32) as u32,
        ValueRef::Text(bytes) | ValueRef::Blob(bytes) => four(bytes, from),
        _ => 0,
    }
}

impl Lead {
    pub(crate) fn of(value: ValueRef<'_>) -> Lead {
        match value {
            ValueRef::Int(n) => Lead {
                high: u128::from(risen(n)) << 64,
                low: 0,
            },
            ValueRef::Text(bytes) | ValueRef::Blob(bytes) => Lead::of_bytes(bytes),
            _ => Lead { high: 0, low: 0 },
        }
    }

    fn of_bytes(bytes: &[u8]) -> Lead {
        let low = match bytes.get(16..) {
            Some(rest) => sixteen(rest),
            None => 0,
        };
        Lead {
            high: sixteen(bytes),
            low,
        }
    }

    pub(crate) fn is_below(self, other: Lead) -> bool {
        self.high < other.high || self.high == other.high && self.low < other.low
    }
}
