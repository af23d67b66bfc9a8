// SPDX-License-Identifier: Apache-2.0
// Octets as numbers: little-endian numbers, one difference of the byte-offset rule, and runs of octets that are no
// escapes.
#![tactic(auto)]

pub mod difference;
pub mod octets;
pub mod plain;

// Where unpacking stands: the last pixel, and where the next difference starts.
#[derive(Clone, Copy, Debug, PartialEq, Eq)]
pub struct Last {
    pub pixel: i64,
    pub next: usize,
}

// A part of the pixels: how many they are, and where unpacking stands after them.
#[derive(Clone, Copy, Debug, PartialEq, Eq)]
pub struct Part {
    pub count: usize,
    pub last: Last,
}
