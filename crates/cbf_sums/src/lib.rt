// SPDX-License-Identifier: Apache-2.0
// Many differences summed up at once, in the first pass of unpacking.
#![tactic(auto)]

pub mod far;
pub mod mixed;
pub mod near;

// Where the first pass stands: the last pixel, biased, and where the next difference starts.
#[derive(Clone, Copy, Debug, PartialEq, Eq)]
pub struct State {
    pub biased: u64,
    pub next: usize,
}
