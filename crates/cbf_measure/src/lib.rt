// SPDX-License-Identifier: Apache-2.0
// The first pass of packing: whether pixels are in their type, and how many octets they take.
#![tactic(auto)]

pub mod measure;
pub mod range;
pub mod window;
