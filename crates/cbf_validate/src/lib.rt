// SPDX-License-Identifier: Apache-2.0
// The first pass of unpacking: whether octets unpack.
#![tactic(auto)]

mod turn;
pub mod validate;
