// SPDX-License-Identifier: Apache-2.0
// Octets from BASE64 text that was read: letters as numbers, and four of these as three octets.
#![tactic(auto)]

mod letters;
pub mod octets;
