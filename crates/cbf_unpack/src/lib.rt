// SPDX-License-Identifier: Apache-2.0
// The second pass of unpacking, uncompressed pixels, and the call that unpacks all pixels of octets.
#![tactic(auto)]

mod fill;
mod uncompressed;
mod unpacking;

pub use fill::fill_part;
pub use unpacking::unpack;
