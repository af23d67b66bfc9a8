// SPDX-License-Identifier: Apache-2.0
// The second pass of packing, and the call that packs pixels by the byte-offset rule.
#![tactic(auto)]

mod dense;
mod packing;
mod write;

pub use packing::pack;
pub use write::write_octets;
