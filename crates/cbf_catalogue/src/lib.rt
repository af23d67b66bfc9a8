// SPDX-License-Identifier: Apache-2.0
// The catalogue of a file. What is catalogued is defined in cbf_format.
#![tactic(auto)]

mod entries;
mod entry;
mod little;
mod write_catalogue;

pub use write_catalogue::catalogue;
