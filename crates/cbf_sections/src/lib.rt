// SPDX-License-Identifier: Apache-2.0
// The calls that count a file's sections, or ask for the fields, the octets or the pixels of one. What they answer is
// in specs/.
#![tactic(auto)]

mod frame;
mod section_calls;

pub use frame::unpack;
pub use section_calls::{octets, octets_answer, octets_at, read, section};
