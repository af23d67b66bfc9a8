// SPDX-License-Identifier: Apache-2.0
// Numbers and text, written to lent memory.
#![tactic(auto)]

mod digits;
mod put;

pub use digits::{digit_count, put_number};
pub use put::put_text;
