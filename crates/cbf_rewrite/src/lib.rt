// SPDX-License-Identifier: Apache-2.0
// A file with chosen sections rewritten: what lies between their spans is copied, and they are in house form with new
// frames. What it is is in specs/.
#![tactic(auto)]

mod parts;
mod rewrite;

pub use rewrite::{Chosen, rewrite_file};
