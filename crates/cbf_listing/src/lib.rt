// SPDX-License-Identifier: Apache-2.0
// The listing of a file. What is listed is defined in cbf_format.
#![tactic(auto)]

mod lines;
mod listing;
mod section_line;

pub use listing::{list, listing_or_refusal, refusal_line};
