// SPDX-License-Identifier: Apache-2.0
// A section in house form, measured and written.
#![tactic(auto)]

mod head;
mod span;

pub use span::{put_span, span_length};
