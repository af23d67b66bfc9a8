// SPDX-License-Identifier: Apache-2.0
// The headers of a section: their lines, and what they say together.
#![tactic(auto)]

mod describe;
mod found;
mod header_parts;
mod headers;
mod judge;
pub mod section_headers;
