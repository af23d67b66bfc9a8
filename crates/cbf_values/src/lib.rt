// SPDX-License-Identifier: Apache-2.0
// The values of the known headers, each read where it lies.
#![tactic(auto)]

mod content_type;
pub mod header;
pub mod known_value;
pub mod value;
