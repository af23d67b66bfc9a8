// SPDX-License-Identifier: Apache-2.0
// Lines and what stands in them, at places of the file.
#![tactic(auto)]

pub mod closing;
pub mod line;
pub mod text;
