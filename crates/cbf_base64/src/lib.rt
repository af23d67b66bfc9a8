// SPDX-License-Identifier: Apache-2.0
// BASE64 text: its symbols and lines.
#![tactic(auto)]

pub mod base64;
pub mod base64_text;
