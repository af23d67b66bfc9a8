// SPDX-License-Identifier: Apache-2.0
// Octets from a section's text, and pixels from them. The octets come through a window of fixed size, which is filled
// again and again, so that no memory is asked of the caller.
#![tactic(auto)]

mod byte_offset_text;
mod text_window;
mod uncompressed_text;
mod unpack_text;

pub use unpack_text::unpack;
