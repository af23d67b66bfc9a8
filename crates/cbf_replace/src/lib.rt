// SPDX-License-Identifier: Apache-2.0
// Replacing the frame of a section: a copy of the file with the section's span in house form. What is answered is in
// specs/.
#![tactic(auto)]

mod new_file;
mod replace_frame;

pub use replace_frame::replace;
