// SPDX-License-Identifier: Apache-2.0
// Reading a file: the octets of a section, and the sections one after another. What is read is defined in cbf_format;
// each function here has an equation with the definition at its place of the file.
#![tactic(auto)]

mod data;
mod step;
mod walk;
mod whole_file;

pub use step::Cursor;
pub use walk::{NextSection, begin, next_section};
pub use whole_file::{SectionFound, count_sections, numbered_section, section_place};
