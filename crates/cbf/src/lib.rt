// SPDX-License-Identifier: Apache-2.0
// The calls on a file: its sections with their octets and pixels, its listing and its catalogue, a frame replaced;
// and packing. No call has a `requires`; the types that their contracts name are handed on with them.
#![tactic(auto)]

pub use cbf_answers::{LINE_LIMIT, Reason, Refusal};
pub use cbf_catalogue::catalogue;
pub use cbf_format::{Description, Encoding, OctetsPlace, Range, Section};
pub use cbf_listing::{list, listing_or_refusal, refusal_line};
pub use cbf_pack::pack;
pub use cbf_pixels::{Compression, ElementType, UnknownNumber};
pub use cbf_replace::replace;
pub use cbf_sections::{octets, octets_answer, octets_at, read, section, unpack};
