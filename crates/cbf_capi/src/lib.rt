// SPDX-License-Identifier: Apache-2.0
// The library for C, and whatever calls C: include/mooringelm.h says what a caller owes. Each function returns a struct by
// value, so that a refusal with its number and place comes back without touching what was lent.
#![tactic(auto)]

ghost use Rattle.std.specs.Prelude.{◌≡◌, ◌+◌, ◌-◌, ◌<◌, ◌≤◌, ◌^◌, List, length};
ghost use Rattle.std.proofs.Math.Seq.{slice};
ghost use Rattle.cbf_pixels.specs.Pixels.{pack_byte_offset};
ghost use Rattle.cbf_pixels.specs.Numbers.{element, compressed};
ghost use Rattle.cbf_answers.specs.Answers.{refuses, outcome, written};
ghost use Rattle.cbf_answers.specs.Limits.{line_limit};
ghost use Rattle.cbf_format.specs.Files.{read};
ghost use Rattle.cbf_format.specs.ListCalls.{list_outcome, list_output};
ghost use Rattle.cbf_format.specs.CatalogueCalls.{catalogue_outcome, catalogue_output};
ghost use Rattle.cbf_format.specs.SectionCalls.{read_outcome, section_fields, octets_of, frame_outcome, frame_output};
ghost use Rattle.cbf_format.specs.ReplaceCalls.{replace_outcome, replace_output};
ghost use Rattle.cbf_capi.specs.Boundary.{pack_call, unpack_call, unpacked_by, returned};
ghost use Rattle.cbf_capi.specs.Boundary.{returned_octets, returned_section, block_name, value_of, NarrowSection};
ghost use Rattle.cbf_capi.specs.Boundary.{section_returned, section_refused};

use cbf::{Compression, ElementType, LINE_LIMIT, Reason, Refusal, Section};

// mel_answer: what every call returns but the two that follow. `refusal` is 0 for none; then `place` and `item` are 0.
#[repr(C)]
#[derive(Clone, Copy)]
pub struct MelAnswer {
    pub refusal: u32,
    pub place: u32,
    pub item: u32,
    pub length: u32,
}

// mel_octets_answer: how many octets there are, and where in the file they start.
#[repr(C)]
#[derive(Clone, Copy)]
pub struct MelOctetsAnswer {
    pub refusal: u32,
    pub place: u32,
    pub item: u32,
    pub length: u32,
    pub start: u64,
}

// mel_section_answer: what the headers of a section say, and where it and the name of its data block lie.
#[repr(C)]
#[derive(Clone, Copy)]
pub struct MelSectionAnswer {
    pub refusal: u32,
    pub place: u32,
    pub item: u32,
    pub boundary: u32,
    pub span_end: u32,
    pub position: u32,
    pub size: u32,
    pub elements: u32,
    pub id: u32,
    pub fastest: u32,
    pub second: u32,
    pub third: u32,
    pub name_start: u32,
    pub name_length: u32,
    pub compression: u8,
    pub element_type: u8,
    pub encoding: u8,
}

// A refusal, where nothing else is returned.
fn refused(refusal: Refusal) -> MelAnswer
    requires { refusal.place < 2 ^ 32 }
    ensures { result ≡ returned (refuses refusal.number refusal.place) }
{
    MelAnswer {
        refusal: refusal.number,
        place: refusal.place as u32,
        item: 0,
        length: 0,
    }
}

fn answer_of(answer: Result<usize, Refusal>) -> MelAnswer
    requires { value_of (outcome answer) < 2 ^ 32 }
    ensures { result ≡ returned (outcome answer) }
{
    match answer {
        Ok(n) => MelAnswer {
            refusal: 0,
            place: 0,
            item: 0,
            length: n as u32,
        },
        Err(refusal) => refused(refusal),
    }
}

// Counts the sections of a file.
#[unsafe(no_mangle)]
pub extern "C" fn mel_count(file: &[u8]) -> MelAnswer
    ensures answer { result ≡ returned (read_outcome (read line_limit file.now)) }
{
    answer_of(cbf::read(file, LINE_LIMIT))
}

// Where there is no section to tell of.
fn no_section(refusal: Refusal) -> MelSectionAnswer
    requires { refusal.place < 2 ^ 32 }
    ensures { result ≡ section_refused refusal.number refusal.place }
{
    MelSectionAnswer {
        refusal: refusal.number,
        place: refusal.place as u32,
        item: 0,
        boundary: 0,
        span_end: 0,
        position: 0,
        size: 0,
        elements: 0,
        id: 0,
        fastest: 0,
        second: 0,
        third: 0,
        name_start: 0,
        name_length: 0,
        compression: 0,
        element_type: 0,
        encoding: 0,
    }
}

// The fields of a section, as they are returned.
fn section_of(section: Section) -> MelSectionAnswer
    requires { NarrowSection section }
    ensures { result ≡ section_returned section.description section.from section.to section.first
        section.block.from (section.block.to - section.block.from) }
{
    let d = section.description;
    let block = section.block;
    MelSectionAnswer {
        refusal: 0,
        place: 0,
        item: 0,
        boundary: section.from as u32,
        span_end: section.to as u32,
        position: section.first as u32,
        size: d.size as u32,
        elements: d.elements as u32,
        id: d.id as u32,
        fastest: d.fastest as u32,
        second: d.second as u32,
        third: d.third as u32,
        name_start: block.from as u32,
        name_length: (block.to - block.from) as u32,
        compression: u8::from(d.compression),
        element_type: u8::from(d.kind),
        encoding: u8::from(d.encoding),
    }
}

// Tells what the headers of a section say, and where it lies. Where in the file the name of its data block lies is left
// free; that place lies in the file, and what stands there is the name.
#[unsafe(no_mangle)]
pub extern "C" fn mel_section(file: &[u8], section: usize) -> MelSectionAnswer
    ensures answer { result ≡ returned_section result.name_start
        (section_fields (read line_limit file.now) section) }
    ensures name { slice result.name_start (result.name_start + result.name_length) file.now
        ≡ block_name (section_fields (read line_limit file.now) section) }
    ensures inside { result.name_start + result.name_length ≤ length file.now }
{
    match cbf::section(file, LINE_LIMIT, section) {
        Ok(found) => section_of(found),
        Err(refusal) => no_section(refusal),
    }
}

// Tells where the octets of a BINARY section are.
#[unsafe(no_mangle)]
pub extern "C" fn mel_octets(file: &[u8], section: usize) -> MelOctetsAnswer
    ensures answer { result ≡ returned_octets (octets_of (read line_limit file.now) section) }
{
    match cbf::octets_at(file, LINE_LIMIT, section) {
        Ok(octets) => MelOctetsAnswer {
            refusal: 0,
            place: 0,
            item: 0,
            length: octets.size as u32,
            start: octets.first as u64,
        },
        Err(refusal) => MelOctetsAnswer {
            refusal: refusal.number,
            place: refusal.place as u32,
            item: 0,
            length: 0,
            start: 0,
        },
    }
}

// Unpacks the frame of a section.
#[unsafe(no_mangle)]
pub extern "C" fn mel_unpack(file: &[u8], section: usize, pixels: &mut [i64]) -> MelAnswer
    ensures answer { result ≡ returned (frame_outcome (read line_limit file.now) section
        (length pixels.old)) }
    ensures output { pixels.new ≡ frame_output (read line_limit file.now) section
        pixels.old }
{
    answer_of(cbf::unpack(file, LINE_LIMIT, section, pixels))
}

// Writes the listing of a file.
#[unsafe(no_mangle)]
pub extern "C" fn mel_listing(file: &[u8], out: &mut [u8]) -> MelAnswer
    ensures answer { result ≡ returned (list_outcome (read line_limit file.now)
        (length out.old)) }
    ensures output { out.new ≡ list_output (read line_limit file.now) out.old }
{
    answer_of(cbf::list(file, LINE_LIMIT, out))
}

// Writes the catalogue of a file.
#[unsafe(no_mangle)]
pub extern "C" fn mel_catalogue(file: &[u8], out: &mut [u8]) -> MelAnswer
    ensures answer { result ≡ returned (catalogue_outcome (read line_limit file.now)
        (length out.old)) }
    ensures output { out.new ≡ catalogue_output (read line_limit file.now)
        out.old }
{
    answer_of(cbf::catalogue(file, LINE_LIMIT, out))
}

// Writes the file with the frame of a section replaced.
#[unsafe(no_mangle)]
pub extern "C" fn mel_replace(
    file: &[u8],
    section: usize,
    frame: &[i64],
    out: &mut [u8],
) -> MelAnswer
    ensures answer { result ≡ returned (replace_outcome file.now (read line_limit file.now)
        section frame.now (length out.old)) }
    ensures output { out.new ≡ replace_output file.now (read line_limit file.now)
        section frame.now out.old }
{
    answer_of(cbf::replace(file, LINE_LIMIT, section, frame, out))
}

// Packs pixels by the byte-offset rule.
#[unsafe(no_mangle)]
pub extern "C" fn mel_pack(element_type: u8, pixels: &[i64], out: &mut [u8]) -> MelAnswer
    ensures answer { result ≡ returned (pack_call (element element_type) pixels.now
        (length out.old)) }
    ensures output { out.new ≡ written (pack_call (element element_type) pixels.now
        (length out.old)) (pack_byte_offset pixels.now) out.old }
{
    match ElementType::try_from(element_type) {
        Err(_) => refused(Reason::BadPixels.at(0)),
        Ok(kind) => answer_of(cbf_pack::pack(kind, pixels, out)),
    }
}

// Unpacks count pixels from all of octets.
#[unsafe(no_mangle)]
pub extern "C" fn mel_unpack_octets(
    element_type: u8,
    compression: u8,
    octets: &[u8],
    count: usize,
    pixels: &mut [i64],
) -> MelAnswer
    ensures answer { result ≡ returned (unpack_call (element element_type) (compressed compression) count
        octets.now (length pixels.old)) }
    ensures output { pixels.new ≡ written (unpack_call (element element_type)
        (compressed compression) count octets.now (length pixels.old))
        (unpacked_by (element element_type) (compressed compression) count octets.now)
        pixels.old }
{
    match (
        ElementType::try_from(element_type),
        Compression::try_from(compression),
    ) {
        (Err(_), _) => refused(Reason::BadOctets.at(0)),
        (Ok(_), Err(_)) => refused(Reason::BadOctets.at(0)),
        (Ok(kind), Ok(by)) => answer_of(cbf_unpack::unpack(by, kind, octets, count, pixels)),
    }
}
