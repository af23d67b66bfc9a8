// The line of a section.
ghost use Rattle.std.specs.Prelude.{◌≡◌, List, ℕ, ◌+◌, ◌-◌, ◌≤◌, ◌<◌, length};
ghost use Rattle.std.proofs.lemmas.List.Edits.{sets};
ghost use Rattle.std.proofs.Math.Seq.{slice};
ghost use Rattle.cbf_answers.specs.Limits.{file_limit};
ghost use Rattle.cbf_format.specs.Listing.{compression_name, type_name, named};
ghost use Rattle.cbf_listing.specs.SectionLine.{line_for, figure, figures};

use cbf_format::Section;
use cbf_pixels::{Compression, ElementType};

fn compression_name(compression: Compression) -> &'static [u8]
    ensures { (result.now ≡ compression_name compression) × (length result.now ≤ 11) }
{
    match compression {
        Compression::Uncompressed => b"none",
        Compression::ByteOffset => b"byte_offset",
    }
}

fn type_name(kind: ElementType) -> &'static [u8]
    ensures { (result.now ≡ type_name kind) × (length result.now ≤ 3) }
{
    match kind {
        ElementType::U8 => b"u8",
        ElementType::S8 => b"s8",
        ElementType::U16 => b"u16",
        ElementType::S16 => b"s16",
        ElementType::U32 => b"u32",
        ElementType::S32 => b"s32",
    }
}

// How long a block's name of so many bytes is with the space before it.
fn name_length(bytes: usize) -> usize
    requires { bytes ≤ file_limit }
    ensures { ((name : List ℕ) → bytes ≡ length name → result ≡ length (named name))
        × (result ≤ (file_limit + 1)) }
{
    if bytes == 0 { 0 } else { 1 + bytes }
}

// How long the section's line is.
pub fn line_length(section: Section, number: usize) -> usize
    requires { (section.block.from ≤ section.block.to) × (section.block.to ≤ file_limit) }
    ensures { ((file : List ℕ) → section.block.to ≤ length file → result ≡ length (line_for file number section))
        × (result ≤ 2147483648) }
{
    let d = section.description;
    let block = section.block;
    let numbers = cbf_write::digit_count(number as u64)
        + cbf_write::digit_count(section.first as u64)
        + cbf_write::digit_count(d.size)
        + cbf_write::digit_count(d.elements);
    let names = compression_name(d.compression).len() + type_name(d.kind).len();
    // five spaces and the line end
    numbers + names + name_length(block.to - block.from) + 6
}

// Writes a number and a space.
fn put_figure(out: &mut [u8], at: usize, n: u64) -> usize
    requires { at + length (figure n) ≤ length out.old }
    ensures value { result ≡ at + length (figure n) }
    ensures out_after { out.new ≡ sets out.old at (figure n) }
{
    let end = cbf_write::put_number(out, at, n);
    cbf_write::put_text(out, end, b" ")
}

// Writes the four numbers of a line, each with a space after it.
fn put_figures(
    out: &mut [u8],
    at: usize,
    number: u64,
    position: u64,
    size: u64,
    elements: u64,
) -> usize
    requires { at + length (figures number position size elements) ≤ length out.old }
    ensures value { result ≡ at + length (figures number position size elements) }
    ensures out_after { out.new ≡ sets out.old at (figures number position size elements) }
{
    let after_number = put_figure(out, at, number);
    let after_position = put_figure(out, after_number, position);
    let after_size = put_figure(out, after_position, size);
    put_figure(out, after_size, elements)
}

// Writes the block's name with a space before it, or nothing where it is empty.
fn put_name(name: &[u8], out: &mut [u8], at: usize) -> usize
    requires { at + length (named name.now) ≤ length out.old }
    ensures value { result ≡ at + length (named name.now) }
    ensures out_after { out.new ≡ sets out.old at (named name.now) }
{
    if name.len() == 0 {
        return at;
    }
    let after_space = cbf_write::put_text(out, at, b" ");
    cbf_write::put_text(out, after_space, name)
}

// Writes the section's line to out from at on; the place after it.
pub fn put_line(file: &[u8], section: Section, number: usize, out: &mut [u8], at: usize) -> usize
    requires { (section.block.from ≤ section.block.to) × (section.block.to ≤ length file.now)
        × (at + length (line_for file.now number section) ≤ length out.old) }
    ensures value { result ≡ at + length (line_for file.now number section) }
    ensures out_after { out.new ≡ sets out.old at (line_for file.now number section) }
{
    let d = section.description;
    let block = section.block;
    let after_figures = put_figures(
        out,
        at,
        number as u64,
        section.first as u64,
        d.size,
        d.elements,
    );
    let after_compression = cbf_write::put_text(
        out,
        after_figures,
        compression_name(d.compression),
    );
    let after_space = cbf_write::put_text(out, after_compression, b" ");
    let after_type = cbf_write::put_text(out, after_space, type_name(d.kind));
    let after_name = put_name(&file[block.from..block.to], out, after_type);
    cbf_write::put_text(out, after_name, b"\n")
}
