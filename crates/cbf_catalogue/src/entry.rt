// The catalogue's entry of a section: 64 bytes.
ghost use Rattle.std.specs.Prelude.{◌≡◌, [], ◌∷◌, ◌+◌, ◌-◌, ◌≤◌, length};
ghost use Rattle.std.proofs.lemmas.List.Edits.{sets};
ghost use Rattle.std.proofs.Math.Seq.{slice};
ghost use Rattle.cbf_pixels.specs.Octets.{octets};
ghost use Rattle.cbf_pixels.specs.Numbers.{compression_number, type_number};
ghost use Rattle.cbf_format.specs.Catalogue.{label_width, encoding_number, label};
ghost use Rattle.cbf_catalogue.specs.Entry.{entry_for, four_numbers};

use crate::little;
use cbf_format::{LABEL_WIDTH, Section};

// Writes four 32-bit numbers.
fn put_four(out: &mut [u8], at: usize, a: u64, b: u64, c: u64, d: u64) -> usize
    requires { at + 16 ≤ length out.old }
    ensures value { result ≡ at + 16 }
    ensures out_after { out.new ≡ sets out.old at (four_numbers a b c d) }
{
    let after_a = little::put_little(out, at, 4, a);
    let after_b = little::put_little(out, after_a, 4, b);
    let after_c = little::put_little(out, after_b, 4, c);
    little::put_little(out, after_c, 4, d)
}

// Writes a name that is no longer than the label, over zeros.
fn put_label(name: &[u8], out: &mut [u8], at: usize) -> usize
    requires { (length name.now ≤ label_width) × (at + label_width ≤ length out.old) }
    ensures value { result ≡ at + label_width }
    ensures out_after { out.new ≡ sets out.old at (label name.now) }
{
    let end = little::put_zeros(out, at, LABEL_WIDTH);
    cbf_write::put_text(out, at, name);
    end
}

// The three numbers in one octet each and the zero after them, as one number of 32 bits.
fn kinds(section: Section) -> u64
    ensures { octets 4 result ≡ compression_number section.description.compression ∷ type_number
        section.description.kind ∷ encoding_number section.description.encoding ∷ 0 ∷ [] }
{
    let d = section.description;
    let low = u64::from(u8::from(d.compression));
    let middle = u64::from(u8::from(d.kind));
    let high = u64::from(u8::from(d.encoding));
    low + 256 * middle + 65536 * high
}

// Writes the section's entry to out from at on; the place after it.
pub fn put_entry(file: &[u8], section: Section, out: &mut [u8], at: usize) -> usize
    requires { (section.block.from ≤ section.block.to) × (section.block.to ≤ length file.now)
        × (section.block.to - section.block.from ≤ label_width) × (at + 64 ≤ length out.old) }
    ensures value { result ≡ at + 64 }
    ensures out_after { out.new ≡ sets out.old at (entry_for file.now section) }
{
    let d = section.description;
    let block = section.block;
    let numbers = kinds(section);
    let after_kinds = put_four(out, at, section.first as u64, d.size, d.elements, numbers);
    let after_numbers = put_four(out, after_kinds, d.id, d.fastest, d.second, d.third);
    put_label(&file[block.from..block.to], out, after_numbers)
}
