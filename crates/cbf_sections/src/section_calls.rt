// The calls that count a file's sections, or ask for the fields or the octets of one. Text lines have at most limit
// characters.
ghost use Rattle.std.specs.Prelude.{◌≡◌};
ghost use Rattle.cbf_answers.specs.Answers.{outcome};
ghost use Rattle.cbf_format.specs.SectionCalls.{read_outcome, numbered_fields, section_fields, NameInside};
ghost use Rattle.cbf_format.specs.SectionCalls.{octets_of, octets_place, octets_outcome, octets_part, place_of};
ghost use Rattle.cbf_format.specs.Files as F;

use cbf_answers::{Reason, Refusal};
use cbf_format::{Encoding, OctetsPlace, Section};

// How many sections the file has: reading's refusal, or their number.
pub fn read(file: &[u8], limit: usize) -> Result<usize, Refusal>
    ensures answer { outcome result ≡ read_outcome (F.read limit file.now) }
{
    cbf_reader::count_sections(file, limit)
}

// The fields of the section with this number, counted from 1: reading's refusal, 12, or the fields. Where in the file
// the name of its data block lies is left free; that place lies in the file, and what stands there is the name.
pub fn section(file: &[u8], limit: usize, number: usize) -> Result<Section, Refusal>
    ensures answer { numbered_fields file.now result ≡ section_fields (F.read limit file.now)
        number }
    ensures name { NameInside file.now result }
{
    cbf_reader::numbered_section(file, limit, number)
}

// Where the octets of a BINARY section are: reading's refusal, 12, 18, or their place.
pub fn octets_at(file: &[u8], limit: usize, number: usize) -> Result<OctetsPlace, Refusal>
    ensures answer { place_of result ≡ octets_place (octets_of (F.read limit file.now) number) }
{
    let s = cbf_reader::numbered_section(file, limit, number)?;
    match s.description.encoding {
        Encoding::Binary => Ok(OctetsPlace {
            first: s.first,
            size: s.description.size as usize,
        }),
        Encoding::Base64 => Err(Reason::NotBinary.at(0)),
    }
}

// How many octets a BINARY section has: the answer that goes with the part that `octets` hands back.
#[tactic(auto, using(crate::proofs::SectionCallsLaws::octets_said))]
pub fn octets_answer(file: &[u8], limit: usize, number: usize) -> Result<usize, Refusal>
    ensures answer { outcome result ≡ octets_outcome (octets_of (F.read limit file.now) number) }
{
    Ok(octets_at(file, limit, number)?.size)
}

// The octets of a BINARY section, as a part of the file. The part is empty where octets_answer is a refusal; where an
// empty part lies is left free, and it is at the file's start.
pub fn octets(file: &[u8], limit: usize, number: usize) -> &[u8]
    ensures part { result.now ≡ octets_part (octets_of (F.read limit file.now) number) }
{
    match octets_at(file, limit, number) {
        Ok(place) => &file[place.first..place.first + place.size],
        Err(_) => &file[..0],
    }
}
