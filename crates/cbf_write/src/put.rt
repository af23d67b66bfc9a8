// Writing text to lent memory.
ghost use Rattle.std.specs.Prelude.{◌≡◌, ◌+◌, ◌≤◌, length};
ghost use Rattle.std.proofs.lemmas.List.Edits.{sets};

// Copies the text, or a part of a file, to out from at on; the place after it.
pub fn put_text(out: &mut [u8], at: usize, text: &[u8]) -> usize
    requires { at + length text.now ≤ length out.old }
    ensures value { result ≡ at + length text.now }
    ensures out_after { out.new ≡ sets out.old at text.now }
{
    let end = at + text.len();
    out[at..end].copy_from_slice(text);
    end
}
