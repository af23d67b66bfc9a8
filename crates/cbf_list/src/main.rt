// SPDX-License-Identifier: Apache-2.0
// Reads a file from standard input and prints its listing, or the line of its refusal.
#![tactic(auto)]

ghost use Rattle.std.specs.Prelude.{◌≡◌, ◌≤◌, length, IfOk};
ghost use Rattle.cbf_answers.specs.Answers.{outcome, written};
ghost use Rattle.cbf_answers.specs.Limits.{line_limit};
ghost use Rattle.cbf_format.specs.Files.{read};
ghost use Rattle.cbf_list.specs.Texts.{list_text, text_outcome};

use cbf::{LINE_LIMIT, Reason, Refusal};
use std::io::{self, Read, Write};

// Writes the text for what was read; more says that the input did not end there.
fn text(file: &[u8], more: bool, out: &mut [u8]) -> Result<usize, Refusal>
    ensures answer { outcome result
        ≡ text_outcome more (read line_limit file.now) (length out.old) }
    ensures output { out.new
        ≡ written (text_outcome more (read line_limit file.now) (length out.old))
        (list_text more (read line_limit file.now) (length out.old)) out.old }
{
    if more {
        return cbf::refusal_line(Reason::TooLarge.at(0), out);
    }
    cbf::listing_or_refusal(file, LINE_LIMIT, out)
}

// Reads until the buffer is full or the input ends, and says how many bytes there are.
fn read_full<R: Read>(reader: &mut R, buffer: &mut [u8]) -> io::Result<usize>
    ensures { IfOk result (λ n. n ≤ length buffer.new) }
{
    let mut done = 0;
    for _ in 0..buffer.len() {
        if done >= buffer.len() {
            break;
        }
        let n = reader.read(&mut buffer[done..])?;
        if n == 0 {
            break;
        }
        done += n;
    }
    Ok(done)
}

// Writes the bytes of the text. Room is never wanting: 512 lines of at most 122 bytes are less than the buffer's 65,536.
fn print(rt: &impl Print, answer: Result<usize, Refusal>, out: &[u8]) -> io::Result<()> {
    if let Ok(n) = answer
        && n <= out.len()
    {
        io::writer(rt).write_all(&out[..n])?;
    }
    Ok(())
}

fn main(rt: HostRuntime) -> io::Result<()> {
    let mut reader = rt.reader();
    let mut file = [0u8; 65536];
    let n = read_full(&mut reader, &mut file)?;
    let mut next = [0u8; 1];
    let more = read_full(&mut reader, &mut next)? != 0;
    let mut out = [0u8; 65536];
    let answer = text(&file[..n], more, &mut out);
    print(&rt, answer, &out)
}
