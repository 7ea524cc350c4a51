// Sheets to try: each part of the input, up to a byte 12, is a title line and a sheet. The program writes the title and the sheet's answer:
// accepted with the numbers of sites and links, the name of the last site and the numbers of the marked sites, or refused with number and line.
#![tactic(auto)]

ghost use Rattle.std.specs.Prelude.{◌≤◌, length};

use std::io;
use std::io::Write;

// Where the part of a text that starts at `from` ends: at the next byte 12, or with the text.
fn part_end(text: &[u8], from: usize) -> usize
    requires { from ≤ length text.now }
    ensures { (from ≤ result) × (result ≤ length text.now) }
{
    for end in from..text.len() {
        if text[end] == 12 {
            return end;
        }
    }
    text.len()
}

// Writes a tab and a number.
fn number<W: Write>(out: &mut W, n: u64) -> io::Result<()> {
    write!(out, "\t{n}")
}

// Writes the numbers of the marked sites.
fn marks<W: Write>(out: &mut W, mark: &[u8]) -> io::Result<()> {
    for i in 0..mark.len() {
        if mark[i] != 0 {
            number(out, (i + 1) as u64)?;
        }
    }
    Ok(())
}

// Writes the answer to a sheet.
fn answer<W: Write>(out: &mut W, text: &[u8]) -> io::Result<()> {
    match sheet::read(text) {
        Ok(network) => {
            out.write_all(b"\taccepted")?;
            number(out, network.sites as u64)?;
            number(out, network.links as u64)?;
            out.write_all(b"\t")?;
            out.write_all(sheet::name(text, network.sites))?;
            marks(out, &network.mark)?;
        }
        Err(refusal) => {
            out.write_all(b"\trefused")?;
            number(out, refusal.number)?;
            number(out, refusal.line as u64)?;
        }
    }
    out.write_all(b"\n")
}

// Writes the title of a part and the answer to its sheet.
fn trial<W: Write>(out: &mut W, text: &[u8]) -> io::Result<()> {
    let title = text_lines::line(text, 0);
    out.write_all(title)?;
    if title.len() < text.len() {
        let sheet = title.len() + 1;
        answer(out, &text[sheet..])?;
    }
    Ok(())
}

// Writes the titles and answers of all parts.
fn trials<W: Write>(out: &mut W, text: &[u8]) -> io::Result<()> {
    let mut from = 0;
    // Stays: the next part begins where this one is found to end, so there is no range or iterator to go over.
    while from < text.len() {
        let end = part_end(text, from);
        trial(out, &text[from..end])?;
        from = end + 1;
    }
    Ok(())
}

fn main(rt: HostRuntime) -> io::Result<()> {
    let mut buffer = [0u8; 65536];
    let n = text_streams::read(&mut rt.stdin(), &mut rt.stderr(), &mut buffer).count;
    trials(&mut rt.stdout(), &buffer[..n])
}
