// Builds the worked packets of document 01 from their fields, and packets at every limit and one past it, each into a buffer
// full of EE. Prints of each its name, the answer and the bytes written; the judge's answer, id and argument count for what was
// written; the byte behind that; and of a short packet its bytes in hex. What can't be written is lost.
#![tactic(auto)]

use build_rules::types::Built;
use packet_judge::judge;
use packet_rules::types::Judged;
use std::fmt;
use std::fmt::Write;
use text::Page;

// Of each the name, the APID, the count, the id, the arguments, the pads, and how much of the buffer it may take.
const CASES: [(&str, u16, u16, u16, &[u8], u16, usize); 28] = [
    // G, ARM and PAD of document 01
    ("G", 1, 0, 20, &[], 0, 400),
    ("ARM", 1, 0, 100, &[2], 0, 400),
    ("PAD", 1, 0, 10, &[5], 1, 400),
    // no arguments, 255, and one more
    ("no arguments", 5, 7, 300, &[], 0, 400),
    ("254 arguments", 5, 7, 300, &[0xA5; 254], 0, 400),
    ("255 arguments", 5, 7, 300, &[0xA5; 255], 0, 400),
    ("256 arguments", 5, 7, 300, &[0xA5; 256], 0, 400),
    // 127 pads, and more
    ("127 pads", 5, 7, 300, &[1], 127, 400),
    ("128 pads", 5, 7, 300, &[1], 128, 400),
    ("256 pads", 5, 7, 300, &[1], 256, 400),
    ("255 arguments and 127 pads", 5, 7, 300, &LONGEST, 127, 400),
    // the last number that fits, of each field
    ("APID 2,047", 2047, 0, 20, &[], 0, 400),
    ("count 16,383", 1, 16383, 20, &[], 0, 400),
    ("id 65,535", 1, 0, 65535, &[], 0, 400),
    ("all zero", 0, 0, 0, &[], 0, 400),
    // one past it, and the largest
    ("APID 2,048", 2048, 0, 20, &[], 0, 400),
    ("APID 65,535", 65535, 0, 20, &[], 0, 400),
    ("count 16,384", 1, 16384, 20, &[], 0, 400),
    ("count 65,535", 1, 65535, 20, &[], 0, 400),
    // everything wrong, and then one thing less each time
    ("all five", 2048, 16384, 20, &[0; 256], 128, 0),
    ("all but the APID", 1, 16384, 20, &[0; 256], 128, 0),
    ("arguments, pads and room", 1, 0, 20, &[0; 256], 128, 0),
    ("pads and room", 1, 0, 20, &[], 128, 0),
    ("room", 1, 0, 20, &[], 0, 0),
    // the output exact, and one byte short
    ("PAD in 12 bytes", 1, 0, 10, &[5], 1, 12),
    ("PAD in 11 bytes", 1, 0, 10, &[5], 1, 11),
    ("the longest in 392 bytes", 5, 7, 300, &LONGEST, 127, 392),
    ("the longest in 391 bytes", 5, 7, 300, &LONGEST, 127, 391),
];

// The most arguments.
const LONGEST: [u8; 255] = [0x5A; 255];

// Bytes in hex, a blank before each.
#[derive(Clone, Copy)]
struct Hex<'a>(&'a [u8]);

impl fmt::Display for Hex<'_> {
    fn fmt<W: fmt::Write>(&self, f: &mut fmt::Formatter<W>) -> fmt::Result {
        for byte in self.0 {
            write!(f, " {byte:02X}")?;
        }
        Ok(())
    }
}

fn main() {
    let mut page = Page::<4096>::new();
    let _ = all(&mut page);
    io::write_all(1, page.bytes());
}

fn all(page: &mut impl Write) -> fmt::Result {
    for (name, apid, count, id, args, pads, room) in CASES {
        let mut buffer = [0xEEu8; 400];
        let part = &mut buffer[..room.min(400)];
        let built = build_packet::build(apid, count, id, args, pads, part);
        show(page, name, built, &buffer)?;
    }
    Ok(())
}

// One line: answer and bytes written; the judge of what was written; the byte behind it; the bytes where they are few.
fn show(page: &mut impl Write, name: &str, built: Built, buffer: &[u8]) -> fmt::Result {
    let Built { answer, written } = built;
    let (part, behind) = buffer.split_at(buffer.len().min(usize::from(written)));
    write!(page, "{name}: {answer} {written}")?;
    let Judged { answer, id, count } = judge::judge(part);
    let next = behind.first().copied().unwrap_or(0);
    write!(page, ", judged {answer} {id} {count}, then {next:02X}")?;
    if part.len() <= 12 {
        writeln!(page, ":{}", Hex(part))
    } else {
        writeln!(page)
    }
}
