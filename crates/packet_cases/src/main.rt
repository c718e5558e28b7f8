// Judges the worked packets of document 01, their damaged forms, and packets at the edges of the rules, and prints of each
// its name and the judge's answer, command id and argument count; then what the enquiry gives for some of them. What can't be
// written is lost.
#![tactic(auto)]

use packet_judge::{enquiry, judge};
use packet_rules::types::Judged;
use std::fmt;
use std::fmt::Write;
use text::Page;
use worked::{ARM, G, PAD};

// Packets with some of their bytes changed: the place and the new byte of each.
const CHANGED: [(&str, &[u8], &[(usize, u8)]); 11] = [
    ("G", &G, &[]),
    ("ARM", &ARM, &[]),
    ("PAD", &PAD, &[]),
    ("G, last byte 15", &G, &[(9, 0x15)]),
    ("G, version 1", &G, &[(0, 0x38)]),
    ("G, type 0", &G, &[(0, 0x08)]),
    ("G, no secondary header", &G, &[(0, 0x10)]),
    // the high bit of the function code is ignored
    (
        "G, high bit of the function code",
        &G,
        &[(6, 0x80), (7, 0x4E)],
    ),
    ("G, length field 65,535", &G, &[(4, 0xFF), (5, 0xFF)]),
    // the XOR is the last check that fails, where there is no byte 7
    (
        "seven bytes",
        &[0x18, 0x00, 0x00, 0x00, 0x00, 0x00, 0x18],
        &[],
    ),
    (
        "seven bytes, XOR not zero",
        &[0x18, 0x00, 0x00, 0x00, 0x00, 0x00, 0x00],
        &[],
    ),
];

// The first bytes of G.
const CUT: [(&str, usize); 5] = [
    ("G less its last byte", 9),
    ("G, six bytes", 6),
    ("G, five bytes", 5),
    ("G, one byte", 1),
    ("G, no byte", 0),
];

// PAD with more pads counted: data length 6 less pads is 4, 3, or would be below zero.
const PADDED: [(&str, &[(usize, u8)]); 3] = [
    ("data less pads 4", &[(6, 2), (7, 0xD1)]),
    ("data less pads 3", &[(6, 3), (7, 0xD0)]),
    ("more pads than data", &[(6, 127), (7, 0xAC)]),
];

// So many zeros with some changed. Data length 259 and 260, which is 255 and 256 arguments; and 260 with one of them a pad.
const LONG: [(&str, usize, &[(usize, u8)]); 3] = [
    (
        "255 arguments",
        265,
        &[(0, 0x18), (4, 0x01), (5, 0x02), (7, 0x0F), (9, 0x14)],
    ),
    (
        "256 arguments",
        266,
        &[(0, 0x18), (4, 0x01), (5, 0x03), (7, 0x0E), (9, 0x14)],
    ),
    (
        "255 arguments and a pad",
        266,
        &[
            (0, 0x18),
            (4, 0x01),
            (5, 0x03),
            (6, 0x01),
            (7, 0x0F),
            (9, 0x14),
        ],
    ),
];

// Zeros, some changed: the longest packet that a length field can claim, and one byte more.
const LONGEST: [(&str, usize); 2] = [("65,542 bytes", 65542), ("65,543 bytes", 65543)];

fn main() {
    let mut page = Page::<4096>::new();
    let _ = all(&mut page);
    io::write_all(1, page.bytes());
}

fn all(page: &mut impl Write) -> fmt::Result {
    for (name, packet, changes) in CHANGED {
        let mut room = [0u8; 12];
        let size = text::put(&mut room, 0, packet);
        change(&mut room, changes);
        show(page, name, text::first(&room, size))?;
    }
    for (name, size) in CUT {
        show(page, name, text::first(&G, size))?;
    }
    for (name, changes) in PADDED {
        let mut packet = PAD;
        change(&mut packet, changes);
        show(page, name, &packet)?;
    }
    for (name, size, changes) in LONG {
        let mut room = [0u8; 266];
        change(&mut room, changes);
        show(page, name, text::first(&room, size))?;
    }
    let mut longest = [0u8; 65543];
    change(&mut longest, &[(0, 0x18), (4, 0xFF), (5, 0xFF), (7, 0x18)]);
    for (name, size) in LONGEST {
        show(page, name, text::first(&longest, size))?;
    }
    enquire(page, "G", &G)?;
    enquire(page, "ARM", &ARM)?;
    enquire(page, "PAD", &PAD)?;
    enquire(page, "PAD less its last byte", &PAD[..11])
}

// Changes these bytes of a packet.
fn change(packet: &mut [u8], changes: &[(usize, u8)]) {
    for &(place, byte) in changes {
        if let Some(b) = packet.get_mut(place) {
            *b = byte;
        }
    }
}

// One line: the name, the answer, the id, the argument count.
fn show(page: &mut impl Write, name: &str, packet: &[u8]) -> fmt::Result {
    let Judged { answer, id, count } = judge::judge(packet);
    writeln!(page, "{name}: {answer} {id} {count}")
}

// What the enquiry gives: how many argument bytes, and the byte where it is one.
fn enquire(page: &mut impl Write, name: &str, packet: &[u8]) -> fmt::Result {
    match enquiry::arguments(packet) {
        [byte] => writeln!(page, "arguments of {name}: 1, the byte {byte}"),
        part => writeln!(page, "arguments of {name}: {}", part.len()),
    }
}
