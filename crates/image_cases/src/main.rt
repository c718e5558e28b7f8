// Loads configuration C of document 01, images that differ from it in one place, and images one row past each limit, and
// prints of each its name and the load's answer and offset. What can't be written is lost.
#![tactic(auto)]

use image_load::types::Loaded;
use std::fmt;
use std::fmt::Write;
use text::Page;
use worked::C;

// C with some bytes changed: the place and the new byte of each.
type Changed = (&'static str, &'static [(usize, u8)]);

const GOOD: [Changed; 3] = [
    ("C", &[]),
    ("C, row starts disabled", &[(38, 0)]),
    ("C, own base 65,528", &[(8, 0xF8), (9, 0xFF)]),
];

// The first bytes of C.
const CUT: [(&str, usize); 4] = [
    ("no bytes", 0),
    ("C, none of its bytes", 0),
    ("C, header cut", 12),
    ("C, body cut", 41),
];

const RECORDS: [Changed; 8] = [
    ("C, body length 65,282", &[(11, 0xFF)]),
    ("C, kind 0", &[(2, 0)]),
    ("C, kind 5", &[(12, 5)]),
    ("C, kind 65,535", &[(32, 0xFF), (33, 0xFF)]),
    ("C, basics of 5 bytes", &[(0, 5)]),
    ("C, route of 4 bytes", &[(10, 4)]),
    ("C, 17 arguments", &[(40, 17)]),
    ("C, no arguments but a byte", &[(40, 0)]),
];

// A route and no basics.
const NO_BASICS: [u8; 7] = [0x03, 0x00, 0x02, 0x00, 0x0A, 0x00, 0x01];

const ORDERS: [Changed; 2] = [
    ("C, route id twice", &[(21, 0x0A)]),
    ("C, route id falls", &[(21, 0x09)]),
];

// C with a record behind it.
const LONGER: [(&str, &[u8]); 3] = [
    (
        "C, basics again",
        &[0x06, 0x00, 0x01, 0x00, 0x01, 0x00, 0x02, 0x00, 0x64, 0x00],
    ),
    ("C, kind falls", &[0x03, 0x00, 0x02, 0x00, 0x1E, 0x00, 0x01]),
    (
        "C, fault id twice",
        &[
            0x07, 0x00, 0x04, 0x00, 0x07, 0x00, 0x0A, 0x00, 0x01, 0x01, 0x00,
        ],
    ),
];

// So many routes.
const ROUTES: [(&str, u16); 2] = [("128 routes", 128), ("129 routes", 129)];

// Behind 63 routes so many more records: their number, and the bytes around the id.
const ROWS: [(&str, u16, &[u8], &[u8]); 3] = [
    ("32 protected ids", 32, &PROTECTED, &[]),
    ("33 protected ids", 33, &PROTECTED, &[]),
    (
        "33 fault rows",
        33,
        &[0x07, 0x00, 0x04, 0x00],
        &[0x01, 0x00, 0x00, 0x00, 0x00],
    ),
];

const PROTECTED: [u8; 4] = [0x02, 0x00, 0x03, 0x00];

const RULES: [Changed; 11] = [
    ("C, sources equal", &[(4, 2)]),
    ("C, own base 65,529", &[(8, 0xF9), (9, 0xFF)]),
    ("C, destination 0", &[(16, 0)]),
    ("C, destination 32", &[(16, 32)]),
    ("C, own id routed", &[(21, 0x65)]),
    ("C, protected id neither routed nor own", &[(28, 0x15)]),
    ("C, arm id protected", &[(28, 0x64)]),
    ("C, response not routed", &[(36, 0x0B)]),
    ("C, response an own id", &[(36, 0x66)]),
    ("C, start state 2", &[(38, 2)]),
    ("C, latching 2", &[(39, 2)]),
];

fn main() {
    let mut page = Page::<4096>::new();
    let _ = all(&mut page);
    io::write_all(1, page.bytes());
}

fn all(page: &mut impl Write) -> fmt::Result {
    all_changed(page, &GOOD)?;
    for (name, size) in CUT {
        show(page, name, text::first(&C, size))?;
    }
    all_changed(page, &RECORDS)?;
    show(page, "no basics", &NO_BASICS)?;
    all_changed(page, &ORDERS)?;
    longer(page)?;
    all_changed(page, &RULES)
}

// Images of more records than C has, in one place in turn: a page handed back by value takes its size of the stack again.
fn longer(page: &mut impl Write) -> fmt::Result {
    let mut image = Image::new();
    for (name, record) in LONGER {
        image.clear();
        image.put(&C);
        image.put(record);
        show(page, name, image.bytes())?;
    }
    for (name, n) in ROUTES {
        put_routed(&mut image, n);
        show(page, name, image.bytes())?;
    }
    for (name, n, before, after) in ROWS {
        put_routed(&mut image, 63);
        append(&mut image, n, before, after);
        show(page, name, image.bytes())?;
    }
    Ok(())
}

// One line: the name, the answer, the offset.
fn show(page: &mut impl Write, name: &str, image: &[u8]) -> fmt::Result {
    let Loaded { answer, offset, .. } = image_load::load::load(image);
    writeln!(page, "{name}: {answer} {offset}")
}

fn all_changed(page: &mut impl Write, cases: &[Changed]) -> fmt::Result {
    for &(name, changes) in cases {
        let mut image = C;
        for &(place, byte) in changes {
            if let Some(b) = image.get_mut(place) {
                *b = byte;
            }
        }
        show(page, name, &image)?;
    }
    Ok(())
}

// An image that is put together record by record.
type Image = Page<2048>;

// Basics with own base 1,000, and n routes, and nothing of an image before.
fn put_routed(image: &mut Image, n: u16) {
    image.clear();
    image.put(&[0x06, 0x00, 0x01, 0x00, 0x01, 0x00, 0x02, 0x00, 0xE8, 0x03]);
    append(image, n, &[0x03, 0x00, 0x02, 0x00], &[0x1F]);
}

// Appends records with the ids 1 to n, which differ in the bytes around the id.
fn append(image: &mut Image, n: u16, before: &[u8], after: &[u8]) {
    for id in 1..=n {
        image.put(before);
        image.put(&id.to_le_bytes());
        image.put(after);
    }
}
