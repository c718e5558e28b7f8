// The frame of a record: its header and its end.
ghost use Rattle.std.specs.Prelude.{◌≡◌, ◌+◌, ◌≤◌, length};
ghost use Rattle.image_rules.specs.Records.{le16};
ghost use Rattle.image_rules.specs.RecordParts.{FoundIn};

use wire::word;

// The two-byte number at a place.
// internal: for those who have seen that the bytes are there.
pub fn word_at(bytes: &[u8], at: usize) -> u16
    requires { at + 2 ≤ length bytes.now }
    ensures { result ≡ le16 bytes.now at }
{
    word::little(bytes[at], bytes[at + 1])
}

// A record that was found: its end and its kind. Its body begins 4 bytes behind its place.
#[derive(Clone, Copy)]
pub struct Found {
    pub end: usize,
    pub kind: u16,
}

// The record at a place; none where its header or body passes the end of the bytes. The one walk over records, of an image and of
// a recording.
// internal: for those who walk over records, whose place is within the bytes.
#[tactic(auto, using(crate::proofs::RecordLaws::cut_head, crate::proofs::RecordLaws::cut_body))]
pub fn found_at(bytes: &[u8], at: usize) -> Option<Found>
    requires { at ≤ length bytes.now }
    ensures { FoundIn bytes.now at result }
{
    let room = bytes.len() - at;
    if room < 4 {
        return None;
    }
    let size = word_at(bytes, at) as usize;
    if room - 4 < size {
        None
    } else {
        Some(Found {
            end: at + 4 + size,
            kind: word_at(bytes, at + 2),
        })
    }
}
