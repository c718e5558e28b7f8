// The fields of the primary header.

// 0 with every field, or the refusal 22 with zeros. It is no `Result`: document 01 has a refused reader give its refusal and zeros
// for all else, and `header_of` says so of all fields at once.
#[derive(Clone, Copy)]
pub struct Header {
    pub answer: u8,
    pub version: u8,
    pub kind: u8,
    pub secondary: u8,
    pub apid: u16,
    pub flags: u8,
    pub count: u16,
    pub length: u16,
}
