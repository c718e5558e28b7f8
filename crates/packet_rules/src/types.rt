// What the judge hands back.

// The judge's answer: 0 with command id and argument count, or a refusal with zeros. It is no `Result`, since C reads it as it stands.
#[repr(C)]
#[derive(Clone, Copy)]
pub struct Judged {
    pub answer: u8,
    pub id: u16,
    pub count: u8,
}
