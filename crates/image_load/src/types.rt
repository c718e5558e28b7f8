// What loading hands back.
use state::types::{Config, Run};

// 0 and offset 0 with the state, or the refusal and the offset of the first bad record with a state that is all zero. It is no
// Result: document 01 hands back a state on refusal too (`load_of`), and C takes it so.
#[derive(Clone, Copy)]
pub struct Loaded {
    pub answer: u8,
    pub offset: usize,
    pub config: Config,
    pub run: Run,
}
