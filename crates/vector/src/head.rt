// The head of a table: at which of its words what stands, and what a table is limited to.
#[derive(Drop)]
pub struct Head;

impl Head {
    pub const DEVICE: usize = 0;

    pub const COUNTER: usize = 1;

    pub const ROWS: usize = 2;

    pub const SIGN: usize = 3;

    // The most rows, the most levels, and the counter at which no stamp can be made.
    pub const MOST_ROWS: usize = 256;

    pub const MOST_LEVELS: u32 = 16;

    pub const LAST_COUNT: u32 = 4294967295;
}
