use cal_list::Items;

/// The text before a `!`, upper-cased, with byte 32 for each space byte, each comment line and each end of a line.
/// Its line is that of its first byte that is no space.
#[derive(Drop)]
pub struct Command {
    pub line: u32,
    pub text: Items<u8>,
}

/// The commands of a text in order, and the line of the first byte that is no space behind the last `!`.
#[derive(Drop)]
pub struct CommandList {
    pub list: Items<Command>,
    pub unfinished: Option<u32>,
}
