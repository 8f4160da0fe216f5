// What a line says, and what can be wrong with it.

// Nothing (the line is empty, or a comment), a part (parent, flags), or a link (consumer, supplier, flags).
#[derive(Clone, Copy, Debug, PartialEq, Eq)]
pub enum Entry {
    Nothing,
    Part(u8, u8),
    Link(u8, u8, u8),
}

// A number over 255, or anything else that is no entry.
#[derive(Clone, Copy, Debug, PartialEq, Eq)]
pub enum Fault {
    Large,
    Wrong,
}
