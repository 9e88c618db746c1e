// What files and sinks answer.

/// How a fetch ended.
#[derive(Clone, Copy, Debug, PartialEq, Eq)]
pub enum Fetched {
    Got,
    Absent,
    ReadFault,
    TooLong,
    NoMemory,
}

/// How a put ended: so many bytes were taken, or none.
#[derive(Clone, Copy, Debug, PartialEq, Eq)]
pub enum Put {
    Took(usize),
    WriteFault,
}

/// Not all bytes were written.
#[derive(Clone, Copy, Debug, PartialEq, Eq)]
pub struct WriteFault;
