// The head of a case: what is called, and what is lent.
use byteorder::{ByteOrder, LE};

// A case's arguments stand at the front, and the rest is zero.
pub(crate) type Room = [u8; slot_file::MOST_BYTES];

#[derive(Clone, Copy, PartialEq, Eq)]
pub(crate) enum Function {
    Check,
    Answer,
    List,
    Handling,
    Standing,
    Aspiration,
    Group,
    Locomotive,
}

impl From<u8> for Function {
    // A group has 7, and every number that no other function has: each case has its line, so this is no `TryFrom`.
    fn from(number: u8) -> Self {
        match number {
            1 => Self::Check,
            2 => Self::Answer,
            3 => Self::List,
            4 => Self::Handling,
            5 => Self::Standing,
            6 => Self::Aspiration,
            8 => Self::Locomotive,
            _ => Self::Group,
        }
    }
}

// The function that is called, how many numbers and bytes are lent, and the length of the arguments.
#[derive(Clone, Copy)]
pub(crate) struct Head {
    pub(crate) function: Function,
    pub(crate) numbers: usize,
    pub(crate) bytes: usize,
    pub(crate) length: usize,
}

impl From<&[u8; 44]> for Head {
    fn from(head: &[u8; 44]) -> Self {
        Self {
            function: Function::from(head[32]),
            numbers: usize::from(LE::read_u16(&head[34..])),
            bytes: usize::from(LE::read_u16(&head[36..])),
            // 32 bits fit a length, which has no `From` of them.
            length: LE::read_u32(&head[40..]) as usize,
        }
    }
}
