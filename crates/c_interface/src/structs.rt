// What the exported functions answer with: plain numbers, since C has no such enums.

// Why a text is refused: number, line and place; all 0 where no text is.
#[repr(C)]
#[derive(Clone, Copy, Default)]
pub struct TextFault {
    pub number: u8,
    pub line: u16,
    pub place: u16,
}

// How a call ended, and how many bytes of the buffer it wrote.
#[repr(C)]
#[derive(Clone, Copy)]
pub struct Answered {
    pub status: u8,
    pub fault: TextFault,
    pub length: usize,
}

// How reading a text ended, and how many facts and actions its task has.
#[repr(C)]
#[derive(Clone, Copy)]
pub struct Sizes {
    pub status: u8,
    pub fault: TextFault,
    pub facts: u8,
    pub actions: u16,
}
