// Templates that are installed: shapes of blocks, the blocks that spell them, and blocks that spell none.

use crate::held::{Bytes, put_word, word_at};
use store_types::BLOCK_LEN;

/// How many shapes there are.
pub const SHAPES: u16 = 12;

/// How many ways there are to spoil a template's block.
pub const SPOILS: u16 = 7;

/// How the two programs are written.
#[derive(Clone, Copy, PartialEq, Eq)]
enum Style {
    /// A pointer is emitted where it is greater than zero; the size is a number.
    Plain,
    /// A pointer is emitted where it isn't zero; the size is a sum.
    Sum,
    /// As `Plain`, but the size is 8 where the first pointer is zero.
    Branch,
    /// Both pointers are emitted in a loop.
    Loop,
}

/// What the blocks of a type are: the type to which the number in bytes 0 to 3 points and that of bytes 8 to 11, 0 for no
/// pointer, and how many bytes are used.
#[derive(Clone, Copy)]
pub struct Shape {
    pub first: u32,
    pub second: u32,
    pub size: u16,
    style: Style,
}

/// One of the shapes.
pub fn shape_of_number(number: u16) -> Shape {
    let (first, second, size, style) = match number {
        0 => (0u32, 0u32, 512u16, Style::Plain),
        1 => (0, 0, 8, Style::Sum),
        2 => (2, 0, 8, Style::Plain),
        3 => (6, 0, 12, Style::Branch),
        4 => (7, 0, 8, Style::Branch),
        5 => (8, 0, 512, Style::Sum),
        6 => (9, 0, 8, Style::Sum),
        7 => (8, 2, 12, Style::Plain),
        8 => (9, 9, 16, Style::Loop),
        9 => (10, 8, 12, Style::Sum),
        10 => (8, 0, 4, Style::Plain),
        _ => (0, 0, 0, Style::Plain),
    };
    Shape {
        first,
        second,
        size,
        style,
    }
}

impl Shape {
    /// How many pointers a block has.
    pub fn pointers(&self) -> u16 {
        match (self.first, self.second) {
            (0, _) => 0,
            (_, 0) => 1,
            _ => 2,
        }
    }
}

/// The words of a template so far, behind the place of its head.
#[derive(Drop)]
struct Code {
    bytes: Bytes,
    words: u8,
}

impl Code {
    /// One more word.
    fn word(&mut self, word: [u8; 4]) {
        let at = u16::from(self.words).saturating_mul(4).saturating_add(4);
        put_word(&mut self.bytes, at, u32::from_le_bytes(word));
        self.words = self.words.saturating_add(1);
    }

    /// SET
    fn set(&mut self, register: u8, number: u16) {
        let [low, high] = number.to_le_bytes();
        self.word([0x01, register, low, high]);
    }

    /// END
    fn end(&mut self) {
        self.word([0x11, 0, 0, 0]);
    }

    /// Emits the block in register 2 with the type in register 3, where there is one.
    fn emit(&mut self, style: Style) {
        if style == Style::Sum {
            self.word([0x0f, 2, 0, 0]); // IFEQ 2 0
            self.word([0x10, 0, 0, 0]); // ELSE
        } else {
            self.word([0x0e, 0, 2, 0]); // IFLT 0 2
        }
        self.word([0x0d, 2, 3, 0]); // EMIT 2 3
        self.end();
    }

    /// Emits what a pointer names.
    fn pointer(&mut self, offset: u16, ty: u32, style: Style) {
        if ty != 0 {
            self.set(1, offset);
            self.word([0x0c, 2, 1, 0]); // LD4 2 1
            self.set(3, (ty & 0xffff) as u16);
            self.emit(style);
        }
    }

    /// Emits what the numbers in bytes 0 to 3 and 8 to 11 name.
    fn both(&mut self, ty: u32) {
        self.set(1, 8);
        self.set(3, (ty & 0xffff) as u16);
        self.word([0x12, 4, 2, 0]); // FOR 4 2
        self.word([0x05, 5, 4, 1]); // MUL 5 4 1
        self.word([0x0c, 2, 5, 0]); // LD4 2 5
        self.emit(Style::Loop);
        self.end();
    }

    /// The owns program.
    fn owns(&mut self, shape: &Shape) {
        if shape.style == Style::Loop {
            self.both(shape.first);
        } else {
            self.pointer(0, shape.first, shape.style);
            self.pointer(8, shape.second, shape.style);
        }
    }

    /// The size program.
    fn size(&mut self, shape: &Shape) {
        match shape.style {
            Style::Plain | Style::Loop => self.set(0, shape.size),
            Style::Sum => {
                self.set(1, 4);
                self.set(2, shape.size.saturating_sub(4));
                self.word([0x03, 0, 1, 2]); // ADD 0 1 2
            }
            Style::Branch => {
                self.word([0x0c, 1, 0, 0]); // LD4 1 0
                self.word([0x0e, 0, 1, 0]); // IFLT 0 1
                self.set(0, shape.size);
                self.word([0x10, 0, 0, 0]); // ELSE
                self.set(0, 8);
                self.end();
            }
        }
    }
}

/// The block that spells the template of a shape.
pub fn block_of(shape: &Shape) -> Bytes {
    let mut code = Code {
        bytes: [0; BLOCK_LEN],
        words: 0,
    };
    code.owns(shape);
    let owns = code.words;
    code.size(shape);
    let size = code.words.saturating_sub(owns);
    let mut bytes = code.bytes;
    put_word(&mut bytes, 0, u32::from_le_bytes([0x58, 0x54, owns, size]));
    bytes
}

/// A template's block, spoiled in one of the ways: no template has these bytes.
pub fn spoiled(bytes: &Bytes, way: u16) -> Bytes {
    let head = word_at(bytes, 0);
    let [_, _, owns, size] = head.to_le_bytes();
    let last = (u16::from(owns) + u16::from(size)).saturating_mul(4);
    let mut bytes = *bytes;
    match way {
        0 => bytes = [0; BLOCK_LEN],
        // another mark
        1 => put_word(&mut bytes, 0, head ^ 0x0100),
        // cut short by a word
        2 => put_word(&mut bytes, last, 0),
        // SET 0 513 in the place of the last word
        3 => put_word(&mut bytes, last, 0x0201_0001),
        // no word has this code
        4 => put_word(&mut bytes, 4, 0x7f),
        // a byte behind the words
        5 => put_word(&mut bytes, 508, 0x0100_0000),
        // 128 words
        _ => put_word(&mut bytes, 0, 0x017f_5458),
    }
    bytes
}
