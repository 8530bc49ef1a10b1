// The templates that every disk has.

ghost use Rattle.std.specs.Prelude.{◌≡◌, ◌<◌, ◌+◌, ◌≤◌, length, Ok, IsOk, IfOk};
ghost use Rattle.templates.specs.BuiltIns.{built_in};
ghost use Rattle.templates.specs.Reading.{template_of_code};

use crate::code::{keep_programs, read_programs};
use crate::template::Template;
use arrayvec::ArrayVec;
use std::alloc::{AllocError, Global};
use udf_code::Word;

/// Block 0's owns program, 26 words of four bytes.
const CATALOGUE: [u8; 104] = [
    0x01, 0x01, 0x04, 0x00, 0x01, 0x02, 0x08, 0x00, 0x01, 0x03, 0x01, 0x00, 0x12, 0x04, 0x10, 0x00,
    0x05, 0x05, 0x04, 0x01, 0x03, 0x05, 0x05, 0x02, 0x0c, 0x06, 0x05, 0x00, 0x0f, 0x06, 0x00, 0x00,
    0x10, 0x00, 0x00, 0x00, 0x0d, 0x06, 0x03, 0x00, 0x11, 0x00, 0x00, 0x00, 0x11, 0x00, 0x00, 0x00,
    0x01, 0x01, 0x08, 0x00, 0x01, 0x02, 0x48, 0x00, 0x12, 0x04, 0x20, 0x00, 0x05, 0x05, 0x04, 0x01,
    0x03, 0x05, 0x05, 0x02, 0x0c, 0x06, 0x05, 0x00, 0x0f, 0x06, 0x00, 0x00, 0x10, 0x00, 0x00, 0x00,
    0x01, 0x03, 0x04, 0x00, 0x03, 0x05, 0x05, 0x03, 0x0c, 0x07, 0x05, 0x00, 0x0d, 0x06, 0x07, 0x00,
    0x11, 0x00, 0x00, 0x00, 0x11, 0x00, 0x00, 0x00,
];

/// `SET 0 328`: block 0 uses 328 bytes.
const CATALOGUE_SIZE: [u8; 4] = [0x01, 0x00, 0x48, 0x01];

/// `SET 0 512`: a block of data, or a template's, uses all its bytes.
const DATA_SIZE: [u8; 4] = [0x01, 0x00, 0x00, 0x02];

/// The template of type 0, 1 or 2, decoded and verified: that of block 0, of a template's block and of a block of data.
/// `Err` comes only for want of memory.
pub fn builtin(alloc: Global, ty: u32) -> Result<Template, AllocError>
    requires { ty < 3 }
    ensures { IfOk result (λ template. template ≡ built_in ty) }
{
    if ty == 0 {
        known_template(alloc, &CATALOGUE, &CATALOGUE_SIZE)
    } else {
        known_template(alloc, &[], &DATA_SIZE)
    }
}

/// The template whose two programs have this code, where they make one.
fn known_template(alloc: Global, owns_code: &[u8], size_code: &[u8]) -> Result<Template, AllocError>
    requires short { length owns_code.now + length size_code.now ≤ 508 }
    requires right { IsOk (template_of_code owns_code.now size_code.now) }
    ensures { IfOk result (λ template. template_of_code owns_code.now size_code.now ≡ Ok template) }
{
    let mut owns = ArrayVec::<Word, 127>::new();
    let mut size = ArrayVec::<Word, 127>::new();
    match read_programs(owns_code, size_code, &mut owns, &mut size) {
        Ok(()) => keep_programs(alloc, owns.as_slice(), size.as_slice()),
        Err(_) => unreachable!(),
    }
}
