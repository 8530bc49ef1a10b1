// The faults of bytes that spell no program. Those that an assembler's text can have are shown by transcripts.

use crate::disks::same;
use udf_code::{CodeFault, decode};

/// Bytes, and their faults.
static FAULTS: [(&[u8], CodeFault); 15] = [
    (&[0xff; 7], CodeFault::OddLength(4)),
    (&[0x00, 0, 0, 0], CodeFault::BadOp(0)),
    (&[0x14, 99, 0, 0], CodeFault::BadOp(0)),
    (&[0x02, 16, 0, 0], CodeFault::BadOperand(0)),
    (&[0x02, 0, 0, 1], CodeFault::BadOperand(0)),
    (&[0x09, 0, 0, 32], CodeFault::BadOperand(0)),
    (&[0x12, 0, 0, 0], CodeFault::BadOperand(0)),
    (&[0x12, 0, 1, 2], CodeFault::BadOperand(0)),
    (&[0x11, 0, 0, 0], CodeFault::Unmatched(0)),
    (&[0x11, 0, 0, 0, 0, 0, 0, 0], CodeFault::Unmatched(0)),
    (&[0x11, 1, 0, 0], CodeFault::BadOperand(0)),
    (&[0x12, 1, 2, 0], CodeFault::Unmatched(1)),
    (&[0x13, 1, 2, 0], CodeFault::MisplacedKeep(0)),
    (&[0x0e, 0, 1, 0, 0x13, 1, 2, 0], CodeFault::MisplacedKeep(1)),
    (
        &[0x0f, 0, 1, 0, 0x10, 0, 0, 0, 0x10, 0, 0, 0],
        CodeFault::Unmatched(2),
    ),
];

#[test]
fn faults_of_bytes(rt: HostRuntime) {
    for (bytes, fault) in &FAULTS {
        same(
            &rt,
            "a fault",
            decode(rt.alloc(), bytes).err(),
            Some(*fault),
        );
    }
}
