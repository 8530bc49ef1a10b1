// How many of some calls do what they should, and why one gives no value.

use crash_check::ImageFault;
use std::alloc::AllocError;
use templates::{FormatFault, TemplateFault};
use udf_asm::{AsmFault, AsmKind};
use udf_code::CodeFault;
use udf_verify::{FaultKind, VerifyFault};

/// How many are true.
pub fn count(done: &[bool]) -> u32 {
    let mut count = 0u32;
    for one in done {
        if *one {
            count = count.saturating_add(1);
        }
    }
    count
}

/// Why a call gave no value: there was no memory, or it told another fault.
#[derive(Clone, Copy, Drop)]
pub enum Miss {
    NoMemory,
    Wrong,
}

impl Miss {
    /// By whether a fault is want of memory.
    pub fn of(is_no_memory: bool) -> Miss {
        if is_no_memory {
            Miss::NoMemory
        } else {
            Miss::Wrong
        }
    }
}

impl From<AllocError> for Miss {
    fn from(_: AllocError) -> Miss {
        Miss::NoMemory
    }
}

impl From<AsmFault> for Miss {
    fn from(fault: AsmFault) -> Miss {
        Miss::of(fault.kind == AsmKind::NoMemory)
    }
}

impl From<CodeFault> for Miss {
    fn from(fault: CodeFault) -> Miss {
        Miss::of(fault == CodeFault::NoMemory)
    }
}

impl From<VerifyFault> for Miss {
    fn from(fault: VerifyFault) -> Miss {
        Miss::of(fault.kind == FaultKind::NoMemory)
    }
}

impl From<TemplateFault> for Miss {
    fn from(fault: TemplateFault) -> Miss {
        Miss::of(fault == TemplateFault::NoMemory)
    }
}

impl From<FormatFault> for Miss {
    fn from(fault: FormatFault) -> Miss {
        Miss::of(fault == FormatFault::NoMemory)
    }
}

impl From<ImageFault> for Miss {
    fn from(fault: ImageFault) -> Miss {
        Miss::of(fault == ImageFault::NoMemory)
    }
}
