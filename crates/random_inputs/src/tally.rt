// What the check answered.

use crash_check::{ImageFault, Report};
use std::alloc::{AllocError, Global};

/// How many images were checked, how many of them are sound, how many blocks those reach, and a hash of all answers.
#[derive(Drop)]
pub struct Tally {
    pub images: usize,
    pub sound: usize,
    pub reached: usize,
    pub hash: u64,
}

impl Tally {
    /// Before the first answer.
    pub fn new() -> Tally {
        Tally {
            images: 0,
            sound: 0,
            reached: 0,
            hash: 0xcbf29ce484222325,
        }
    }

    fn note(&mut self, bytes: &[u8]) {
        for byte in bytes {
            self.hash = (self.hash ^ u64::from(*byte)).wrapping_mul(0x100000001b3);
        }
    }

    fn note_report(&mut self, report: &Report) {
        self.sound = self.sound.wrapping_add(1);
        self.reached = self.reached.wrapping_add(report.reached.len());
        for (block, ty) in &report.reached {
            self.note(&block.to_le_bytes());
            self.note(&ty.to_le_bytes());
        }
        for block in &report.free {
            self.note(&block.to_le_bytes());
        }
    }

    /// Takes an answer: the reached blocks with their types, then the free ones; or the fault as it is printed.
    pub fn take(
        &mut self,
        alloc: Global,
        answer: &Result<Report, ImageFault>,
    ) -> Result<(), AllocError> {
        self.images = self.images.wrapping_add(1);
        match answer {
            Ok(report) => self.note_report(report),
            Err(fault) => self.note(format!(in alloc; "{fault}")?.as_bytes()),
        }
        Ok(())
    }
}
