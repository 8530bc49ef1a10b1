ghost use Rattle.std.specs.Prelude.{◌≡◌, ℕ, List, ◌⊎◌, OnOk, OnErr, IfOk, Result, false, bytes_eq};
ghost use Rattle.disk.specs.Lanes.{CountsOne, LeavesNoMore, LeavesOnly, LeavesAlso, done_or};

use store_types::BLOCK_LEN;

/// The device failed to do what it was asked.
#[derive(Clone, Copy, Debug, PartialEq, Eq)]
pub struct DeviceFault;

/// The one value through which a block is read and written.
///
/// This trait is what is assumed of a device. One block is written in one step: no reader and no crash ever finds part of
/// the old bytes beside part of the new ones. Once `write` has answered, what a read gives is settled: after `Ok` the new
/// bytes, after `Err` all the old bytes or all the new ones, until the next write through this lane. Nothing else writes the
/// block.
///
/// The device may hold a write until it is synced. After `sync` has answered `Ok` a crash leaves in the block what a read
/// gives, until the next write. After that it may leave that, or the bytes given to a write since, well done or not. After
/// `Err` no more is known than before.
///
/// A device fault is answered only where the device really failed: each one adds 1 to the count of faults (after 2^64 - 1
/// comes 0), and nothing else changes that count.
pub trait Lane {
    ghost use Rattle.disk.specs.declared.lane.DeviceFault.{DeviceFault};

    /// Which block it is.
    ghost number_of: { Self → ℕ };

    /// The 512 bytes that the block holds, which a read gives.
    ghost bytes_of: { Self → List ℕ };

    /// Which bytes a crash may leave in the block.
    ghost crash_leaves: { Self → List ℕ → Type 0 };

    /// How often the device has failed.
    ghost faults_of: { Self → ℕ };

    /// What a read may answer, and the lane after it. A device of which nothing is known allows all.
    ghost read_gives: { Self → Result (Unit {0}) DeviceFault → Self → Type 0 };

    /// What a write of these bytes may answer, and the lane after it.
    ghost write_gives: { Self → List ℕ → Result (Unit {0}) DeviceFault → Self → Type 0 };

    /// What a sync may answer, and the lane after it.
    ghost sync_gives: { Self → Result (Unit {0}) DeviceFault → Self → Type 0 };

    /// The number of the block.
    fn number(&self) -> u32
        ensures { result ≡ number_of self.now };

    /// The count of the device faults that this lane has answered.
    fn faults(&self) -> u64
        ensures { result ≡ faults_of self.now };

    /// Reads the block. What `into` holds after a fault is left open.
    fn read(&mut self, into: &mut [u8; BLOCK_LEN]) -> Result<(), DeviceFault>
        ensures read { OnOk result (into.new ≡ bytes_of self.old) }
        ensures bytes { bytes_of self.new ≡ bytes_of self.old }
        ensures crash { LeavesNoMore (crash_leaves self.old) (crash_leaves self.new) }
        ensures number { number_of self.new ≡ number_of self.old }
        ensures faults_ok { OnOk result (faults_of self.new ≡ faults_of self.old) }
        ensures faults_err { OnErr result (CountsOne (faults_of self.old) (faults_of self.new)) }
        ensures gives { read_gives self.old result self.new };

    /// Reads the block, and compares it with these bytes. Answers whether they stand there; where they don't, `other` has what does,
    /// and else what it holds is left open.
    fn compare(
        &mut self,
        with: &[u8; BLOCK_LEN],
        other: &mut [u8; BLOCK_LEN],
    ) -> Result<bool, DeviceFault>
        ensures same { IfOk result (λ same. same ≡ bytes_eq (bytes_of self.old) with.now) }
        ensures other { IfOk result (λ same. same ≡ false → other.new ≡ bytes_of self.old) }
        ensures bytes { bytes_of self.new ≡ bytes_of self.old }
        ensures crash { LeavesNoMore (crash_leaves self.old) (crash_leaves self.new) }
        ensures number { number_of self.new ≡ number_of self.old }
        ensures faults_ok { OnOk result (faults_of self.new ≡ faults_of self.old) }
        ensures faults_err { OnErr result (CountsOne (faults_of self.old) (faults_of self.new)) }
        ensures gives { read_gives self.old (done_or result) self.new }
    {
        self.read(other)?;
        Ok(*other == *with)
    }

    /// Writes the block in one step.
    fn write(&mut self, from: &[u8; BLOCK_LEN]) -> Result<(), DeviceFault>
        ensures written { OnOk result (bytes_of self.new ≡ from.now) }
        ensures old_or_new { OnErr result ((bytes_of self.new ≡ bytes_of self.old) ⊎ (bytes_of self.new ≡ from.now)) }
        ensures crash { LeavesNoMore (LeavesAlso (crash_leaves self.old) from.now) (crash_leaves self.new) }
        ensures number { number_of self.new ≡ number_of self.old }
        ensures faults_ok { OnOk result (faults_of self.new ≡ faults_of self.old) }
        ensures faults_err { OnErr result (CountsOne (faults_of self.old) (faults_of self.new)) }
        ensures gives { write_gives self.old from.now result self.new };

    /// Settles the block: after `Ok` a crash leaves in it what a read gives.
    fn sync(&mut self) -> Result<(), DeviceFault>
        ensures settled { OnOk result (LeavesOnly (bytes_of self.new) (crash_leaves self.new)) }
        ensures crash { OnErr result (LeavesNoMore (crash_leaves self.old) (crash_leaves self.new)) }
        ensures bytes { bytes_of self.new ≡ bytes_of self.old }
        ensures number { number_of self.new ≡ number_of self.old }
        ensures faults_ok { OnOk result (faults_of self.new ≡ faults_of self.old) }
        ensures faults_err { OnErr result (CountsOne (faults_of self.old) (faults_of self.new)) }
        ensures gives { sync_gives self.old result self.new };
}
