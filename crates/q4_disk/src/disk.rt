ghost use Rattle.std.specs.Prelude.{◌≡◌, ℕ, ◌≤◌, length, IsTrue, IfOk};
ghost use Rattle.q4_disk.specs.Told.{Sides, Told};
ghost use Rattle.q4_disk.specs.Images.{size};
ghost use Rattle.q4_disk.specs.Calls.{IsCall, IsWrite, IsSync, Sized, Read, Wrote, DidCut, Synced};

use crate::tally::DeviceCall;

/// One of the two files of a table.
#[derive(Clone, Copy, Debug, PartialEq, Eq)]
pub enum Side {
    A,
    B,
}

/// A call of a disk failed, and its count of faults rose.
#[derive(Clone, Copy, Debug, PartialEq, Eq)]
pub struct DiskFailed;

/// A disk of two sides. Offsets and sizes are in bytes.
///
/// A disk may be honest: then its clauses say what is read and what a crash may leave.
/// `docs/DECISIONS.md`, "Disks", says what that takes of a real one.
pub trait Disk: Drop {
    /// What contracts see of it.
    ghost told: { Self → Told };

    /// The number of bytes of a side.
    fn size(&mut self, side: Side) -> Result<u64, DiskFailed>
        ensures call { IsCall (DeviceCall.Size side) result (told self.old) (told self.new) }
        ensures size { IsTrue (told self.old).honest →
            Sized side result (told self.old) (told self.new) };

    /// Reads as many bytes as stand after `at`, at most the slice's length, and tells how many.
    /// After a failure the slice may hold anything.
    fn read(&mut self, side: Side, at: u64, into: &mut [u8]) -> Result<usize, DiskFailed>
        ensures call { IsCall (DeviceCall.Read side at (length into.old)) result
            (told self.old) (told self.new) }
        ensures room { IfOk result (λ n. n ≤ length into.old) }
        ensures read { IsTrue (told self.old).honest →
            Read side at into.old into.new result (told self.old) (told self.new) };

    /// Writes over what is there, and past the end. `at` is at most the size.
    /// After a failure any of it may be read, as after a crash.
    fn write(&mut self, side: Side, at: u64, bytes: &[u8]) -> Result<(), DiskFailed>
        requires { IsTrue (told self.old).honest → at ≤ size side (told self.old).bytes }
        ensures call { IsWrite side at (length bytes.now) result (told self.old) (told self.new) }
        ensures write { IsTrue (told self.old).honest →
            Wrote side at bytes.now result (told self.old) (told self.new) };

    /// Cuts a side to a length, which is at most the size.
    /// After a failure what is past the cut may be read as anything, or be gone.
    fn cut(&mut self, side: Side, length: u64) -> Result<(), DiskFailed>
        requires { IsTrue (told self.old).honest → length ≤ size side (told self.old).bytes }
        ensures call { IsCall (DeviceCall.CutTo side length) result
            (told self.old) (told self.new) }
        ensures cut { IsTrue (told self.old).honest →
            DidCut side length result (told self.old) (told self.new) };

    /// Makes a side durable: after success a crash leaves of it what a read gives.
    fn sync(&mut self, side: Side) -> Result<(), DiskFailed>
        ensures call { IsSync side result (told self.old) (told self.new) }
        ensures sync { IsTrue (told self.old).honest →
            Synced side result (told self.old) (told self.new) };

    /// How often a call has failed. This is no call of the device.
    fn faults(&self) -> u64
        ensures { result ≡ (told self.now).faults };

    /// This moment is one of those since an earlier one.
    ghost counts_now: { (disk : Self) → IsTrue (told disk).honest → (t : ℕ) (c : Sides) →
        t ≤ (told disk).moment → (told disk).images c → (told disk).since t c };

    /// Since this moment there is no other.
    ghost only_now: { (disk : Self) → IsTrue (told disk).honest → (c : Sides) →
        (told disk).since (told disk).moment c → (told disk).images c };

    /// What is read is one of the images.
    ghost reads_image: { (disk : Self) → IsTrue (told disk).honest →
        (told disk).images (told disk).bytes };
}
