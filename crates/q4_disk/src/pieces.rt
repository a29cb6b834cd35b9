ghost use Rattle.std.specs.Prelude.{◌≡◌, ◌≤◌, ◌^◌, ℕ, Bool, length, take, IsTrue, IfOk, OnOk, OnErr};
ghost use Rattle.q4_disk.specs.Pieces.{FileView, file_after_write, file_after_cut, file_after_sync, IsPiece, IsWholeRead};

use std::fs::File;
use std::io;
use std::os::unix::fs::FileExt;

// Where no byte of a file can stand.
const NO_OFFSET: u64 = 1 << 63;

/// A file that is read and written at offsets. A call may give or take fewer bytes than it is asked
/// for.
pub(crate) trait Pieces: Drop {
    /// Whether files of this type tell what they hold.
    ghost tells: { Bool };

    /// What a file holds, where it tells it.
    ghost holds: { Self → FileView };

    fn size(&self) -> io::Result<u64>
        ensures { IsTrue tells → IfOk result (λ n. n ≡ length (holds self.now).bytes) };

    /// Gives no byte at the end alone. Where it fails the slice stays.
    fn read_piece(&self, at: u64, into: &mut [u8]) -> io::Result<usize>
        ensures room { IfOk result (λ n. n ≤ length into.old) }
        ensures read { IsTrue tells →
            IfOk result (IsPiece (holds self.now).bytes at into.old into.new) }
        ensures kept { IsTrue tells → OnErr result (into.new ≡ into.old) };

    /// Takes a front of the bytes. Where it fails it takes none.
    fn write_piece(&mut self, at: u64, new: &[u8]) -> io::Result<usize>
        requires { IsTrue tells → at ≤ length (holds self.old).bytes }
        ensures room { IfOk result (λ n. n ≤ length new.now) }
        ensures wrote { IsTrue tells → IfOk result
            (λ n. holds self.new ≡ file_after_write (holds self.old) at (take n new.now)) }
        ensures kept { IsTrue tells → OnErr result (holds self.new ≡ holds self.old) };

    /// Cuts it to a length. Where it fails it cuts nothing.
    fn cut_to(&mut self, to: u64) -> io::Result<()>
        requires { IsTrue tells → to ≤ length (holds self.old).bytes }
        ensures cut { IsTrue tells →
            OnOk result (holds self.new ≡ file_after_cut (holds self.old) to) }
        ensures kept { IsTrue tells → OnErr result (holds self.new ≡ holds self.old) };

    /// Syncs the bytes and what is needed to find them, the length among it, and no times.
    fn sync(&mut self) -> io::Result<()>
        ensures synced { IsTrue tells →
            OnOk result (holds self.new ≡ file_after_sync (holds self.old)) }
        ensures kept { IsTrue tells → OnErr result (holds self.new ≡ holds self.old) };
}

/// A real file tells nothing of what it holds.
impl Pieces for File {
    ghost use Rattle.std.specs.Prelude.{false, []};

    ghost tells = { false };

    ghost holds = { λ file. record { bytes = []; synced = 0 } };

    fn size(&self) -> io::Result<u64> {
        Ok(self.metadata()?.len())
    }

    fn read_piece(&self, at: u64, into: &mut [u8]) -> io::Result<usize> {
        self.read_at(into, at)
    }

    fn write_piece(&mut self, at: u64, new: &[u8]) -> io::Result<usize> {
        self.write_at(new, at)
    }

    fn cut_to(&mut self, to: u64) -> io::Result<()> {
        self.set_len(to)
    }

    fn sync(&mut self) -> io::Result<()> {
        self.sync_data()
    }
}

/// Reads until the slice is full or the bytes end, in as many reads as that takes.
pub(crate) fn read_full<F: Pieces>(file: &F, at: u64, into: &mut [u8]) -> io::Result<usize>
    requires { IsTrue F.tells → length (F.holds file.now).bytes ≤ 2 ^ 63 }
    ensures room { IfOk result (λ n. n ≤ length into.old) }
    ensures read { IsTrue F.tells →
        IfOk result (IsWholeRead (F.holds file.now).bytes at into.old into.new) }
{
    let mut done = 0;
    for _ in 0..u64::MAX {
        if done >= into.len() || at >= NO_OFFSET - done as u64 {
            return Ok(done);
        }
        match file.read_piece(at + done as u64, &mut into[done..]) {
            Ok(0) => return Ok(done),
            Ok(count) => done += count,
            Err(fault) if fault.kind() == io::ErrorKind::Interrupted => {}
            Err(fault) => return Err(fault),
        }
    }
    Err(io::ErrorKind::TimedOut.into())
}

/// Writes all of it, in as many writes as that takes. Where it fails it has written a front.
pub(crate) fn write_full<F: Pieces>(file: &mut F, at: u64, new: &[u8]) -> io::Result<()>
    requires { IsTrue F.tells → at ≤ length (F.holds file.old).bytes }
    ensures wrote { IsTrue F.tells →
        OnOk result (F.holds file.new ≡ file_after_write (F.holds file.old) at new.now) }
    ensures front { IsTrue F.tells → OnErr result
        ((n : ℕ) × (F.holds file.new ≡ file_after_write (F.holds file.old) at (take n new.now))) }
{
    if new.len() as u64 > NO_OFFSET || at > NO_OFFSET - new.len() as u64 {
        return Err(io::ErrorKind::FileTooLarge.into());
    }
    let mut done = 0;
    for _ in 0..u64::MAX {
        if done >= new.len() {
            return Ok(());
        }
        match file.write_piece(at + done as u64, &new[done..]) {
            Ok(0) => return Err(io::ErrorKind::WriteZero.into()),
            Ok(count) => done += count,
            Err(fault) if fault.kind() == io::ErrorKind::Interrupted => {}
            Err(fault) => return Err(fault),
        }
    }
    Err(io::ErrorKind::TimedOut.into())
}
