// Laws of calls of sessions that change the bytes of files.

ghost use Rattle.std.specs.Prelude.{◌≡◌, ◌<◌, ℕ, ℤ, All, Err, List, Ok, Result, length};
ghost use Rattle.xn_model.specs.Types.{Types};
ghost use Rattle.xn_model.specs.Lives.{StoreState};
ghost use Rattle.treefs_model.specs.Changes.{truncated, written};
ghost use Rattle.treefs_model.specs.Files.{Files};
ghost use Rattle.treefs_model.specs.declared.fault.Fault.{Fault};
ghost use Rattle.treefs.specs.Sizing.{TruncateDoes};
ghost use Rattle.treefs.specs.declared.volume.Volume.{Volume};
ghost use Rattle.treefs_laws.specs.Kept.{files_in};
ghost use Rattle.treefs_laws.specs.Open.{IsOpen};
ghost use Rattle.treefs_laws.specs.Orphans.{IsReaped};
ghost use Rattle.treefs_laws.specs.Reading.{HasFewBytes};
ghost use Rattle.treefs_session.specs.Freeing.{MakesFreely};
ghost use Rattle.treefs_session.specs.Pieces.{WritesAll, WritesPiece};
ghost use Rattle.treefs_session.specs.declared.calls.bytes.Target.{Target};
ghost use Rattle.treefs_session.specs.declared.calls.bytes.Target.TheVariants.{Numbered};
ghost use Rattle.treefs_session_laws.specs.Before.{IsUnheld};
ghost use Rattle.treefs_session_laws.specs.Written.{ArePartlyWritten};

use treefs_laws::law::{refused_write_keeps_the_session, write_changes_bytes};

/// `truncate` by a session sets the size of a file or a symbolic link, and does nothing else, but that inodes without links that aren't held may be freed. A try
/// that is refused may have set the size; the next one then changes nothing more, since a size that is set twice at one time is set once.
pub fn sessions_set_a_size()
    ensures made { (T : Types) (held : List ℕ) (old new : StoreState) (volume volume' : Volume) (number size : ℕ) → IsOpen T old volume →
        MakesFreely (λ s s' v v' result. TruncateDoes T s s' v v' number size result) T held old new volume volume' (Ok tt) →
        IsOpen T new volume' × (files : Files) × (truncated (files_in old volume) volume.memory.clock number size ≡ Ok files)
        × IsReaped (IsUnheld held) files (files_in new volume') }
    ensures again { (files files' : Files) (time : ℤ) (number size : ℕ) → truncated files time number size ≡ Ok files' →
        truncated files' time number size ≡ Ok files' }
{}

/// Bytes that a session writes, piece by piece, over those of a file or a symbolic link: once all are written they stand there from a byte on, with zeros before
/// them where the file ended before, its times are the caller's, and nothing else changes, but that inodes without links that aren't held may be freed. Where
/// that stops the first of them are written, or none, and some of the first may stand over those that the file has then. Where there are none all is as it was.
/// Told is that the file has no more bytes than one may have, and so it is then.
pub fn sessions_write_bytes()
    ensures all { (T : Types) (held : List ℕ) (old new : StoreState) (volume volume' : Volume) (number at : ℕ) (bytes : List ℕ) → IsOpen T old volume →
        HasFewBytes (files_in old volume) number → All (λ b. b < 256) bytes → 0 < length bytes →
        WritesAll T held (Numbered number at) bytes old new volume volume' (Ok tt) →
        IsOpen T new volume' × (files : Files) × (written (files_in old volume) volume.memory.clock number at bytes (length bytes) ≡ Ok files)
        × IsReaped (IsUnheld held) files (files_in new volume') × HasFewBytes (files_in new volume') number }
    ensures part { (T : Types) (held : List ℕ) (old new : StoreState) (volume volume' : Volume) (number at : ℕ) (bytes : List ℕ) (fault : Fault) →
        IsOpen T old volume → HasFewBytes (files_in old volume) number → All (λ b. b < 256) bytes →
        WritesAll T held (Numbered number at) bytes old new volume volume' (Err fault) →
        IsOpen T new volume' × (taken : ℕ) × (files : Files)
        × ArePartlyWritten (files_in old volume) volume.memory.clock number at bytes taken files × IsReaped (IsUnheld held) files (files_in new volume')
        × HasFewBytes (files_in new volume') number }
    ensures none { (T : Types) (held : List ℕ) (old new : StoreState) (volume volume' : Volume) (target : Target) (bytes : List ℕ)
        (result : Result (Unit {0}) Fault) → length bytes ≡ 0 → WritesAll T held target bytes old new volume volume' result →
        (result ≡ Ok tt) × (new ≡ old) × (volume' ≡ volume) }
{
    write_changes_bytes();
    refused_write_keeps_the_session();
}

/// A piece of some bytes that a session writes is written, and has a byte; or none of them is. Some of the first of the bytes may stand over those that the file
/// has then, and inodes without links that aren't held may be freed; nothing else changes.
pub fn sessions_write_a_piece()
    ensures done { (T : Types) (held : List ℕ) (old new : StoreState) (volume volume' : Volume) (number at : ℕ) (bytes : List ℕ) (taken : ℕ) →
        IsOpen T old volume → HasFewBytes (files_in old volume) number → All (λ b. b < 256) bytes → 0 < length bytes →
        MakesFreely (WritesPiece T (Numbered number at) bytes) T held old new volume volume' (Ok taken) →
        (0 < taken) × IsOpen T new volume' × (files : Files)
        × ArePartlyWritten (files_in old volume) volume.memory.clock number at bytes taken files × IsReaped (IsUnheld held) files (files_in new volume')
        × HasFewBytes (files_in new volume') number }
    ensures refused { (T : Types) (held : List ℕ) (old new : StoreState) (volume volume' : Volume) (number at : ℕ) (bytes : List ℕ) (fault : Fault) →
        IsOpen T old volume → HasFewBytes (files_in old volume) number → All (λ b. b < 256) bytes →
        MakesFreely (WritesPiece T (Numbered number at) bytes) T held old new volume volume' (Err fault) →
        IsOpen T new volume' × (files : Files) × ArePartlyWritten (files_in old volume) volume.memory.clock number at bytes 0 files
        × IsReaped (IsUnheld held) files (files_in new volume') × HasFewBytes (files_in new volume') number }
{
    write_changes_bytes();
    refused_write_keeps_the_session();
}

/// Where a session frees inodes without links that aren't held, or parts of them, no file has more bytes than one may have.
pub fn sessions_leave_few_bytes()
    ensures { (held : List ℕ) (old new : Files) (m : ℕ) → IsReaped (IsUnheld held) old new → HasFewBytes old m → HasFewBytes new m }
{}
