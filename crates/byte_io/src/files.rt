//! The files of a host, by their names.
//!
//! No contract can say what a disk holds, so a host tells here, in its ghost members, what its files hold, as far as that
//! is known: what is read of a file is what it holds, and what was written is what it holds once it was closed. Until then, and
//! where the writing was given up, every file holds what it held.

ghost use Rattle.std.specs.Prelude.{◌≡◌, ℕ, List, Bool, Option, Some, [], IsTrue, OnOk, OnErr, false};

use crate::streams::{Sink, Source, StreamFault};

/// Opens and creates files.
pub trait Files {
    /// A file that is read, or one that couldn't be opened.
    type Reader: Source + Drop;

    /// A file that is written, or one that couldn't be created.
    type Writer: Sink;

    /// Whether it tells what its files hold.
    ghost tells: { Self → Bool };

    /// What the file of a name holds; nothing where there is none.
    ghost holds: { Self → List ℕ → Option (List ℕ) };

    /// Whether the file of a name can be opened.
    ghost can_open: { Self → List ℕ → Bool };

    /// Whether the file of a name can be created.
    ghost can_create: { Self → List ℕ → Bool };

    /// Whether the file of a name can fail.
    ghost can_fail: { Self → List ℕ → Bool };

    /// Opens the file of a name, to be read.
    fn open(&self, name: &str) -> Self::Reader
        ensures bytes { IsTrue (tells self.now) → IsTrue (Self.Reader.is_there result) → Self.Reader.left result ≡ holds self.now name.now }
        ensures there { IsTrue (Self.Reader.is_there result) → IsTrue (can_open self.now name.now) }
        ensures fault { IsTrue (Self.Reader.can_fail result) → IsTrue (can_fail self.now name.now) };

    /// Begins the file of a name, empty. It takes the place of one that is there once it is closed.
    fn create(&mut self, name: &str) -> Self::Writer
        ensures bytes { IsTrue (tells self.old) → IsTrue (Self.Writer.is_there result) → Self.Writer.written result ≡ Some [] }
        ensures file { IsTrue (Self.Writer.is_of result name.now) }
        ensures there { IsTrue (Self.Writer.is_there result) → IsTrue (can_create self.old name.now) }
        ensures fault { IsTrue (Self.Writer.can_fail result) → IsTrue (can_fail self.old name.now) }
        ensures same { tells self.new ≡ tells self.old }
        ensures fails { can_fail self.new ≡ can_fail self.old }
        ensures held { IsTrue (tells self.old) → holds self.new ≡ holds self.old };

    /// Closes a file that was written: its name holds what was written, and every other file holds what it held. At a fault each
    /// holds what it held.
    fn close(&mut self, file: Self::Writer) -> Result<(), StreamFault>
        ensures bytes { OnOk result ((name : List ℕ) → IsTrue (tells self.old) → IsTrue (Self.Writer.is_there file)
            → IsTrue (Self.Writer.is_of file name) → holds self.new name ≡ Self.Writer.written file) }
        ensures others { (name : List ℕ) → IsTrue (tells self.old) → Self.Writer.is_of file name ≡ false
            → holds self.new name ≡ holds self.old name }
        ensures fault { OnErr result ((name : List ℕ) → IsTrue (Self.Writer.is_of file name) → IsTrue (can_fail self.old name)) }
        ensures err { OnErr result (IsTrue (tells self.old) → holds self.new ≡ holds self.old) };

    /// Gives up a file that couldn't be written whole: every file holds what it held.
    fn give_up(&mut self, file: Self::Writer)
        ensures { IsTrue (tells self.old) → holds self.new ≡ holds self.old };
}
