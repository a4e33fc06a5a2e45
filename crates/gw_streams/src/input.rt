//! Readers.

ghost use Rattle.std.specs.Prelude.{◌≡◌, false};
ghost use Rattle.std.specs.Io.{ReadsAtMost};
ghost use Rattle.std.specs.Io.KnownBytes.{ReadConsumes};
ghost use Rattle.gw_streams.specs.Streams.{MarksFailure};

use std::io;
use std::io::Read;
use std::marker::Model;

/// A reader that remembers whether a call failed. Contracts see the bytes that it has left, and that mark.
#[derive(Drop)]
pub struct Input<R: Read> {
    reader: R,
    failed: bool,
}

impl<R: Read> Model for Input<R> {
    ghost use Rattle.gw_streams.specs.Streams.{Source};

    ghost Value = { Source };

    ghost view = { λ a. record { left = R.remaining a.reader; failed = a.failed } };
}

impl<R: Read> Input<R> {
    /// A reader of which no call has failed yet.
    pub fn new(reader: R) -> Input<R>
        ensures left { result.left ≡ R.remaining reader }
        ensures failed { result.failed ≡ false }
    {
        Input {
            reader,
            failed: false,
        }
    }

    /// The reader itself.
    pub fn into_inner(self) -> R
        ensures { R.remaining result ≡ self.left }
    {
        let Input { reader, failed: _ } = self;
        reader
    }

    /// Whether a call failed.
    pub fn has_failed(&self) -> bool
        ensures { result ≡ self.now.failed }
    {
        self.failed
    }

    /// One read, if none has failed. It answers how many bytes came; 0 is the end. Where it answers an error, the call failed.
    pub fn read(&mut self, buffer: &mut [u8]) -> io::Result<usize>
        requires { self.old.failed ≡ false }
        ensures bound { ReadsAtMost result buffer.new }
        ensures bytes { ReadConsumes self.old.left self.new.left result buffer.new }
        ensures failed { MarksFailure result self.old.failed self.new.failed }
    {
        match self.reader.read(buffer) {
            Ok(count) => Ok(count),
            Err(error) => {
                self.failed = true;
                Err(error)
            }
        }
    }
}
