//! Writers.

ghost use Rattle.std.specs.Prelude.{◌≡◌, ◌<◌, ◌≤◌, true, false, length, IfOk, MatchResult};
ghost use Rattle.std.specs.Io.KnownBytes.{Keeps, WriteAppends};
ghost use Rattle.gw_streams.specs.Streams.{MarksFailure};

use std::io;
use std::io::{ErrorKind, Write};
use std::marker::Model;

/// A writer that remembers whether a call failed, and whether bytes that it took wait for a flush. Contracts see the bytes
/// that it holds, and those marks.
#[derive(Drop)]
pub struct Output<W: Write> {
    writer: W,
    failed: bool,
    waits: bool,
}

impl<W: Write> Model for Output<W> {
    ghost use Rattle.gw_streams.specs.Streams.{Sink};

    ghost Value = { Sink };

    ghost view = { λ a. record { held = W.contents a.writer; failed = a.failed; waits = a.waits } };
}

impl<W: Write> Output<W> {
    /// A writer of which no call has failed yet, and in which nothing waits.
    pub fn new(writer: W) -> Output<W>
        ensures held { result.held ≡ W.contents writer }
        ensures failed { result.failed ≡ false }
        ensures waits { result.waits ≡ false }
    {
        Output {
            writer,
            failed: false,
            waits: false,
        }
    }

    /// The writer itself.
    pub fn into_inner(self) -> W
        ensures { W.contents result ≡ self.held }
    {
        let Output {
            writer,
            failed: _,
            waits: _,
        } = self;
        writer
    }

    /// Whether a call failed.
    pub fn has_failed(&self) -> bool
        ensures { result ≡ self.now.failed }
    {
        self.failed
    }

    /// Whether bytes that were taken wait for a flush.
    pub fn needs_flush(&self) -> bool
        ensures { result ≡ self.now.waits }
    {
        self.waits
    }

    /// One write of a text that isn't empty, if no call has failed. It answers how many bytes were taken, at least 1, and
    /// they wait for a flush. Where it answers an error, the call failed; so does one that takes no byte.
    pub fn write(&mut self, text: &[u8]) -> io::Result<usize>
        requires some { 0 < length text.now }
        requires unfailed { self.old.failed ≡ false }
        ensures taken { IfOk result (λ n. (0 < n) × (n ≤ length text.now)) }
        ensures bytes { WriteAppends self.old.held self.new.held result text.now }
        ensures failed { MarksFailure result self.old.failed self.new.failed }
        ensures waits { MatchResult result (λ _. self.new.waits ≡ true) (λ _. self.new.waits ≡ self.old.waits) }
    {
        match self.writer.write(text) {
            Ok(0) => {
                self.failed = true;
                Err(io::Error::from(ErrorKind::WriteZero))
            }
            Ok(count) => {
                self.waits = true;
                Ok(count)
            }
            Err(error) => {
                self.failed = true;
                Err(error)
            }
        }
    }

    /// One flush, if no call has failed. Where it succeeds, nothing waits any more; where it answers an error, the call
    /// failed.
    pub fn flush(&mut self) -> io::Result<()>
        requires { self.old.failed ≡ false }
        ensures bytes { Keeps self.old.held self.new.held }
        ensures failed { MarksFailure result self.old.failed self.new.failed }
        ensures waits { MatchResult result (λ _. self.new.waits ≡ false) (λ _. self.new.waits ≡ self.old.waits) }
    {
        match self.writer.flush() {
            Ok(()) => {
                self.waits = false;
                Ok(())
            }
            Err(error) => {
                self.failed = true;
                Err(error)
            }
        }
    }
}
