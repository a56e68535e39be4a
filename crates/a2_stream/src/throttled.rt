//! Readers and writers for tests that cut pieces short and fail on purpose.
ghost use Rattle.std.specs.Prelude.{◌≡◌, ◌<◌, All, IsErr, Ok, length, take};
ghost use Rattle.a2_stream.specs.Stream.{Reads, Writes, endless};
ghost use Rattle.a2_stream.specs.Throttled.{FailsAs, after_call};

use crate::failures::{counted, is_failed_write};
use crate::{Input, Output, ReadFault, WriteFault};
use std::marker::Model;

/// How a call fails once no more calls go through.
#[derive(Clone, Copy, Debug, PartialEq, Eq)]
pub enum Failing {
    /// With an error.
    Refuses,
    /// A write takes 0 bytes. A read that returns 0 bytes would mean the end of the input, so a read fails with an
    /// error here too.
    TakesNothing,
}

/// A reader or writer that lets a limited number of bytes through in each call, and a limited number of calls. Every
/// later call fails. Contracts can see the inner reader or writer, the limits, and the number of failed calls.
#[derive(Drop)]
pub struct Throttled<T> {
    inner: T,
    per_call: usize,
    calls: u64,
    failing: Failing,
    failed: u64,
}

impl<T> Model for Throttled<T> {
    ghost use Rattle.std.specs.Prelude.{◌<◌};
    ghost use Rattle.a2_stream.specs.Throttled.{Throttling};

    ghost Value = { Throttling T };

    ghost view = { λ p. record {
      inner = p.inner;
      throttle = record { per_call = p.per_call; calls = p.calls; failing = p.failing };
      failures = p.failed;
    } };

    ghost invariant = { λ p. 0 < p.per_call };
}

impl<T> Throttled<T> {
    /// Limits `inner`. At most `per_call` bytes, 1 or more, go through in a call. The first `calls` calls go through,
    /// and each later call fails as `failing` says. No call has failed yet.
    pub fn new(inner: T, per_call: usize, calls: u64, failing: Failing) -> Throttled<T>
        requires { 0 < per_call }
        ensures { result ≡ record {
          inner = inner;
          throttle = record { per_call = per_call; calls = calls; failing = failing };
          failures = 0;
        } }
    {
        Throttled {
            inner,
            per_call,
            calls,
            failing,
            failed: 0,
        }
    }
}

impl<I: Input> Input for Throttled<I> {
    ghost giver = { λ p. record { bytes = (I.giver p.inner).bytes; failures = p.failures } };

    fn read(&mut self, buffer: &mut [u8]) -> Result<usize, ReadFault>
        ensures reads { Reads (⟦<Throttled<I> as Input>⟧.giver self.old) (⟦<Throttled<I> as Input>⟧.giver self.new) result buffer.new }
        // a call that goes through is one read of the inner reader, into only the allowed part of the buffer
        ensures through { 0 < self.old.throttle.calls →
            Reads (I.giver self.old.inner) (I.giver self.new.inner) result (take self.old.throttle.per_call buffer.new) }
        ensures following { self.old.throttle.calls ≡ 0 → IsErr result × (self.new.inner ≡ self.old.inner) }
        ensures throttle { self.new.throttle ≡ after_call self.old.throttle }
    {
        let given = if self.calls == 0 {
            Err(ReadFault)
        } else {
            self.calls -= 1;
            let room = buffer.len().min(self.per_call);
            self.inner.read(&mut buffer[..room])
        };
        self.failed = counted(self.failed, given.is_err());
        given
    }
}

impl<O: Output> Output for Throttled<O> {
    ghost taker = { λ p. record { bytes = (O.taker p.inner).bytes; failures = p.failures } };

    fn write(&mut self, piece: &[u8]) -> Result<usize, WriteFault>
        ensures writes { Writes (⟦<Throttled<O> as Output>⟧.taker self.old) (⟦<Throttled<O> as Output>⟧.taker self.new)
            result piece.now }
        // a call that goes through is one write of the inner writer, with only the allowed part of the piece
        ensures through { 0 < self.old.throttle.calls →
            Writes (O.taker self.old.inner) (O.taker self.new.inner) result (take self.old.throttle.per_call piece.now) }
        ensures following { self.old.throttle.calls ≡ 0 →
            FailsAs self.old.throttle.failing result × (self.new.inner ≡ self.old.inner) }
        ensures throttle { self.new.throttle ≡ after_call self.old.throttle }
    {
        let taken = if self.calls > 0 {
            self.calls -= 1;
            let room = piece.len().min(self.per_call);
            self.inner.write(&piece[..room])
        } else {
            match self.failing {
                Failing::Refuses => Err(WriteFault),
                Failing::TakesNothing => Ok(0),
            }
        };
        self.failed = counted(self.failed, is_failed_write(&taken, piece));
        taken
    }
}

/// A reader that returns this byte without end. Each read fills its buffer, and none fails.
#[derive(Clone, Copy, Debug)]
pub struct Endless(pub u8);

impl Input for Endless {
    ghost giver = { λ _. endless };

    fn read(&mut self, buffer: &mut [u8]) -> Result<usize, ReadFault>
        ensures read { Reads endless endless result buffer.new }
        ensures full { result ≡ Ok (length buffer.new) }
        ensures bytes { All (λ byte. byte ≡ self.old.0) buffer.new }
    {
        buffer.fill(self.0);
        Ok(buffer.len())
    }
}
