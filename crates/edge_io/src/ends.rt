//! The two ends that a program meets the world by, and the write of a whole piece.
ghost use Rattle.std.specs.Prelude.{◌≡◌, ℕ, ◌^◌, ◌<◌, ◌≤◌, List, length, take, Option, OnOk, OnErr, IfOk, IfErr};
ghost use Rattle.std.specs.Io.{ReadsAtMost, WritesAtMost};
ghost use Rattle.std.specs.Io.KnownBytes.{Appends, ReadConsumes, WriteAppends};
ghost use Rattle.edge_io.specs.Causes.{HasCause};

/// A call on an end failed. The end's count of faults says so too.
#[derive(Clone, Copy, Debug, PartialEq, Eq)]
pub struct Failed;

/// A write stopped at a fault, with only the first `written` bytes appended.
#[derive(Clone, Copy, Debug, PartialEq, Eq)]
pub struct Partial {
    pub written: u64,
}

/// An end that gives bytes. `left` is the bytes still to come, where they are known, and `faults`
/// counts the calls that failed, up to the greatest `u64`.
pub trait Source {
    ghost left: { Self → Option (List ℕ) };

    ghost faults: { Self → ℕ };

    /// Takes bytes from the front of `left` into the front of `buf`, and says how many. None means
    /// the end of input, unless `buf` is empty.
    fn read(&mut self, buf: &mut [u8]) -> Result<usize, Failed>
        ensures bound { ReadsAtMost result buf.new }
        ensures bytes { ReadConsumes (left self.old) (left self.new) result buf.new }
        ensures cause { HasCause (faults self.old) (faults self.new) result }
        ensures kept { faults self.old ≤ faults self.new }
        ensures few { faults self.new < 2 ^ 64 };
}

/// An end that takes bytes. `written` is the bytes that it has taken, where they are known, `flushed`
/// those of them that have been flushed, and `faults` counts the calls that failed, up to the
/// greatest `u64`.
pub trait Sink {
    ghost written: { Self → Option (List ℕ) };

    ghost flushed: { Self → Option (List ℕ) };

    ghost faults: { Self → ℕ };

    /// Appends a front of `bytes`, and says how many bytes that is.
    fn write(&mut self, bytes: &[u8]) -> Result<usize, Failed>
        ensures bound { WritesAtMost result bytes.now }
        ensures some { IfOk result (λ n. 0 < length bytes.now → 0 < n) }
        ensures bytes { WriteAppends (written self.old) (written self.new) result bytes.now }
        ensures flushed { flushed self.new ≡ flushed self.old }
        ensures cause { HasCause (faults self.old) (faults self.new) result }
        ensures kept { faults self.old ≤ faults self.new }
        ensures few { faults self.new < 2 ^ 64 };

    /// Hands on all that was written.
    fn flush(&mut self) -> Result<(), Failed>
        ensures bytes { written self.new ≡ written self.old }
        ensures done { OnOk result (flushed self.new ≡ written self.new) }
        ensures failed { OnErr result (flushed self.new ≡ flushed self.old) }
        ensures cause { HasCause (faults self.old) (faults self.new) result }
        ensures kept { faults self.old ≤ faults self.new }
        ensures few { faults self.new < 2 ^ 64 };
}

/// Writes all of `bytes`, in as many calls as the sink needs. It stops at the first call that fails,
/// and flushes nothing.
pub fn write_whole<K: Sink>(sink: &mut K, bytes: &[u8]) -> Result<(), Partial>
    ensures ok { OnOk result (Appends (K.written sink.old) (K.written sink.new) bytes.now) }
    ensures within { IfErr result (λ p. p.written < length bytes.now) }
    ensures partial { IfErr result (λ p.
        Appends (K.written sink.old) (K.written sink.new) (take p.written bytes.now)) }
    ensures flushed { K.flushed sink.new ≡ K.flushed sink.old }
    ensures cause { HasCause (K.faults sink.old) (K.faults sink.new) result }
    ensures kept { K.faults sink.old ≤ K.faults sink.new }
{
    let mut written = 0;
    while written < bytes.len() {
        match sink.write(&bytes[written..]) {
            Ok(count) => written += count,
            Err(Failed) => {
                return Err(Partial {
                    written: written as u64,
                });
            }
        }
    }
    Ok(())
}
