ghost use Rattle.std.specs.Prelude.{◌≡◌, ◌<◌, ◌≤◌, ◌+◌, ◌-◌, IfSome, IfNone, OnSome};
ghost use Rattle.ddl_ops.specs.Streams.{front, behind};
ghost use Rattle.ddl_stream.specs.Ranges.{IsPart, IsEnd};

use ddl_slots::Stream;

/// How many bytes a stream has.
fn remaining(stream: Stream) -> u64
    ensures { result ≡ stream.to - stream.from }
{
    stream.to.saturating_sub(stream.from)
}

/// The first `n` bytes of a stream; none where fewer are there.
pub fn take(stream: Stream, n: u64) -> Option<Stream>
    ensures part { IfSome result (λ part. part ≡ record stream { to = stream.from + n }) }
    ensures enough { OnSome result (n ≤ stream.to - stream.from) }
    ensures short { IfNone result (stream.to - stream.from < n) }
    ensures meaning { IsPart front n stream result }
{
    let left = remaining(stream);
    if left < n {
        return None;
    }
    Some(Stream {
        origin: stream.origin,
        from: stream.from,
        to: stream.from + n,
    })
}

/// All but the first `n` bytes of a stream; none where fewer are there.
pub fn drop(stream: Stream, n: u64) -> Option<Stream>
    ensures part { IfSome result (λ part. part ≡ record stream { from = stream.from + n }) }
    ensures enough { OnSome result (n ≤ stream.to - stream.from) }
    ensures short { IfNone result (stream.to - stream.from < n) }
    ensures meaning { IsPart behind n stream result }
{
    if remaining(stream) < n {
        return None;
    }
    Some(Stream {
        origin: stream.origin,
        from: stream.from + n,
        to: stream.to,
    })
}

/// Where a stream begins.
pub fn offset(stream: Stream) -> u64
    ensures { result ≡ stream.from }
{
    stream.from
}

/// Whether no byte is left.
pub fn at_end(stream: Stream) -> bool
    ensures { IsEnd stream result }
{
    stream.to <= stream.from
}
