// The rule of pairs, for any record with an offset and a length.
ghost use Rattle.std.specs.Prelude.{◌≡◌, map};
ghost use Rattle.rules.specs.Pairs.{Pair, laid};

// A record with an offset and a length.
pub trait Span {
    ghost pair: { Self → Pair };

    fn offset(&self) -> u32
        ensures { result ≡ (pair self.now).offset };

    fn length(&self) -> u32
        ensures { result ≡ (pair self.now).length };
}

// Whether each span starts at or after the end of the one before, and ends at or before the limit. Sums are taken in
// 64 bits, so that any offset and any length will do.
pub fn keep_the_rule<S: Span>(spans: &[S], limit: u32) -> bool
    ensures { result ≡ laid 0 limit (map S.pair spans.now) }
{
    let mut end: u64 = 0;
    for span in spans {
        let start = u64::from(span.offset());
        let stop = start + u64::from(span.length());
        if start < end || u64::from(limit) < stop {
            return false;
        }
        end = stop;
    }
    true
}
