// The least and the most of several numbers.
ghost use Rattle.std.specs.Prelude.{◌≡◌};
ghost use Rattle.scene_sweep.specs.Spans.{span_of, span_with, spanned};

#[derive(Clone, Copy, PartialEq, Eq)]
pub struct Span {
    pub least: u32,
    pub most: u32,
}

impl Span {
    // Of one number.
    pub fn of(n: u32) -> Span
        ensures { result ≡ span_of n }
    {
        Span { least: n, most: n }
    }

    // With another.
    pub fn with(self, n: u32) -> Span
        ensures { result ≡ span_with self n }
    {
        Span {
            least: self.least.min(n),
            most: self.most.max(n),
        }
    }
}

// The span of some numbers, with one more if there is one.
pub fn spanned(span: Option<Span>, more: Option<u32>) -> Option<Span>
    ensures { result ≡ spanned span more }
{
    match (span, more) {
        (Some(span), Some(n)) => Some(span.with(n)),
        (None, Some(n)) => Some(Span::of(n)),
        (span, None) => span,
    }
}
