//! Where the fields of a line stand.
ghost use Rattle.std.specs.Prelude.{◌≡◌, ◌<◌, ◌^◌, length};

use crate::kept::MOST_KEPT;

/// Where the bytes of a field stand: in the line, or in the bytes that were joined.
#[derive(Clone, Copy)]
pub(super) enum Span {
    Line { start: u16, end: u16 },
    Joined { start: u16, end: u16 },
}

/// A field, and where the line goes on after it.
#[derive(Clone, Copy)]
pub(super) struct Field {
    pub span: Span,
    pub after: usize,
}

/// How many fields a line has, and where the first of them stand, as many as are kept.
#[derive(Clone, Copy)]
pub(super) struct Spans {
    pub first: [Span; MOST_KEPT],
    pub count: usize,
}

impl Spans {
    ghost use Rattle.tz_text.specs.Spans.{no_spans, with_span};

    /// No field yet.
    pub fn new() -> Self
        ensures { result ≡ no_spans }
    {
        Spans {
            first: [Span::Line { start: 0, end: 0 }; MOST_KEPT],
            count: 0,
        }
    }

    /// Takes the place of one field more.
    pub fn keep(&mut self, span: Span)
        requires { self.old.count < 2 ^ 63 }
        ensures { self.new ≡ with_span self.old span }
    {
        if self.count < MOST_KEPT {
            self.first[self.count] = span;
        }
        self.count += 1;
    }
}
