// Places in a text.

/// A part of a list of bytes, from one index to before another.
#[derive(Clone, Copy, Debug, PartialEq, Eq)]
pub struct Span {
    pub from: usize,
    pub to: usize,
}

/// A line of a text: its number, counted from 1, and where its bytes stand, without what ends it.
#[derive(Clone, Copy, Debug, PartialEq, Eq)]
pub struct Line {
    pub number: u32,
    pub span: Span,
}
