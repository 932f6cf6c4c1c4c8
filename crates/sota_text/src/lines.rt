// The lines of a text. They end with LF, and one CR before that is dropped.
ghost use Rattle.std.specs.Prelude.{◌≡◌, ◌≤◌, ◌<◌, ◌+◌, ◌^◌, ◌∷◌};
ghost use Rattle.std.specs.Prelude.{length, drop, map, slice_range};
ghost use Rattle.std.specs.Iterator.{YieldsFirst, item_count};
ghost use Rattle.sota_text.specs.Text.{line_pieces, without_cr, numbered_lines};
ghost use Rattle.sota_text.specs.Spans.{line_spans, bytes_of, AreWithin};

use crate::{Line, Span};
use std::marker::Model;

/// The lines of a text, in order, seen as the list of those that are left.
#[derive(Drop)]
pub struct Lines<'a> {
    bytes: &'a [u8],
    at: usize,
    before: u32,
}

impl<'a> Model for Lines<'a> {
    ghost use Rattle.std.specs.Prelude.{List, length, drop, ◌≤◌, ◌<◌, ◌+◌, ◌^◌};
    ghost use Rattle.sota_text.specs.declared.span.Line.{Line};
    ghost use Rattle.sota_text.specs.Spans.{lines_from};

    ghost Value = { List Line };

    ghost view = { λ lines. lines_from lines.before lines.at (drop lines.at lines.bytes.now) };

    ghost invariant = { λ lines. (lines.before ≤ lines.at) × (lines.at ≤ length lines.bytes.now + 1)
        × (length lines.bytes.now < 2 ^ 32) };
}

impl<'a> Lines<'a> {
    /// All lines of the text.
    pub fn new(bytes: &'a [u8]) -> Self
        requires { length bytes.now < 2 ^ 32 }
        ensures spans { result ≡ line_spans bytes.now }
        ensures texts { map (λ line. (line.number, bytes_of bytes.now line.span)) result
            ≡ numbered_lines bytes.now }
        ensures within { AreWithin bytes.now (map (λ line. line.span) result) }
    {
        Lines {
            bytes,
            at: 0,
            before: 0,
        }
    }
}

impl Iterator for Lines<'_> {
    type Item = Line;

    ghost next_gives = { YieldsFirst (λ lines. lines) };

    ghost remaining = { item_count (λ lines. lines) };

    fn next(&mut self) -> Option<Line> {
        let from = self.at;
        if from >= self.bytes.len() {
            return None;
        }
        let end = piece_end(self.bytes, from);
        let to = line_end(self.bytes, from, end);
        self.at = end + 1;
        self.before += 1;
        Some(Line {
            number: self.before,
            span: Span { from, to },
        })
    }
}

/// Where the piece ends that begins at a place: at a line end, or with the text.
fn piece_end(bytes: &[u8], start: usize) -> usize
    requires { start < length bytes.now }
    ensures within { (start ≤ result) × (result ≤ length bytes.now) }
    ensures first { line_pieces (drop start bytes.now)
        ≡ slice_range bytes.now start result ∷ line_pieces (drop (result + 1) bytes.now) }
{
    let mut at = start;
    while at < bytes.len() && bytes[at] != b'\n' {
        at += 1;
    }
    at
}

/// Where the line ends whose piece goes from a place to another.
fn line_end(bytes: &[u8], from: usize, end: usize) -> usize
    requires { (from ≤ end) × (end ≤ length bytes.now) }
    ensures { result ≡ from + length (without_cr (slice_range bytes.now from end)) }
{
    if from < end && bytes[end - 1] == b'\r' {
        end - 1
    } else {
        end
    }
}
