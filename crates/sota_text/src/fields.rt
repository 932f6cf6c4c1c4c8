// The longest runs of bytes other than space and tab.
ghost use Rattle.std.specs.Prelude.{◌≡◌, ◌≤◌, ◌<◌, ◌∷◌};
ghost use Rattle.std.specs.Prelude.{length, drop, map, false, slice_index};
ghost use Rattle.std.specs.Iterator.{YieldsFirst, item_count};
ghost use Rattle.sota_text.specs.Text.{is_blank, fields_of};
ghost use Rattle.sota_text.specs.Spans.{fields_from, field_spans, bytes_of, AreWithin};
ghost use Rattle.sota_text.specs.Spans.{AreInOrder};

use crate::Span;
use std::marker::Model;

/// The fields of a line, in order, seen as the list of those that are left.
#[derive(Drop)]
pub struct Fields<'a> {
    line: &'a [u8],
    at: usize,
}

impl<'a> Model for Fields<'a> {
    ghost use Rattle.std.specs.Prelude.{List, length, drop, ◌≤◌};
    ghost use Rattle.sota_text.specs.declared.span.Span.{Span};
    ghost use Rattle.sota_text.specs.Spans.{fields_from};

    ghost Value = { List Span };

    ghost view = { λ fields. fields_from fields.at (drop fields.at fields.line.now) };

    ghost invariant = { λ fields. fields.at ≤ length fields.line.now };
}

impl<'a> Fields<'a> {
    /// All fields of the line.
    pub fn new(line: &'a [u8]) -> Self
        ensures spans { result ≡ field_spans line.now }
        ensures texts { map (bytes_of line.now) result ≡ fields_of line.now }
        ensures within { AreWithin line.now result }
        ensures order { AreInOrder result }
    {
        Fields { line, at: 0 }
    }
}

impl Iterator for Fields<'_> {
    type Item = Span;

    ghost next_gives = { YieldsFirst (λ spans. spans) };

    ghost remaining = { item_count (λ spans. spans) };

    fn next(&mut self) -> Option<Span> {
        let from = skip_blanks(self.line, self.at);
        if from == self.line.len() {
            self.at = from;
            return None;
        }
        let to = skip_field(self.line, from);
        self.at = to;
        Some(Span { from, to })
    }
}

fn is_blank(byte: u8) -> bool
    ensures { result ≡ is_blank byte }
{
    byte == b' ' || byte == b'\t'
}

/// Where the blanks from a place on end.
fn skip_blanks(line: &[u8], start: usize) -> usize
    requires { start ≤ length line.now }
    ensures within { (start ≤ result) × (result ≤ length line.now) }
    ensures same { fields_from result (drop result line.now)
        ≡ fields_from start (drop start line.now) }
    ensures end { result < length line.now → is_blank (slice_index line.now result) ≡ false }
{
    let mut at = start;
    while at < line.len() && is_blank(line[at]) {
        at += 1;
    }
    at
}

/// Where the field ends that begins at a place.
fn skip_field(line: &[u8], start: usize) -> usize
    requires inside { start < length line.now }
    requires begins { is_blank (slice_index line.now start) ≡ false }
    ensures within { (start < result) × (result ≤ length line.now) }
    ensures first { fields_from start (drop start line.now)
        ≡ (record { from = start; to = result }) ∷ fields_from result (drop result line.now) }
{
    let mut at = start + 1;
    while at < line.len() && !is_blank(line[at]) {
        at += 1;
    }
    at
}
