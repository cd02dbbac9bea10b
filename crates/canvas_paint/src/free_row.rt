//! The free pixels of a row.

ghost use Rattle.std.specs.Prelude.{◌≡◌, ◌≤ℤ◌, ◌<ℤ◌, ◌&&◌, ℤ, not, ◌++◌, IfErr, IfOk, OnOk, OnErr, IsTrue, ◌↔◌, false, length, take};
ghost use Rattle.canvas_shape.specs.Spans.{AppendsSpans, covers, is_from_to};
ghost use Rattle.canvas_paint.specs.FreeRows.{after_of, before_of, common_of, piece_of, rest_of, taken_of};

use canvas_code::OutOfMemory;
use canvas_shape::Span;
use std::alloc::Global;
use std::marker::Model;
use std::mem;

/// The pixels of a row that are not painted yet, seen as rising spans that are apart and not
/// empty.
#[derive(Drop)]
pub struct FreeRow {
    spans: Vec<Span>,
    // Room for the spans after the next call, so that a row needs memory only as it frays.
    spare: Vec<Span>,
}

impl Model for FreeRow {
    ghost use Rattle.std.specs.Prelude.{List};
    ghost use Rattle.canvas_shape.specs.declared.Span.{Span};
    ghost use Rattle.canvas_shape.specs.Spans.{AreRising};

    ghost Value = { List Span };

    ghost view = { λ row. row.spans.items };

    ghost invariant = { λ row. AreRising row.spans.items };
}

impl FreeRow {
    /// A row in which all from `left` up to `right` is free. A row of no pixel wants no memory.
    pub fn new(alloc: Global, left: i32, right: i32) -> Result<FreeRow, OutOfMemory>
        requires { left ≤ℤ right }
        ensures free { IfOk result (λ row. (x : ℤ) → covers row x ≡ is_from_to left x right) }
        ensures want { IfErr result (λ _. left <ℤ right) }
    {
        let mut spans = Vec::new(alloc);
        push_piece(
            &mut spans,
            Span {
                from: left,
                to: right,
            },
        )?;
        Ok(FreeRow {
            spans,
            spare: Vec::new(alloc),
        })
    }

    /// Appends the free parts of a span, rising, apart and not empty; they are free no more.
    /// Without memory both are as they were.
    pub fn take(&mut self, span: Span, out: &mut Vec<Span>) -> Result<(), OutOfMemory>
        requires { span.from ≤ℤ span.to }
        ensures taken { OnOk result
            (AppendsSpans out.old.items out.new.items
            (λ x. is_from_to span.from x span.to && covers self.old x)) }
        ensures rest { OnOk result ((x : ℤ)
            → covers self.new x ≡ (covers self.old x && not (is_from_to span.from x span.to))) }
        ensures row_kept { OnErr result (self.new ≡ self.old) }
        ensures out_kept { OnErr result (out.new.items ≡ out.old.items) }
    {
        let before = out.len();
        match split(&self.spans, span, &mut self.spare, out) {
            Ok(()) => {
                mem::swap(&mut self.spans, &mut self.spare);
                Ok(())
            }
            Err(fault) => {
                out.truncate(before);
                Err(fault)
            }
        }
    }

    /// Whether nothing is free.
    pub fn is_done(&self) -> bool
        ensures { IsTrue result ↔ ((x : ℤ) → covers self.now x ≡ false) }
    {
        self.spans.as_slice().is_empty()
    }
}

// Parts the free spans of a row: what of them lies in a span goes to `out`, the others to `rest`.
fn split(
    free: &[Span],
    span: Span,
    rest: &mut Vec<Span>,
    out: &mut Vec<Span>,
) -> Result<(), OutOfMemory>
    ensures rest { OnOk result (rest.new.items ≡ rest_of span free.now) }
    ensures taken { OnOk result (out.new.items ≡ out.old.items ++ taken_of span free.now) }
    ensures kept { take (length out.old.items) out.new.items ≡ out.old.items }
{
    rest.clear();
    for part in free {
        push_piece(out, common(*part, span))?;
        push_piece(rest, part_before(*part, span))?;
        push_piece(rest, part_after(*part, span))?;
    }
    Ok(())
}

// What two spans have in common.
fn common(part: Span, span: Span) -> Span
    ensures { result ≡ common_of span part }
{
    Span {
        from: part.from.max(span.from),
        to: part.to.min(span.to),
    }
}

// What of one span lies before another.
fn part_before(part: Span, span: Span) -> Span
    ensures { result ≡ before_of span part }
{
    Span {
        from: part.from,
        to: part.to.min(span.from),
    }
}

// What of one span lies after another.
fn part_after(part: Span, span: Span) -> Span
    ensures { result ≡ after_of span part }
{
    Span {
        from: part.from.max(span.to),
        to: part.to,
    }
}

// Appends a span, if it has a pixel.
fn push_piece(spans: &mut Vec<Span>, piece: Span) -> Result<(), OutOfMemory>
    ensures ok { OnOk result (spans.new.items ≡ spans.old.items ++ piece_of piece) }
    ensures err { OnErr result (spans.new.items ≡ spans.old.items) }
    ensures want { OnErr result (piece.from <ℤ piece.to) }
{
    if piece.from < piece.to {
        spans.push(piece)?;
    }
    Ok(())
}
