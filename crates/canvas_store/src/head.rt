//! The lines that a store is sent.
ghost use Rattle.std.specs.Prelude.{◌≡◌, ◌++◌, ◌+◌, ◌≤◌, codes, decimal, length};

use arrayvec::ArrayString;
use itoa::Buffer;

/// Room for a word and two numbers.
pub(crate) type Head = ArrayString<64>;

/// The line before a generation's opening of so many bytes.
pub(crate) fn begin_head(generation: u32, len: usize) -> Head
    ensures { result.bytes
        ≡ codes "begin " ++ decimal generation ++ codes " " ++ decimal len ++ codes "\n" }
{
    let mut head = Head::new();
    head.push_str("begin ");
    push_number(&mut head, u64::from(generation));
    head.push_str(" ");
    push_number(&mut head, len as u64);
    head.push_str("\n");
    head
}

/// The line before so many bytes that stand at a place.
pub(crate) fn write_head(place: usize, len: usize) -> Head
    ensures { result.bytes
        ≡ codes "write " ++ decimal place ++ codes " " ++ decimal len ++ codes "\n" }
{
    let mut head = Head::new();
    head.push_str("write ");
    push_number(&mut head, place as u64);
    head.push_str(" ");
    push_number(&mut head, len as u64);
    head.push_str("\n");
    head
}

/// The line that gives the journal a length.
pub(crate) fn cut_head(len: usize) -> Head
    ensures { result.bytes ≡ codes "cut " ++ decimal len ++ codes "\n" }
{
    let mut head = Head::new();
    head.push_str("cut ");
    push_number(&mut head, len as u64);
    head.push_str("\n");
    head
}

/// What stands behind the name where a lease is asked after.
pub(crate) fn epoch_tail(epoch: u64) -> Head
    ensures { result.bytes ≡ codes " " ++ decimal epoch ++ codes "\n" }
{
    let mut head = Head::new();
    head.push_str(" ");
    push_number(&mut head, epoch);
    head.push_str("\n");
    head
}

/// The line that says for how many milliseconds a lease lasts, without its LF.
pub(crate) fn lasts_line(time: u64) -> Head
    ensures { result.bytes ≡ codes "lasts " ++ decimal time }
{
    let mut head = Head::new();
    head.push_str("lasts ");
    push_number(&mut head, time);
    head
}

// Appends a number, which takes at most 20 digits.
fn push_number(head: &mut Head, number: u64)
    requires { length head.old.bytes + 20 ≤ 64 }
    ensures bytes { head.new.bytes ≡ head.old.bytes ++ decimal number }
    ensures len { length head.new.bytes ≤ length head.old.bytes + 20 }
{
    let mut digits = Buffer::new();
    head.push_str(digits.format(number));
}
