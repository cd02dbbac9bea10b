//! The line that leaves of a change.
ghost use Rattle.std.specs.Prelude.{◌≡◌, ◌++◌, codes, decimal, OnOk};
ghost use Rattle.std.specs.Fmt.{signed_decimal};
ghost use Rattle.canvas_feed.specs.Feed.{edges_text, box_text, id_text, line_text};

use canvas_plane::PageBox;
use itoa::Buffer;
use std::alloc::AllocError;

pub(crate) fn push_number(text: &mut Vec<u8>, number: u64) -> Result<(), AllocError>
    ensures { OnOk result (text.new.items ≡ text.old.items ++ decimal number) }
{
    text.extend_from_slice(Buffer::new().format(number).as_bytes())
}

fn push_signed(text: &mut Vec<u8>, number: i64) -> Result<(), AllocError>
    ensures { OnOk result (text.new.items ≡ text.old.items ++ signed_decimal number) }
{
    text.extend_from_slice(Buffer::new().format(number).as_bytes())
}

// Appends the left and the top edge.
#[tactic(auto, unfolding(crate::specs::Feed::edges_text))]
fn push_first_edges(text: &mut Vec<u8>, damage: &PageBox) -> Result<(), AllocError>
    ensures { OnOk result
        (text.new.items ≡ text.old.items ++ edges_text damage.now.left damage.now.top) }
{
    push_signed(text, damage.left)?;
    text.extend_from_slice(b",")?;
    push_signed(text, damage.top)
}

// Appends the right and the bottom edge.
#[tactic(auto, unfolding(crate::specs::Feed::edges_text))]
fn push_last_edges(text: &mut Vec<u8>, damage: &PageBox) -> Result<(), AllocError>
    ensures { OnOk result
        (text.new.items ≡ text.old.items ++ edges_text damage.now.right damage.now.bottom) }
{
    push_signed(text, damage.right)?;
    text.extend_from_slice(b",")?;
    push_signed(text, damage.bottom)
}

#[tactic(auto, unfolding(crate::specs::Feed::box_text))]
fn push_box(text: &mut Vec<u8>, damage: &PageBox) -> Result<(), AllocError>
    ensures { OnOk result (text.new.items ≡ text.old.items ++ box_text damage.now) }
{
    text.extend_from_slice(b"[")?;
    push_first_edges(text, damage)?;
    text.extend_from_slice(b",")?;
    push_last_edges(text, damage)?;
    text.extend_from_slice(b"]")?;
    Ok(())
}

#[tactic(auto, unfolding(crate::specs::Feed::id_text))]
fn push_id(text: &mut Vec<u8>, id: Option<u32>) -> Result<(), AllocError>
    ensures { OnOk result (text.new.items ≡ text.old.items ++ id_text id) }
{
    match id {
        Some(id) => push_number(text, u64::from(id)),
        None => text.extend_from_slice(b"null"),
    }
}

/// Appends the line of a change: its damage, the text of its edit, the id that it gave, and the
/// version that it made.
#[tactic(auto, unfolding(crate::specs::Feed::line_text))]
pub fn push_line(
    text: &mut Vec<u8>,
    damage: &PageBox,
    edit: &[u8],
    id: Option<u32>,
    version: u64,
) -> Result<(), AllocError>
    ensures { OnOk result
        (text.new.items ≡ text.old.items ++ line_text damage.now edit.now id version) }
{
    text.extend_from_slice(b"{\"damage\":")?;
    push_box(text, damage)?;
    text.extend_from_slice(b",\"edit\":")?;
    text.extend_from_slice(edit)?;
    text.extend_from_slice(b",\"id\":")?;
    push_id(text, id)?;
    text.extend_from_slice(b",\"version\":")?;
    push_number(text, version)?;
    text.extend_from_slice(b"}\n")
}
