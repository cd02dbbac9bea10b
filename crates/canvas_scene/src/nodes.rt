//! The tree of a scene.

ghost use Rattle.std.specs.Prelude.{◌≡◌, ◌++◌, [], ◌∷◌, ℤ, List, OnOk, map, reverse, Some};
ghost use Rattle.canvas_record.specs.declared.records.Record.{Record};
ghost use Rattle.canvas_scene.specs.Clips.{at_pixel, branch_at, leaf_at};
ghost use Rattle.canvas_scene.specs.Nodes.{items_of, items_along, back_item};
ghost use Rattle.canvas_scene.specs.Trees.{is_branch_of, is_leaf_of, is_node_of};

use bumpalo::Bump;
use canvas_code::OutOfMemory;
use canvas_paint::Item;
use canvas_plane::PageBox;

/// A part of the tree of a scene, plain data in the arena.
#[derive(Clone, Copy)]
pub enum Node<'a> {
    /// A leaf's item.
    Leaf(Item<'a>),
    /// A group or a frame.
    Branch {
        /// What is left of the page for its children.
        clip: PageBox,
        /// A frame's fill, behind its children.
        back: Option<Item<'a>>,
        /// Its children, from back to front.
        children: &'a [Node<'a>],
    },
}

// A node of one item.
pub(crate) fn leaf<'a>(item: Item<'a>) -> Node<'a>
    ensures items { items_of result ≡ item.entry ∷ [] }
    ensures pixels { (x y : ℤ) → at_pixel x y result ≡ leaf_at x y item.entry }
    ensures tree { (rs : List Record)
        → is_node_of rs result ≡ is_leaf_of item.entry.clip item.entry.fill }
{
    Node::Leaf(item)
}

// A branch, whose items are its own and its children's.
pub(crate) fn branch<'a>(
    clip: PageBox,
    back: Option<Item<'a>>,
    children: &'a [Node<'a>],
) -> Node<'a>
    ensures items { items_of result ≡ back_item back.entry ++ items_along children.now }
    ensures pixels { (x y : ℤ)
        → at_pixel x y result ≡ branch_at x y clip back.entry (map (at_pixel x y) children.now) }
    ensures tree { (rs : List Record)
        → is_node_of rs result
        ≡ is_branch_of rs clip back.entry (map (is_node_of rs) children.now) }
{
    Node::Branch {
        clip,
        back,
        children,
    }
}

// Adds a node to those of the shapes in front of it.
pub(crate) fn keep<'a>(
    nodes: &mut Vec<Node<'a>, &'a Bump>,
    node: Node<'a>,
) -> Result<(), OutOfMemory>
    ensures items { OnOk result (items_along (reverse nodes.new.items)
        ≡ items_of node.entry ++ items_along (reverse nodes.old.items)) }
    ensures nodes { OnOk result (nodes.new.items ≡ nodes.old.items ++ node.entry ∷ []) }
{
    nodes.push(node)?;
    Ok(())
}
