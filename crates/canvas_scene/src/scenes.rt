//! Scenes: what a document shows in a window.

ghost use Rattle.std.specs.Prelude.{◌≡◌, ◌≤◌, ◌<◌, ℕ, ℤ, All, IfOk, true, reverse};
ghost use Rattle.canvas_plane.specs.Page.{is_in};
ghost use Rattle.canvas_plane.specs.Window.{covered_by};
ghost use Rattle.canvas_record.specs.Picture.{colour};
ghost use Rattle.canvas_record.specs.declared.records.Parent.TheVariants.{Page};
ghost use Rattle.canvas_scene.specs.Clips.{IsClipped};
ghost use Rattle.canvas_paint.specs.Items.{last_colour};
ghost use Rattle.canvas_scene.specs.Nodes.{items_along};
ghost use Rattle.canvas_scene.specs.Scenes.{display_list_of, root_of};
ghost use Rattle.canvas_scene.specs.Trees.{AreNodesOf};

use crate::Node;
use crate::shown::Shown;
use crate::walk::nodes_of_page;
use bumpalo::Bump;
use canvas_code::OutOfMemory;
use canvas_doc::Document;
use canvas_paint::Item;
use canvas_plane::Window;

/// What a document shows in a window: a tree in the caller's arena, and the items of its leaves
/// as one list. Nothing of it outlives the arena's next reset.
#[derive(Clone, Copy)]
pub struct Scene<'a> {
    root: &'a [Node<'a>],
    items: &'a [Item<'a>],
}

impl<'a> Scene<'a> {
    /// The scene of a document in a window, right at each of the page's pixels in the box that the
    /// window covers, shown or not: the last item that holds such a pixel has its colour. What is
    /// hidden makes no node. What cannot be seen in that box may be left out: the crate's README
    /// tells what is, and no clause does. Want of memory is the only refusal.
    pub fn build(
        bump: &'a Bump,
        document: &Document,
        window: &Window,
    ) -> Result<Scene<'a>, OutOfMemory>
        ensures colours { IfOk result (λ scene. (x y : ℤ) → is_in (covered_by window.now) x y ≡ true
            → last_colour (display_list_of scene) x y ≡ colour document.now.records x y) }
        ensures clips { IfOk result
            (λ scene. All (IsClipped (covered_by window.now)) (root_of scene)) }
        ensures tree { IfOk result (λ scene. AreNodesOf document.now.records Page (λ q. q)
            (covered_by window.now) (root_of scene)) }
        ensures order { IfOk result (λ scene. display_list_of scene ≡ items_along (root_of scene)) }
    {
        let mut shown = Shown::new(bump, window)?;
        let root = nodes_of_page(bump, document, &window.covered(), &mut shown)?;
        Ok(Scene {
            root,
            items: shown.into_list(),
        })
    }

    /// The tree: the nodes of the page's children, from back to front.
    pub fn root(&self) -> &'a [Node<'a>]
        ensures { result.now ≡ root_of self.now }
    {
        self.root
    }

    /// The items of the tree from back to front: of a branch its own, then its children's.
    pub fn display_list(&self) -> &'a [Item<'a>]
        ensures { result.now ≡ display_list_of self.now }
    {
        self.items
    }
}
