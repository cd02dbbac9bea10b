//! Which items make a display list: what lies wholly behind one rectangle is left out. The window
//! has no more than one cell here.

use crate::asserts::equal;
use crate::pictures::count;
use crate::shapes::{BLUE, GREEN, RED, frame, page_box, rect, right, with};
use bumpalo::Bump;
use canvas_doc::{Document, Parent};
use canvas_plane::{PageBox, Window};
use canvas_scene::{Node, Scene};
use canvas_shape::Kind;
use std::alloc::Global;
use std::process::Abort;

// The document with a shape in front of a parent's children, `dx` to the right.
fn after(
    rt: &impl Abort,
    alloc: Global,
    document: Document,
    kind: Kind,
    dx: i64,
    parent: Parent,
) -> Document {
    with(alloc, document, kind, right(dx), parent).expect(rt, "memory")
}

// Asserts that a document has so many shapes, and makes so many items in the window 0, 0, 4, 4.
fn check_counts(rt: &impl Abort, alloc: Global, document: &Document, wanted: (usize, usize)) {
    let window = Window::new(0, 0, 4, 4).expect(rt, "a window");
    let found = (document.count(), count(rt, alloc, document, &window));
    equal(rt, "shapes and items", &found, &wanted);
}

#[test]
fn one_rectangle_hides_another(rt: HostRuntime) {
    let alloc = rt.alloc();
    let page = Parent::Page;
    let document = Document::empty(alloc);
    let document = after(&rt, alloc, document, rect(2, 2, RED), 0, page);
    let document = after(&rt, alloc, document, rect(4, 4, GREEN), 0, page);
    check_counts(&rt, alloc, &document, (2, 1));
}

// A rectangle, and a frame that cuts one in front of it.
fn clipped(rt: &impl Abort, alloc: Global) -> Document {
    let document = Document::empty(alloc);
    let document = after(rt, alloc, document, rect(2, 2, RED), 0, Parent::Page);
    let document = after(rt, alloc, document, frame(1, 4, None), 0, Parent::Page);
    after(rt, alloc, document, rect(4, 4, GREEN), 0, Parent::Shape(2))
}

#[test]
fn clipped_rectangle_hides_what_its_clip_leaves(rt: HostRuntime) {
    let alloc = rt.alloc();
    let document = clipped(&rt, alloc);
    check_counts(&rt, alloc, &document, (3, 2));
}

#[test]
fn two_halves_of_a_cell_hide_nothing_that_lies_behind_both(rt: HostRuntime) {
    let alloc = rt.alloc();
    let page = Parent::Page;
    let document = Document::empty(alloc);
    let document = after(&rt, alloc, document, rect(4, 4, RED), 0, page);
    let document = after(&rt, alloc, document, rect(2, 4, GREEN), 0, page);
    let document = after(&rt, alloc, document, rect(2, 4, BLUE), 2, page);
    check_counts(&rt, alloc, &document, (3, 3));
}

#[test]
fn an_ellipse_hides_nothing(rt: HostRuntime) {
    let alloc = rt.alloc();
    let page = Parent::Page;
    let wide = Kind::Ellipse {
        w: 200,
        h: 200,
        fill: GREEN,
    };
    let document = Document::empty(alloc);
    let document = after(&rt, alloc, document, rect(2, 2, RED), 0, page);
    let document = after(&rt, alloc, document, wide, -100, page);
    check_counts(&rt, alloc, &document, (2, 2));
}

#[test]
fn frames_and_groups_are_hidden_whole(rt: HostRuntime) {
    let alloc = rt.alloc();
    let page = Parent::Page;
    let document = Document::empty(alloc);
    let document = after(&rt, alloc, document, frame(9, 9, Some(BLUE)), 0, page);
    let document = after(&rt, alloc, document, rect(3, 3, RED), 0, Parent::Shape(1));
    check_counts(&rt, alloc, &document, (2, 2));
    let document = after(&rt, alloc, document, rect(9, 9, GREEN), 0, Parent::Shape(1));
    check_counts(&rt, alloc, &document, (3, 1));
    let document = after(&rt, alloc, document, Kind::Group, 0, page);
    let document = after(
        &rt,
        alloc,
        document,
        frame(5, 5, Some(RED)),
        0,
        Parent::Shape(4),
    );
    check_counts(&rt, alloc, &document, (5, 1));
}

#[test]
fn what_misses_the_window_or_its_frame_makes_no_item(rt: HostRuntime) {
    let alloc = rt.alloc();
    let document = Document::empty(alloc);
    let document = after(&rt, alloc, document, rect(2, 2, RED), 4, Parent::Page);
    check_counts(&rt, alloc, &document, (1, 0));
    let document = after(&rt, alloc, document, frame(1, 4, None), 0, Parent::Page);
    let document = after(&rt, alloc, document, rect(2, 2, GREEN), 1, Parent::Shape(2));
    check_counts(&rt, alloc, &document, (3, 0));
}

// The clip of a branch without a shape of its own, and how many nodes lie below it.
fn branch(node: Option<&Node<'_>>) -> Option<(PageBox, usize)> {
    match node {
        Some(
            Node::Branch {
                clip,
                back: None,
                children,
            },
        ) => Some((*clip, children.len())),
        _ => None,
    }
}

// Asserts that the tree of a document has one node in the window 0, 0, 4, 4, which is such a branch.
fn check_branch(rt: &impl Abort, alloc: Global, document: &Document, wanted: (PageBox, usize)) {
    let window = Window::new(0, 0, 4, 4).expect(rt, "a window");
    let bump = Bump::new(alloc);
    let scene = Scene::build(&bump, document, &window).expect(rt, "memory");
    let found = (scene.root().len(), branch(scene.root().first()));
    equal(rt, "nodes, and the first", &found, &(1, Some(wanted)));
}

#[test]
fn tree_has_a_branch_for_a_frame(rt: HostRuntime) {
    let alloc = rt.alloc();
    let document = Document::empty(alloc);
    let document = after(&rt, alloc, document, frame(1, 4, None), 0, Parent::Page);
    let document = after(&rt, alloc, document, rect(4, 4, GREEN), 0, Parent::Shape(1));
    check_branch(&rt, alloc, &document, (page_box(0, 0, 1, 4), 1));
}
