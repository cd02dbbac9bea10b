//! The room that a saved text takes.

use crate::saved::asserts::{counts, holds};
use canvas_saved::{export, import};

// The longest numbers that records have.
const LONGEST: &str =
    r#"{"format":2,"next":4294967295,"shapes":[{"hidden":false,"id":4294967292,"place":{"index":"a0","parent":null},"pose":{"dx":-1048576,"dy":-1048576,"flip":false,"quarter":3},"shape":{"kind":"group"}},{"hidden":false,"id":4294967293,"place":{"index":"a0","parent":4294967292},"pose":{"dx":-1048576,"dy":-1048576,"flip":false,"quarter":3},"shape":{"fill":"ffffff","h":65536,"kind":"ellipse","w":65536}},{"hidden":false,"id":4294967294,"place":{"index":"a1","parent":4294967292},"pose":{"dx":-1048576,"dy":-1048576,"flip":false,"quarter":3},"shape":{"fill":"ffffff","kind":"polygon","points":[[-1048576,-1048576],[-1048576,-1048575],[-1048575,-1048576]]}}]}"#;

// A text is written into the room that is taken for it at first.
#[test]
fn room_is_taken_once(rt: HostRuntime) {
    let alloc = rt.alloc();
    let document = import(alloc, LONGEST.as_bytes()).expect(&rt, "a document");
    let saved = export(alloc, &document).expect(&rt, "memory");
    holds(&rt, "the longest", saved.as_slice() == LONGEST.as_bytes());
    counts(&rt, "room", saved.capacity(), 64 + 3 * 200 + 3 * 2 + 3 * 20);
}
