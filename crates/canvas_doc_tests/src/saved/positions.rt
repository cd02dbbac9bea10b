//! Which element of a saved text is at fault: the first one, where what an element is and what its
//! values are is judged together, before the tree. The programs tell the refusal alone.

use crate::asserts::holds;
use canvas_code::Coded;
use canvas_saved::{StoreFault, import};
use std::alloc::Global;

// Texts with groups, groups with no such parent, the id 0, what is no record, and one place twice;
// the refusal and the position.
static TEXTS: [(&str, u16, usize); 7] = [
    (r#"{"format":1,"next":9,"shapes":[7]}"#, 61, 0),
    (r#"{"format":2,"next":9,"shapes":[7]}"#, 61, 0),
    (
        r#"{"format":2,"next":9,"shapes":[{"hidden":false,"id":1,"place":{"index":"a0","parent":null},"pose":{"dx":0,"dy":0,"flip":false,"quarter":0},"shape":{"kind":"group"}},{"hidden":false,"id":2,"place":{"index":"a0","parent":7},"pose":{"dx":0,"dy":0,"flip":false,"quarter":0},"shape":{"kind":"group"}},{"hidden":false,"id":0,"place":{"index":"a1","parent":null},"pose":{"dx":0,"dy":0,"flip":false,"quarter":0},"shape":{"kind":"group"}},7]}"#,
        61,
        2,
    ),
    (
        r#"{"format":2,"next":9,"shapes":[{"hidden":false,"id":1,"place":{"index":"a0","parent":null},"pose":{"dx":0,"dy":0,"flip":false,"quarter":0},"shape":{"kind":"group"}},{"hidden":false,"id":2,"place":{"index":"a0","parent":7},"pose":{"dx":0,"dy":0,"flip":false,"quarter":0},"shape":{"kind":"group"}},7,{"hidden":false,"id":0,"place":{"index":"a1","parent":null},"pose":{"dx":0,"dy":0,"flip":false,"quarter":0},"shape":{"kind":"group"}}]}"#,
        61,
        2,
    ),
    (
        r#"{"format":2,"next":9,"shapes":[{"hidden":false,"id":1,"place":{"index":"a0","parent":null},"pose":{"dx":0,"dy":0,"flip":false,"quarter":0},"shape":{"kind":"group"}},{"hidden":false,"id":2,"place":{"index":"a0","parent":7},"pose":{"dx":0,"dy":0,"flip":false,"quarter":0},"shape":{"kind":"group"}},{"hidden":false,"id":1,"place":{"index":"a0","parent":null},"pose":{"dx":0,"dy":0,"flip":false,"quarter":0},"shape":{"kind":"group"}}]}"#,
        62,
        1,
    ),
    (
        r#"{"format":1,"next":9,"shapes":[{"hidden":false,"id":1,"index":"a0","parent":null,"pose":{"dx":0,"dy":0,"flip":false,"quarter":0},"shape":{"kind":"group"}},{"hidden":false,"id":2,"index":"a1","parent":null,"pose":{"dx":0,"dy":0,"flip":false,"quarter":0},"shape":{"kind":"group"}},{"hidden":false,"id":3,"index":"a0","parent":2,"pose":{"dx":0,"dy":0,"flip":false,"quarter":0},"shape":{"kind":"group"}},{"hidden":false,"id":4,"index":"a1","parent":null,"pose":{"dx":0,"dy":0,"flip":false,"quarter":0},"shape":{"kind":"group"}}]}"#,
        62,
        3,
    ),
    (
        r#"{"format":2,"next":9,"shapes":[{"hidden":false,"id":1,"place":{"index":"a0","parent":null},"pose":{"dx":0,"dy":0,"flip":false,"quarter":0},"shape":{"kind":"group"}},{"hidden":false,"id":2,"place":{"index":"a1","parent":null},"pose":{"dx":0,"dy":0,"flip":false,"quarter":0},"shape":{"kind":"group"}},{"hidden":false,"id":3,"place":{"index":"a0","parent":2},"pose":{"dx":0,"dy":0,"flip":false,"quarter":0},"shape":{"kind":"group"}},{"hidden":false,"id":4,"place":{"index":"a1","parent":null},"pose":{"dx":0,"dy":0,"flip":false,"quarter":0},"shape":{"kind":"group"}}]}"#,
        62,
        3,
    ),
];

// The number of the refusal of a text, and the position that it names, if it does.
fn told(alloc: Global, text: &str) -> Option<(u16, usize)> {
    let fault = import(alloc, text.as_bytes()).err()?;
    match fault {
        StoreFault::BadRecord { position } | StoreFault::BadTree { position } => {
            Some((fault.code(), position))
        }
        _ => None,
    }
}

#[test]
fn the_first_element_at_fault(rt: HostRuntime) {
    for (text, code, position) in &TEXTS {
        let found = told(rt.alloc(), text);
        holds(&rt, text, &found, found == Some((*code, *position)));
    }
}
