//! Edits are written as the texts that ask for them, which one reader reads in turn, and each of its own.
use crate::asserts::holds_for;
use canvas_wire::{Request, RequestReader, WireFault, read_request, write_edit};
use std::alloc::Global;

// Texts of edits as they are written: compact, each member there, in the order of the names.
static TEXTS: [&str; 16] = [
    "{\"hidden\":false,\"parent\":null,\"pose\":{\"dx\":0,\"dy\":0,\"flip\":false,\"quarter\":0},\"shape\":{\"kind\":\"group\"},\"spot\":\"front\",\"verb\":\"create\"}",
    "{\"hidden\":true,\"parent\":7,\"pose\":{\"dx\":-5,\"dy\":2147483647,\"flip\":true,\"quarter\":255},\"shape\":{\"fill\":null,\"h\":0,\"kind\":\"frame\",\"w\":4294967295},\"spot\":{\"over\":3},\"verb\":\"create\"}",
    "{\"hidden\":false,\"parent\":null,\"pose\":{\"dx\":1,\"dy\":-2147483648,\"flip\":false,\"quarter\":3},\"shape\":{\"fill\":\"ff0080\",\"kind\":\"polygon\",\"points\":[[0,0],[-4,10],[2147483647,-2147483648]]},\"spot\":{\"at\":\"a0V\"},\"verb\":\"create\"}",
    "{\"id\":0,\"parent\":4294967295,\"spot\":\"back\",\"verb\":\"move\"}",
    "{\"id\":12,\"pose\":{\"dx\":10,\"dy\":20,\"flip\":true,\"quarter\":2},\"verb\":\"pose\"}",
    "{\"id\":3,\"shape\":{\"fill\":\"0a0b0c\",\"h\":2,\"kind\":\"rect\",\"w\":1},\"verb\":\"reshape\"}",
    "{\"id\":3,\"shape\":{\"fill\":\"ffffff\",\"h\":65537,\"kind\":\"ellipse\",\"w\":9},\"verb\":\"reshape\"}",
    "{\"id\":3,\"shape\":{\"fill\":\"000000\",\"kind\":\"polygon\",\"points\":[]},\"verb\":\"reshape\"}",
    "{\"hidden\":true,\"id\":9,\"verb\":\"show\"}",
    "{\"id\":10,\"verb\":\"delete\"}",
    "{\"parent\":null,\"verb\":\"respace\"}",
    "{\"id\":4294967295,\"parent\":0,\"spot\":{\"at\":\"a0V\"},\"verb\":\"move\"}",
    "{\"id\":1,\"pose\":{\"dx\":-2147483648,\"dy\":2147483647,\"flip\":false,\"quarter\":255},\"verb\":\"pose\"}",
    "{\"id\":1,\"shape\":{\"fill\":\"ffffff\",\"h\":0,\"kind\":\"ellipse\",\"w\":4294967295},\"verb\":\"reshape\"}",
    "{\"id\":1,\"shape\":{\"fill\":\"000001\",\"kind\":\"polygon\",\"points\":[[-2147483648,0],[2147483647,1],[2,-3]]},\"verb\":\"reshape\"}",
    "{\"id\":0,\"verb\":\"delete\"}",
];

// Whether what was read is an edit that is written as this text.
fn is_written(alloc: Global, read: Result<Request, WireFault>, text: &[u8]) -> bool {
    match read {
        Ok(Request::Edit(edit)) => match write_edit(alloc, &edit) {
            Ok(line) => line.as_slice() == text,
            Err(_) => false,
        },
        Ok(_) => false,
        Err(_) => false,
    }
}

#[test]
fn each_text_is_written_again(rt: HostRuntime) {
    let alloc = rt.alloc();
    let mut reader = RequestReader::new(alloc);
    for (at, text) in TEXTS.iter().enumerate() {
        let text = text.as_bytes();
        let alone = is_written(alloc, read_request(alloc, text), text);
        holds_for(&rt, "text", at, alone);
        let in_turn = is_written(alloc, reader.read(alloc, text), text);
        holds_for(&rt, "text of a reader of all", at, in_turn);
    }
}
