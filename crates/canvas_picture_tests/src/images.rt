//! P6 images read and written by hand.

use crate::asserts::equal;
use canvas_code::Coded;
use canvas_ppm::{header, read, start, write};
use std::alloc::Global;
use std::process::Abort;

const SIX: &[u8] = b"\x00\x01\x02\xfd\xfe\xff";

// A head, samples, and the sides or the number of the fault.
const ROWS: [(&[u8], &[u8], Result<(u32, u32), u16>); 34] = [
    (b"P6\n2 1\n255\n", SIX, Ok((2, 1))),
    (b"P6\n1 2\n255\n", SIX, Ok((1, 2))),
    (b"P6\n2 1\n255\n", b"12345", Err(42)),
    (b"P6\n2 1\n255\n", b"1234567", Err(43)),
    (b"P6 2 1 255 ", SIX, Ok((2, 1))),
    (b"P6\t2\r1\r\n255\t", SIX, Ok((2, 1))),
    (b"P6 \t\r\n2 \t\r\n1 \t\r\n255\r", SIX, Ok((2, 1))),
    (b"P6 002 01 0255 ", SIX, Ok((2, 1))),
    (b"P6 000000002 1 000000255 ", SIX, Ok((2, 1))),
    (b"P6 0000000002 1 255 ", SIX, Err(41)),
    (b"P6 2 0000000001 255 ", SIX, Err(41)),
    (b"P6 2 1 0000000255 ", SIX, Err(41)),
    (b"P6 2 1 255\n\n", SIX, Err(43)),
    (b"P6 2 1 255\n\n", b"12345", Ok((2, 1))),
    (b"", b"", Err(40)),
    (b"P", b"", Err(40)),
    (b"P5", b"", Err(40)),
    (b"p6 2 1 255 ", SIX, Err(40)),
    (b" P6 2 1 255 ", SIX, Err(40)),
    (b"P6", b"", Err(41)),
    (b"P62 1 255 ", SIX, Err(41)),
    (b"P6 2", b"", Err(41)),
    (b"P6 2 1 255", b"", Err(41)),
    (b"P6 2 1 255x", SIX, Err(41)),
    (b"P6 # 2 by 1\n2 1 255 ", SIX, Err(41)),
    (b"P6\x0b2 1 255 ", SIX, Err(41)),
    (b"P6 +2 1 255 ", SIX, Err(41)),
    (b"P6\n2 0\n255\n", b"", Err(41)),
    (b"P6 0 1 255 ", b"", Err(41)),
    (b"P6 65536 1 255 ", b"", Err(41)),
    (b"P6 1 65536 255 ", b"", Err(41)),
    (b"P6 65535 65535 255 ", b"", Err(42)),
    (b"P6 2 1 254 ", SIX, Err(41)),
    (b"P6 2 1 65535 ", SIX, Err(41)),
];

fn rows() -> &'static [(&'static [u8], &'static [u8], Result<(u32, u32), u16>)] {
    &ROWS
}

// The sides of the image in some bytes, or the number of the fault.
fn sides(alloc: Global, bytes: &[u8]) -> Result<(u32, u32), u16> {
    match read(alloc, bytes) {
        Ok(image) => Ok((image.w, image.h)),
        Err(fault) => Err(fault.code()),
    }
}

#[test]
fn reads_files_by_hand(rt: HostRuntime) {
    for (head, samples, wanted) in rows() {
        let mut bytes = Vec::from_slice(rt.alloc(), head).expect(&rt, "memory");
        bytes.extend_from_slice(samples).expect(&rt, "memory");
        let found = (*head, sides(rt.alloc(), &bytes));
        equal(&rt, "a head and an image", &found, &(*head, *wanted));
    }
}

// Asserts that these are the wanted bytes.
fn check(rt: &impl Abort, what: &str, found: Vec<u8>, wanted: &[u8]) {
    equal(rt, what, &found.as_slice(), &wanted);
}

#[test]
fn keeps_the_raster(rt: HostRuntime) {
    let image = read(rt.alloc(), b"P6\n2 1\n255\n\x00\x01\x02\xfd\xfe\xff");
    let raster = image.expect(&rt, "an image").raster;
    check(&rt, "a raster", raster, b"\x00\x01\x02\xfd\xfe\xff");
}

#[test]
fn writes_files_by_hand(rt: HostRuntime) {
    let white = write(rt.alloc(), 2, 1, b"\xff\xff\xff\xff\xff\xff");
    check(
        &rt,
        "white",
        white.expect(&rt, "a file"),
        b"P6\n2 1\n255\n\xff\xff\xff\xff\xff\xff",
    );
    let red = write(rt.alloc(), 3, 1, b"\xff\x00\x00\xff\x00\x00\xff\xff\xff");
    check(
        &rt,
        "red",
        red.expect(&rt, "a file"),
        b"P6\n3 1\n255\n\xff\x00\x00\xff\x00\x00\xff\xff\xff",
    );
    let longest = header(65_535, 65_535);
    equal(
        &rt,
        "a header",
        &longest.as_str(),
        &"P6\n65535 65535\n255\n",
    );
    let begun = start(rt.alloc(), 256, 100).expect(&rt, "a file");
    check(&rt, "begun", begun, b"P6\n256 100\n255\n");
}
