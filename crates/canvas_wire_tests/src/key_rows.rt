//! Rows by the published algorithm (`tests/models/key_rows.py read` and `fresh`). More are in `tests/sessions/keys.session`.

// Heads and digits that are no key's, each with its fault.
static BAD_HEADS: [[&str; 2]; 22] = [
    ["a00", "LastZero"],
    ["a0V0", "LastZero"],
    ["0", "BadHead"],
    ["", "BadHead"],
    ["b1", "TooShort"],
    ["b", "TooShort"],
    ["a", "TooShort"],
    ["a-", "BadDigit"],
    ["a0-", "BadDigit"],
    ["a0 ", "BadDigit"],
    ["-0", "BadHead"],
    [" a0", "BadHead"],
    ["[0", "BadHead"],
    ["`0", "BadHead"],
    ["@0", "BadHead"],
    ["{0", "BadHead"],
    ["a/", "BadDigit"],
    ["a:", "BadDigit"],
    ["a@", "BadDigit"],
    ["a[", "BadDigit"],
    ["a`", "BadDigit"],
    ["a{", "BadDigit"],
];

pub(crate) fn bad_heads() -> &'static [[&'static str; 2]] {
    &BAD_HEADS
}

// Whole parts that are no key's, and what follows them.
static BAD_PARTS: [[&str; 2]; 13] = [
    ["Z", "TooShort"],
    ["Y0", "TooShort"],
    ["Y-", "TooShort"],
    ["z0000000000000000000000000", "TooShort"],
    ["z000000000000000000000000000", "LastZero"],
    ["A0000000000000000000000000", "TooShort"],
    ["A00000000000000000000000000", "LeastInteger"],
    ["A000000000000000000000000000", "LastZero"],
    ["A0000000000000000000000000-", "BadDigit"],
    ["b-", "TooShort"],
    ["b--", "BadDigit"],
    ["b-0", "BadDigit"],
    ["b000", "LastZero"],
];

pub(crate) fn bad_parts() -> &'static [[&'static str; 2]] {
    &BAD_PARTS
}

// Texts of 128 and more bytes, and bytes that are no printed ones.
static BAD_LONG: [[&str; 2]; 10] = [
    [
        "00000000000000000000000000000000000000000000000000000000000000000000000000000000000000000000000000000000000000000000000000000000",
        "BadHead",
    ],
    [
        "000000000000000000000000000000000000000000000000000000000000000000000000000000000000000000000000000000000000000000000000000000000",
        "KeyTooLong",
    ],
    [
        "a0zzzzzzzzzzzzzzzzzzzzzzzzzzzzzzzzzzzzzzzzzzzzzzzzzzzzzzzzzzzzzzzzzzzzzzzzzzzzzzzzzzzzzzzzzzzzzzzzzzzzzzzzzzzzzzzzzzzzzzzzzzzzzzz",
        "KeyTooLong",
    ],
    [
        "a0zzzzzzzzzzzzzzzzzzzzzzzzzzzzzzzzzzzzzzzzzzzzzzzzzzzzzzzzzzzzzzzzzzzzzzzzzzzzzzzzzzzzzzzzzzzzzzzzzzzzzzzzzzzzzzzzzzzzzzzzzzzzz0",
        "LastZero",
    ],
    [
        "a0zzzzzzzzzzzzzzzzzzzzzzzzzzzzzzzzzzzzzzzzzzzzzzzzzzzzzzzzzzzzzzzzzzzzzzzzzzzzzzzzzzzzzzzzzzzzzzzzzzzzzzzzzzzzzzzzzzzzzzzzzzzzzz0",
        "KeyTooLong",
    ],
    [
        "a0zzzzzzzzzzzzzzzzzzzzzzzzzzzzzzzzzzzzzzzzzzzzzzzzzzzzzzzzzzzzzzzzzzzzzzzzzzzzzzzzzzzzzzzzzzzzzzzzzzzzzzzzzzzzzzzzzzzzzzzzzzzzz-",
        "BadDigit",
    ],
    [
        "A0000000000000000000000000000000000000000000000000000000000000000000000000000000000000000000000000000000000000000000000000000000",
        "LastZero",
    ],
    ["a\x00", "BadDigit"],
    ["\x00", "BadHead"],
    ["a0\x7f", "BadDigit"],
];

pub(crate) fn bad_long() -> &'static [[&'static str; 2]] {
    &BAD_LONG
}

// Keys of 2 to 128 bytes.
static KEYS: [&str; 18] = [
    "a0",
    "Zz",
    "a0V",
    "b12",
    "a9",
    "aA",
    "aZ",
    "aa",
    "az",
    "Z0",
    "Y0z",
    "z00000000000000000000000000",
    "A00000000000000000000000000V",
    "A00000000000000000000000001",
    "b00",
    "a0zzzzzzzzzzzzzzzzzzzzzzzzzzzzzzzzzzzzzzzzzzzzzzzzzzzzzzzzzzzzzzzzzzzzzzzzzzzzzzzzzzzzzzzzzzzzzzzzzzzzzzzzzzzzzzzzzzzzzzzzzzzzzz",
    "zzzzzzzzzzzzzzzzzzzzzzzzzzzzzzzzzzzzzzzzzzzzzzzzzzzzzzzzzzzzzzzzzzzzzzzzzzzzzzzzzzzzzzzzzzzzzzzzzzzzzzzzzzzzzzzzzzzzzzzzzzzzzzzz",
    "A0000000000000000000000000000000000000000000000000000000000000000000000000000000000000000000000000000000000000000000000000000001",
];

pub(crate) fn keys() -> &'static [&'static str] {
    &KEYS
}

// A number, and the fresh key that has it.
static FRESH_NUMBERS: [(u32, &str); 31] = [
    (0, "a0"),
    (1, "a1"),
    (9, "a9"),
    (10, "aA"),
    (35, "aZ"),
    (36, "aa"),
    (61, "az"),
    (62, "b00"),
    (63, "b01"),
    (123, "b0z"),
    (124, "b10"),
    (3905, "bzz"),
    (3906, "c000"),
    (3907, "c001"),
    (4095, "c033"),
    (4096, "c034"),
    (16383, "c3FF"),
    (65535, "cG21"),
    (242233, "czzz"),
    (242234, "d0000"),
    (242235, "d0001"),
    (1000000, "d3B82"),
    (15018569, "dzzzz"),
    (15018570, "e00000"),
    (15018571, "e00001"),
    (931151401, "ezzzzz"),
    (931151402, "f000000"),
    (931151403, "f000001"),
    (2147483648, "f1KJba2"),
    (4294967294, "f3feEB2"),
    (4294967295, "f3feEB3"),
];

pub(crate) fn fresh_numbers() -> &'static [(u32, &'static str)] {
    &FRESH_NUMBERS
}
