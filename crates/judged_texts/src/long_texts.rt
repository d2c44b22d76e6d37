// Texts at the limits of bytes, switches and gates.
use crate::parts::Part;

// Names and the parts of texts.
pub static TEXTS: [(&str, &[Part]); 14] = [
    (
        "32768 bytes",
        &[
            Part::Once(b"p t 1\nr 1\nv "),
            Part::Times(32755, b"1"),
            Part::Once(b"\n"),
        ],
    ),
    (
        "32769 bytes",
        &[
            Part::Once(b"p t 1\nr 1\nv "),
            Part::Times(32756, b"1"),
            Part::Once(b"\n"),
        ],
    ),
    ("32769 bytes of no form", &[Part::Times(32769, b"a")]),
    ("32768 bytes not ended", &[Part::Times(32768, b"a")]),
    ("32768 empty lines", &[Part::Times(32768, b"\n")]),
    (
        "a verdict and 33000 bytes",
        &[Part::Once(b"p t 1\nr 1\nv 1\n"), Part::Times(33000, b"\n")],
    ),
    (
        "256 switches on",
        &[
            Part::Once(b"p w 256\nr 256\nv "),
            Part::Times(256, b"1"),
            Part::Once(b"\n"),
        ],
    ),
    (
        "256 switches and 255 digits",
        &[
            Part::Once(b"p w 256\nr 256\nv "),
            Part::Times(255, b"1"),
            Part::Once(b"\n"),
        ],
    ),
    (
        "256 switches and 257 digits",
        &[
            Part::Once(b"p w 256\nr 256\nv "),
            Part::Times(257, b"1"),
            Part::Once(b"\n"),
        ],
    ),
    (
        "the last of 256 switches",
        &[
            Part::Once(b"p t 256\nr 256\nv "),
            Part::Times(255, b"0"),
            Part::Once(b"1\n"),
        ],
    ),
    (
        "all but the last of 256 switches",
        &[
            Part::Once(b"p t 256\nr 256\nv "),
            Part::Times(255, b"1"),
            Part::Once(b"0\n"),
        ],
    ),
    (
        "256 gates",
        &[
            Part::Once(b"p t 1\n"),
            Part::Times(256, b"g 16 1\n"),
            Part::Once(b"r 257\nv 0\n"),
        ],
    ),
    (
        "257 gates",
        &[Part::Once(b"p t 1\n"), Part::Times(257, b"g 16 1\n")],
    ),
    (
        "a 257th gate of no code",
        &[
            Part::Once(b"p t 1\n"),
            Part::Times(256, b"g 16 1\n"),
            Part::Once(b"g 99 9\n"),
        ],
    ),
];
