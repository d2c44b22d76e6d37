// Formulas that nest deep or have many gates.
use crate::parts::Part;

// Names and the parts of texts.
pub static TEXTS: [(&str, &[Part]); 19] = [
    (
        "32 minus signs",
        &[
            Part::Once(b"p t 1\nf "),
            Part::Times(32, b"-"),
            Part::Once(b"1\nv 1\n"),
        ],
    ),
    (
        "33 minus signs",
        &[
            Part::Once(b"p t 1\nf "),
            Part::Times(33, b"-"),
            Part::Once(b"1\n"),
        ],
    ),
    (
        "32 parentheses to the left",
        &[
            Part::Once(b"p t 1\nf "),
            Part::Times(32, b"("),
            Part::Once(b"1"),
            Part::Times(32, b"&1)"),
            Part::Once(b"\nv 1\n"),
        ],
    ),
    (
        "33 parentheses to the left",
        &[
            Part::Once(b"p t 1\nf "),
            Part::Times(33, b"("),
            Part::Once(b"1"),
            Part::Times(33, b"&1)"),
            Part::Once(b"\n"),
        ],
    ),
    (
        "32 parentheses to the right",
        &[
            Part::Once(b"p t 1\nf "),
            Part::Times(32, b"(1&"),
            Part::Once(b"1"),
            Part::Times(32, b")"),
            Part::Once(b"\nv 1\n"),
        ],
    ),
    (
        "33 parentheses to the right",
        &[
            Part::Once(b"p t 1\nf "),
            Part::Times(33, b"(1&"),
            Part::Once(b"1"),
            Part::Times(33, b")"),
            Part::Once(b"\n"),
        ],
    ),
    (
        "16 of both",
        &[
            Part::Once(b"p t 1\nf "),
            Part::Times(16, b"-("),
            Part::Once(b"1"),
            Part::Times(16, b"&1)"),
            Part::Once(b"\nv 1\n"),
        ],
    ),
    (
        "16 of both and one more",
        &[
            Part::Once(b"p t 1\nf -"),
            Part::Times(16, b"-("),
            Part::Once(b"1"),
            Part::Times(16, b"&1)"),
            Part::Once(b"\n"),
        ],
    ),
    (
        "31 minus signs on both sides",
        &[
            Part::Once(b"p t 1\nf ("),
            Part::Times(31, b"-"),
            Part::Once(b"1|"),
            Part::Times(31, b"-"),
            Part::Once(b"1)\nv 0\n"),
        ],
    ),
    (
        "32 minus signs on the right side",
        &[
            Part::Once(b"p t 1\nf (1|"),
            Part::Times(32, b"-"),
            Part::Once(b"1)\n"),
        ],
    ),
    (
        "32 openings and no more",
        &[
            Part::Once(b"p t 1\nf "),
            Part::Times(32, b"("),
            Part::Once(b"\n"),
        ],
    ),
    (
        "33 openings and no more",
        &[
            Part::Once(b"p t 1\nf "),
            Part::Times(33, b"("),
            Part::Once(b"\n"),
        ],
    ),
    (
        "no switch before too deep",
        &[
            Part::Once(b"p t 1\nf (2&"),
            Part::Times(40, b"("),
            Part::Once(b"\n"),
        ],
    ),
    (
        "too deep before no switch",
        &[
            Part::Once(b"p t 1\nf "),
            Part::Times(33, b"("),
            Part::Once(b"2\n"),
        ],
    ),
    (
        "a formula of 256 gates",
        &[
            Part::Once(b"p t 1\nf -"),
            Part::Doubled(8),
            Part::Once(b"\nv 0\n"),
        ],
    ),
    (
        "a formula of 257 gates",
        &[
            Part::Once(b"p t 1\nf --"),
            Part::Doubled(8),
            Part::Once(b"\n"),
        ],
    ),
    (
        "a 257th gate before text behind",
        &[
            Part::Once(b"p t 1\nf --"),
            Part::Doubled(8),
            Part::Once(b")\n"),
        ],
    ),
    (
        "no switch before a 257th gate",
        &[
            Part::Once(b"p t 1\nf --("),
            Part::Doubled(8),
            Part::Once(b"&2)\n"),
        ],
    ),
    (
        "a 257th gate before no switch",
        &[
            Part::Once(b"p t 1\nf ("),
            Part::Doubled(8),
            Part::Once(b"&(--"),
            Part::Doubled(1),
            Part::Once(b"&2))\n"),
        ],
    ),
];
