// Texts with long clauses, which fill the book with literals.
use crate::parts::Part;

// An `or` of eight `or`s over 64 switches.
const TREE: &[u8] = b"p w 64\ng 15 1 2 3 4 5 6 7 8\ng 15 9 10 11 12 13 14 15 16\n\
    g 15 17 18 19 20 21 22 23 24\ng 15 25 26 27 28 29 30 31 32\n\
    g 15 33 34 35 36 37 38 39 40\ng 15 41 42 43 44 45 46 47 48\n\
    g 15 49 50 51 52 53 54 55 56\ng 15 57 58 59 60 61 62 63 64\n\
    g 15 65 66 67 68 69 70 71 72\nr 73\n";

// From the root down to the clause of all 64 switches, which is clause 91.
const TO_64_LITERALS: &[u8] =
    b"u 81 82\nu 83 9\nu 84 18\nu 85 27\nu 86 36\nu 87 45\nu 88 54\nu 89 63\nu 90 72\n";

// The same without the root, up to a clause of 58 literals, which is clause 89.
const TO_58_LITERALS: &[u8] = b"u 81 9\nu 83 18\nu 84 27\nu 85 36\nu 86 45\nu 87 54\nu 88 63\n";

// Names and the parts of texts.
pub static TEXTS: [(&str, &[Part]); 10] = [
    (
        "a clause of 64 literals",
        &[Part::Once(TREE), Part::Once(TO_64_LITERALS)],
    ),
    (
        "a clause of 65 literals",
        &[
            Part::Once(TREE),
            Part::Once(TO_58_LITERALS),
            Part::Once(b"u 89 72\n"),
        ],
    ),
    (
        "cells for one clause less",
        &[
            Part::Once(TREE),
            Part::Once(TO_64_LITERALS),
            Part::Times(87, b"u 90 72\n"),
        ],
    ),
    (
        "cells spent",
        &[
            Part::Once(TREE),
            Part::Once(TO_64_LITERALS),
            Part::Times(88, b"u 90 72\n"),
        ],
    ),
    (
        "cells for a define",
        &[
            Part::Once(TREE),
            Part::Once(TO_64_LITERALS),
            Part::Times(87, b"u 90 72\n"),
            Part::Once(b"d 74 7 1 2 3 4 5 6 7 8\n"),
        ],
    ),
    (
        "cells spent by a define",
        &[
            Part::Once(TREE),
            Part::Once(TO_64_LITERALS),
            Part::Times(87, b"u 90 72\n"),
            Part::Once(b"d 74 7 1 2 3 4 5 6 7 8\nd 75 0 1\n"),
        ],
    ),
    (
        "a strike gives cells back",
        &[
            Part::Once(TREE),
            Part::Once(TO_64_LITERALS),
            Part::Times(87, b"u 90 72\n"),
            Part::Once(b"x 91\nu 90 72\n"),
        ],
    ),
    (
        "a strike gives too few cells back",
        &[
            Part::Once(TREE),
            Part::Once(TO_64_LITERALS),
            Part::Times(87, b"u 90 72\n"),
            Part::Once(b"x 82\nu 90 72\n"),
        ],
    ),
    (
        "a long clause before cells spent",
        &[
            Part::Once(TREE),
            Part::Once(TO_58_LITERALS),
            Part::Times(97, b"u 88 63\n"),
            Part::Once(b"u 89 72\n"),
        ],
    ),
    (
        "cells spent by a clause that is not long",
        &[
            Part::Once(TREE),
            Part::Once(TO_58_LITERALS),
            Part::Times(97, b"u 88 63\n"),
            Part::Once(b"u 88 63\n"),
        ],
    ),
];
