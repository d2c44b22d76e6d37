// Texts that fill the book with numbers, or use all signals.
use crate::parts::Part;

// Names and the parts of texts.
pub static TEXTS: [(&str, &[Part]); 20] = [
    (
        "a plan that fits the book",
        &[
            Part::Once(b"p w 8\n"),
            Part::Times(227, b"g 7 1 2 3 4 5 6 7 8\n"),
            Part::Once(b"r 9\n"),
        ],
    ),
    (
        "a plan that does not fit the book",
        &[
            Part::Once(b"p w 8\n"),
            Part::Times(228, b"g 7 1 2 3 4 5 6 7 8\n"),
            Part::Once(b"r 9\n"),
        ],
    ),
    (
        "a plan that does not fit the book and steps",
        &[
            Part::Once(b"p w 8\n"),
            Part::Times(228, b"g 7 1 2 3 4 5 6 7 8\n"),
            Part::Once(b"r 9\n"),
            Part::Once(b"v 11111111\n"),
        ],
    ),
    (
        "a define to the last number",
        &[
            Part::Once(b"p w 8\n"),
            Part::Times(227, b"g 7 1 2 3 4 5 6 7 8\n"),
            Part::Once(b"r 9\n"),
            Part::Once(b"d 236 2 1 2 3\n"),
        ],
    ),
    (
        "a define past the last number",
        &[
            Part::Once(b"p w 8\n"),
            Part::Times(227, b"g 7 1 2 3 4 5 6 7 8\n"),
            Part::Once(b"r 9\n"),
            Part::Once(b"d 236 3 1 2 3 4\n"),
        ],
    ),
    (
        "a book with three numbers left",
        &[
            Part::Once(b"p t 2\n"),
            Part::Times(256, b"g 6 1 2\n"),
            Part::Once(b"r 3\n"),
            Part::Defines(259, 513, b" 6 1 2\n"),
            Part::Once(b"d 514 13 1 1\n"),
        ],
    ),
    (
        "a define that would write two of four",
        &[
            Part::Once(b"p t 2\n"),
            Part::Times(256, b"g 6 1 2\n"),
            Part::Once(b"r 3\n"),
            Part::Defines(259, 513, b" 6 1 2\n"),
            Part::Once(b"d 514 6 1 1\n"),
        ],
    ),
    (
        "a define that wrote two of three",
        &[
            Part::Once(b"p t 2\n"),
            Part::Times(256, b"g 6 1 2\n"),
            Part::Once(b"r 3\n"),
            Part::Defines(259, 513, b" 6 1 2\n"),
            Part::Once(b"d 514 13 1 1\nd 515 0 1 1\n"),
        ],
    ),
    (
        "a define behind the last number",
        &[
            Part::Once(b"p t 2\n"),
            Part::Times(256, b"g 6 1 2\n"),
            Part::Once(b"r 3\n"),
            Part::Defines(259, 513, b" 6 1 2\n"),
            Part::Once(b"d 514 13 1 1\nd 515 0 1 1\nd 516 0 1 1\n"),
        ],
    ),
    (
        "a strike gives no number back",
        &[
            Part::Once(b"p t 2\n"),
            Part::Times(256, b"g 6 1 2\n"),
            Part::Once(b"r 3\n"),
            Part::Defines(259, 513, b" 6 1 2\n"),
            Part::Once(b"d 514 13 1 1\nd 515 0 1 1\nx 1\nd 516 0 1 1\n"),
        ],
    ),
    (
        "a wrong signal before a full book",
        &[
            Part::Once(b"p t 2\n"),
            Part::Times(256, b"g 6 1 2\n"),
            Part::Once(b"r 3\n"),
            Part::Defines(259, 513, b" 6 1 2\n"),
            Part::Once(b"d 515 6 1 1\n"),
        ],
    ),
    (
        "1024 signals",
        &[
            Part::Once(b"p t 1\nr 1\n"),
            Part::Defines(2, 1024, b" 3 1 1\n"),
        ],
    ),
    (
        "1025 signals",
        &[
            Part::Once(b"p t 1\nr 1\n"),
            Part::Defines(2, 1024, b" 3 1 1\n"),
            Part::Once(b"d 1025 3 1 1\n"),
        ],
    ),
    (
        "a wrong signal before 1025 signals",
        &[
            Part::Once(b"p t 1\nr 1\n"),
            Part::Defines(2, 1024, b" 3 1 1\n"),
            Part::Once(b"d 1024 3 1 1\n"),
        ],
    ),
    (
        "a signal past 1025",
        &[
            Part::Once(b"p t 1\nr 1\n"),
            Part::Defines(2, 1024, b" 3 1 1\n"),
            Part::Once(b"d 1026 3 1 1\n"),
        ],
    ),
    (
        "resolve to the last number",
        &[
            Part::Once(b"p t 1\nr 1\n"),
            Part::Defines(2, 1024, b" 3 1 1\n"),
            Part::Once(b"u 1 3\n"),
        ],
    ),
    (
        "resolve past the last number",
        &[
            Part::Once(b"p t 1\nr 1\n"),
            Part::Defines(2, 1024, b" 3 1 1\n"),
            Part::Once(b"u 1 3\nu 1 3\n"),
        ],
    ),
    (
        "no clash before a full book",
        &[
            Part::Once(b"p t 1\nr 1\n"),
            Part::Defines(2, 1024, b" 3 1 1\n"),
            Part::Once(b"u 1 3\nu 1 1\n"),
        ],
    ),
    (
        "a second clash before a full book",
        &[
            Part::Once(b"p t 1\nr 1\n"),
            Part::Defines(2, 1024, b" 3 1 1\n"),
            Part::Once(b"u 1 3\nu 2 3\n"),
        ],
    ),
    (
        "show with a full book",
        &[
            Part::Once(b"p t 1\nr 1\n"),
            Part::Defines(2, 1024, b" 3 1 1\n"),
            Part::Once(b"u 1 3\nv 1\n"),
        ],
    ),
];
