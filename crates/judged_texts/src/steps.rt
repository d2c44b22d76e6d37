// Texts about steps on an open docket.

// Names and texts.
pub static TEXTS: [(&str, &[u8]); 49] = [
    ("a clause with itself", b"p t 2\nf ((1>2)&(1&-2))\nu 1 1\n"),
    (
        "define the next signal",
        b"p t 2\nf ((1>2)&(1&-2))\nd 7 1 1 2\n",
    ),
    (
        "define the one behind the next",
        b"p t 2\nf ((1>2)&(1&-2))\nd 8 1 1 2\n",
    ),
    (
        "define over itself",
        b"p t 2\nf ((1>2)&(1&-2))\nd 7 1 1 7\n",
    ),
    (
        "define over operand 0",
        b"p t 2\nf ((1>2)&(1&-2))\nd 7 1 0 1\n",
    ),
    (
        "define a signal in use",
        b"p t 2\nf ((1>2)&(1&-2))\nd 6 1 1 2\n",
    ),
    ("define signal 0", b"p t 2\nf ((1>2)&(1&-2))\nd 0 1 1 2\n"),
    ("define by no code", b"p t 2\nf ((1>2)&(1&-2))\nd 7 17 1\n"),
    (
        "define by no code before a wrong count",
        b"p t 2\nf ((1>2)&(1&-2))\nd 9 17 9 9\n",
    ),
    (
        "define with a wrong count",
        b"p t 2\nf ((1>2)&(1&-2))\nd 7 1 1\n",
    ),
    (
        "define with a wrong count before no signal",
        b"p t 2\nf ((1>2)&(1&-2))\nd 9 1 9\n",
    ),
    (
        "define over no signal before a wrong signal",
        b"p t 2\nf ((1>2)&(1&-2))\nd 9 1 9 9\n",
    ),
    (
        "define two",
        b"p t 2\nf ((1>2)&(1&-2))\nd 7 16 6\nd 8 1 7 1\n",
    ),
    (
        "define one twice",
        b"p t 2\nf ((1>2)&(1&-2))\nd 7 16 6\nd 7 16 6\n",
    ),
    (
        "define in a wide plan",
        b"p w 1\nr 1\nd 2 7 1 1 1 1 1 1 1 1\n",
    ),
    (
        "define by a wide code in a two-input plan",
        b"p t 1\nr 1\nd 2 17 1\n",
    ),
    (
        "clauses of a definition",
        b"p t 2\nf (1>2)\nd 4 16 3\nu 4 6\ne 7\n",
    ),
    (
        "clauses left out have no number",
        b"p t 2\nf (1>2)\nd 4 6 1 1\nx 7\n",
    ),
    (
        "clauses not left out have numbers",
        b"p t 2\nf (1>2)\nd 4 6 1 1\nu 5 6\nx 7\n",
    ),
    ("two clashes", b"p t 2\ng 9 1 2\nr 3\nu 1 2\n"),
    (
        "three clashes",
        b"p w 3\ng 10 1 2 3\ng 2 1 2 3\nr 5\nu 4 8\n",
    ),
    ("no clash", b"p t 2\nf (1>2)\nu 1 2\n"),
    ("one clash", b"p t 2\nf (1>2)\nu 3 4\n"),
    ("one clash turned round", b"p t 2\nf (1>2)\nu 4 3\n"),
    ("resolve clause 0", b"p t 2\nf (1>2)\nu 0 1\n"),
    ("resolve clause 5 of four", b"p t 2\nf (1>2)\nu 3 5\n"),
    ("resolve clause 65535", b"p t 2\nf (1>2)\nu 65535 65535\n"),
    (
        "resolve with the new clause",
        b"p t 2\nf (1>2)\nu 3 4\nu 1 5\n",
    ),
    (
        "resolve with a struck clause",
        b"p t 2\nf (1>2)\nx 4\nu 3 4\n",
    ),
    ("strike", b"p t 2\nf (1>2)\nx 1\n"),
    ("strike all", b"p t 2\nf (1>2)\nx 4\nx 3\nx 2\nx 1\n"),
    ("strike clause 0", b"p t 2\nf (1>2)\nx 0\n"),
    ("strike clause 5 of four", b"p t 2\nf (1>2)\nx 5\n"),
    ("strike twice", b"p t 2\nf (1>2)\nx 1\nx 1\n"),
    (
        "a struck number is not given again",
        b"p t 2\nf (1>2)\nu 3 4\nx 5\nu 3 4\ne 5\n",
    ),
    (
        "the number behind a struck one is given",
        b"p t 2\nf (1>2)\nu 3 4\nx 5\nu 3 4\ne 6\n",
    ),
    ("settle by a clause with literals", b"p t 2\nf (1>2)\ne 1\n"),
    ("settle by clause 0", b"p t 2\nf (1>2)\ne 0\n"),
    ("settle by clause 5 of four", b"p t 2\nf (1>2)\ne 5\n"),
    ("settle by a struck clause", b"p t 2\nf (1>2)\nx 1\ne 1\n"),
    ("show one digit too few", b"p t 2\nf (1>2)\nv 1\n"),
    ("show one digit too many", b"p t 2\nf (1>2)\nv 110\n"),
    ("show eight digits for nine", b"p t 9\nr 9\nv 11111111\n"),
    ("show nine digits", b"p t 9\nr 9\nv 000000001\n"),
    (
        "show nine digits the other way",
        b"p t 9\nr 9\nv 100000000\n",
    ),
    (
        "show sixteen digits",
        b"p w 16\ng 1 1 16\nr 17\nv 1010101010101011\n",
    ),
    ("show behind a resolvent", b"p t 2\nf (1>2)\nu 3 4\nv 11\n"),
    (
        "show with all clauses struck",
        b"p t 2\nf (1>2)\nx 1\nx 2\nx 3\nx 4\nv 10\n",
    ),
    (
        "show behind a definition",
        b"p t 2\nf (1>2)\nd 4 0 1 1\nv 01\n",
    ),
];
