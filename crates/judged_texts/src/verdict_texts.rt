// Texts about verdicts, and steps behind them.

// Names and texts.
pub static TEXTS: [(&str, &[u8]); 28] = [
    ("open by a formula", b"p t 2\nf ((1>2)&(1&-2))\n"),
    ("open by a root", b"p w 1\nr 1\n"),
    (
        "refuted",
        b"p t 2\nf ((1>2)&(1&-2))\nu 12 9\nu 12 10\nu 14 6\nu 14 7\nu 16 5\nu 13 3\nu 18 15\nu 19 17\ne 20\n",
    ),
    (
        "refuted but not settled",
        b"p t 2\nf ((1>2)&(1&-2))\nu 12 9\nu 12 10\nu 14 6\nu 14 7\nu 16 5\nu 13 3\nu 18 15\nu 19 17\n",
    ),
    (
        "settled too early",
        b"p t 2\nf ((1>2)&(1&-2))\nu 12 9\nu 12 10\nu 14 6\nu 14 7\nu 16 5\nu 13 3\nu 18 15\ne 19\n",
    ),
    (
        "refuted with a step left out",
        b"p t 2\nf ((1>2)&(1&-2))\nu 12 9\nu 12 10\nu 14 6\nu 14 7\nu 16 5\nu 18 15\n",
    ),
    (
        "refuted with strikes",
        b"p t 2\nf ((1>2)&(1&-2))\nu 12 9\nx 11\nu 12 10\nx 12\nu 14 6\nu 14 7\nx 14\nu 16 5\nu 13 3\nu 18 15\nu 19 17\nx 19\ne 20\n",
    ),
    (
        "refuted with a definition",
        b"p t 2\nf ((1>2)&(1&-2))\nd 7 16 6\nu 12 9\nu 12 10\nu 16 6\nu 16 7\nu 18 5\nu 15 3\nu 20 17\nu 21 19\ne 22\n",
    ),
    (
        "refuted by gates",
        b"p t 1\ng 16 1\ng 1 1 2\nr 3\nu 6 3\nu 6 4\nu 2 7\nu 9 8\ne 10\n",
    ),
    ("refuted by code 0", b"p t 1\ng 0 1 1\nr 2\nu 1 2\ne 3\n"),
    (
        "refuted in a wide plan",
        b"p w 2\ng 16 1\ng 9 3 2\ng 16 2\ng 2 4 1 5\nr 6\nu 12 8\nu 12 9\nu 12 10\nu 14 2\nu 15 7\nu 13 5\nu 18 16\nu 19 17\ne 20\n",
    ),
    (
        "the wide steps on other gates",
        b"p t 2\nf ((1>2)&(1&-2))\nu 12 8\n",
    ),
    (
        "settle again",
        b"p t 2\nf ((1>2)&(1&-2))\nu 12 9\nu 12 10\nu 14 6\nu 14 7\nu 16 5\nu 13 3\nu 18 15\nu 19 17\ne 20\ne 20\n",
    ),
    (
        "settle by nothing when closed",
        b"p t 2\nf ((1>2)&(1&-2))\nu 12 9\nu 12 10\nu 14 6\nu 14 7\nu 16 5\nu 13 3\nu 18 15\nu 19 17\ne 20\ne 99\n",
    ),
    (
        "show when refuted",
        b"p t 2\nf ((1>2)&(1&-2))\nu 12 9\nu 12 10\nu 14 6\nu 14 7\nu 16 5\nu 13 3\nu 18 15\nu 19 17\ne 20\nv 11\n",
    ),
    (
        "resolve when refuted",
        b"p t 2\nf ((1>2)&(1&-2))\nu 12 9\nu 12 10\nu 14 6\nu 14 7\nu 16 5\nu 13 3\nu 18 15\nu 19 17\ne 20\nu 12 9\n",
    ),
    ("runs with none on", b"p t 2\nf (1>2)\nv 00\n"),
    ("runs with one on", b"p t 2\nf ((1>2)&(1^2))\nv 01\n"),
    ("runs with two on", b"p t 2\nf ((1>2)&1)\nv 11\n"),
    (
        "runs in a wide plan",
        b"p w 2\ng 16 1\ng 9 3 2\ng 1 4 1\nr 5\nv 11\n",
    ),
    ("show again", b"p t 2\nf (1>2)\nv 11\nv 11\n"),
    (
        "show a wrong count when closed",
        b"p t 2\nf (1>2)\nv 11\nv 1\n",
    ),
    (
        "show a false setting when closed",
        b"p t 2\nf (1>2)\nv 11\nv 10\n",
    ),
    ("resolve when closed", b"p t 2\nf (1>2)\nv 11\nu 9 9\n"),
    ("strike when closed", b"p t 2\nf (1>2)\nv 11\nx 9\n"),
    ("settle when closed", b"p t 2\nf (1>2)\nv 11\ne 1\n"),
    (
        "define by no code when closed",
        b"p t 2\nf (1>2)\nv 11\nd 9 99 9\n",
    ),
    ("define when closed", b"p t 2\nf (1>2)\nv 11\nd 4 1 1 2\n"),
];
