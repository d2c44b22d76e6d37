// The worked plans: names, texts, and the numbers and cells of the book.
ghost use Rattle.std.specs.Prelude.{◌≡◌, map};
ghost use Rattle.worked_plans.specs.WorkedPlans.{rows, inputs};

// The texts and sizes are those of the rows, in order.
pub fn worked_plans() -> &'static [(&'static str, &'static [u8], u32, u32)]
    ensures { map (λ p. (p.1.now, p.2, p.3)) result.now ≡ map inputs rows }
{
    &PLANS
}

static PLANS: [(&str, &[u8], u32, u32); 25] = [
    ("warm oil", b"p t 2\nf ((1>2)&(1&-2))\n", 2048, 6144),
    (
        "warm oil refuted",
        b"p t 2\nf ((1>2)&(1&-2))\nu 12 9\nu 12 10\nu 14 6\nu 14 7\nu 16 5\nu 13 3\nu 18 15\nu 19 17\ne 20\n",
        2048,
        6144,
    ),
    (
        "all the resolves",
        b"p t 2\nf ((1>2)&(1&-2))\nu 12 9\nu 12 10\nu 14 6\nu 14 7\nu 16 5\nu 13 3\nu 18 15\nu 19 17\n",
        2048,
        6144,
    ),
    (
        "settled by another clause",
        b"p t 2\nf ((1>2)&(1&-2))\nu 12 9\nu 12 10\nu 14 6\nu 14 7\nu 16 5\nu 13 3\nu 18 15\nu 19 17\ne 19\n",
        2048,
        6144,
    ),
    (
        "a strike behind the verdict",
        b"p t 2\nf ((1>2)&(1&-2))\nu 12 9\nu 12 10\nu 14 6\nu 14 7\nu 16 5\nu 13 3\nu 18 15\nu 19 17\ne 20\nx 1\n",
        2048,
        6144,
    ),
    (
        "the last line not ended",
        b"p t 2\nf ((1>2)&(1&-2))\nu 12 9\nu 12 10\nu 14 6\nu 14 7\nu 16 5\nu 13 3\nu 18 15\nu 19 17\ne 20",
        2048,
        6144,
    ),
    (
        "a first resolve with no clash",
        b"p t 2\nf ((1>2)&(1&-2))\nu 12 1\nu 12 10\nu 14 6\nu 14 7\nu 16 5\nu 13 3\nu 18 15\nu 19 17\ne 20\n",
        2048,
        6144,
    ),
    (
        "shown with both on",
        b"p t 2\nf ((1>2)&(1&-2))\nv 11\nu 12 10\nu 14 6\nu 14 7\nu 16 5\nu 13 3\nu 18 15\nu 19 17\ne 20\n",
        2048,
        6144,
    ),
    (
        "shown with one digit",
        b"p t 2\nf ((1>2)&(1&-2))\nv 1\nu 12 10\nu 14 6\nu 14 7\nu 16 5\nu 13 3\nu 18 15\nu 19 17\ne 20\n",
        2048,
        6144,
    ),
    (
        "a gate behind the root",
        b"p t 2\nf ((1>2)&(1&-2))\ng 1 1 2\nu 12 10\nu 14 6\nu 14 7\nu 16 5\nu 13 3\nu 18 15\nu 19 17\ne 20\n",
        2048,
        6144,
    ),
    ("12 numbers, 26 cells", b"p t 2\nf ((1>2)&(1&-2))\n", 12, 26),
    ("11 numbers", b"p t 2\nf ((1>2)&(1&-2))\n", 11, 6144),
    ("25 cells", b"p t 2\nf ((1>2)&(1&-2))\n", 2048, 25),
    (
        "a resolve in 27 cells",
        b"p t 2\nf ((1>2)&(1&-2))\nu 12 9\n",
        20,
        27,
    ),
    (
        "two resolves in 27 cells",
        b"p t 2\nf ((1>2)&(1&-2))\nu 12 9\nu 12 10\n",
        20,
        27,
    ),
    (
        "a strike between",
        b"p t 2\nf ((1>2)&(1&-2))\nu 12 9\nx 1\nu 12 10\n",
        20,
        27,
    ),
    (
        "the next signal defined",
        b"p t 2\nf ((1>2)&(1&-2))\nd 7 1 1 2\n",
        2048,
        6144,
    ),
    (
        "the signal after it defined",
        b"p t 2\nf ((1>2)&(1&-2))\nd 8 1 1 2\n",
        2048,
        6144,
    ),
    (
        "defined over itself",
        b"p t 2\nf ((1>2)&(1&-2))\nd 7 1 1 7\n",
        2048,
        6144,
    ),
    ("if then with 01", b"p t 2\nf (1>2)\nv 01\n", 2048, 6144),
    ("if then with 11", b"p t 2\nf (1>2)\nv 11\n", 2048, 6144),
    ("if then with 10", b"p t 2\nf (1>2)\nv 10\n", 2048, 6144),
    (
        "if then over one switch",
        b"p t 1\ng 13 1 1\nr 2\n",
        2048,
        6144,
    ),
    (
        "alike with two clashes",
        b"p t 2\ng 9 1 2\nr 3\nu 1 2\n",
        2048,
        6144,
    ),
    (
        "alike with one clash",
        b"p t 2\ng 9 1 2\nr 3\nu 5 1\n",
        2048,
        6144,
    ),
];
