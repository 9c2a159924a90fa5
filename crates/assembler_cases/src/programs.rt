// Texts, the lengths of their programs, and the table of 4 entries after. Written by tools/assembly.py.
pub const CASES: [(&str, usize, [(u32, u32); 4]); 18] = [
    (
        "; TinyRAM V=2.000 M=hv W=32 K=16",
        0,
        [
            (0xA5A5A5A5, 1515870810),
            (0xA5A5A5A5, 1515870810),
            (0xA5A5A5A5, 1515870810),
            (0xA5A5A5A5, 1515870810),
        ],
    ),
    (
        "; TinyRAM V=2.000 M=hv W=32 K=16\n",
        0,
        [
            (0xA5A5A5A5, 1515870810),
            (0xA5A5A5A5, 1515870810),
            (0xA5A5A5A5, 1515870810),
            (0xA5A5A5A5, 1515870810),
        ],
    ),
    (
        "; TinyRAM V=2.000 M=hv W=32 K=16\r",
        0,
        [
            (0xA5A5A5A5, 1515870810),
            (0xA5A5A5A5, 1515870810),
            (0xA5A5A5A5, 1515870810),
            (0xA5A5A5A5, 1515870810),
        ],
    ),
    (
        "; TinyRAM V=2.000 M=hv W=32 K=16\r\n",
        0,
        [
            (0xA5A5A5A5, 1515870810),
            (0xA5A5A5A5, 1515870810),
            (0xA5A5A5A5, 1515870810),
            (0xA5A5A5A5, 1515870810),
        ],
    ),
    (
        "; TinyRAM V=2.000 M=hv W=32 K=16\ranswer 0",
        1,
        [
            (0xFC000000, 0),
            (0xA5A5A5A5, 1515870810),
            (0xA5A5A5A5, 1515870810),
            (0xA5A5A5A5, 1515870810),
        ],
    ),
    (
        "; TinyRAM V=2.000 M=hv W=32 K=16\r\nanswer 0\r\n",
        1,
        [
            (0xFC000000, 0),
            (0xA5A5A5A5, 1515870810),
            (0xA5A5A5A5, 1515870810),
            (0xA5A5A5A5, 1515870810),
        ],
    ),
    (
        "; TinyRAM V=2.000 M=hv W=32 K=16\nanswer 0\ranswer 1\nanswer 2\r\nanswer 3",
        4,
        [
            (0xFC000000, 0),
            (0xFC000000, 1),
            (0xFC000000, 2),
            (0xFC000000, 3),
        ],
    ),
    (
        "; TinyRAM V=2.000 M=hv W=32 K=16\n; a comment\ranswer 9",
        1,
        [
            (0xFC000000, 9),
            (0xA5A5A5A5, 1515870810),
            (0xA5A5A5A5, 1515870810),
            (0xA5A5A5A5, 1515870810),
        ],
    ),
    (
        "; TinyRAM V=2.000 M=hv W=32 K=16\n; caf\u{e9} \u{a0} \u{b}\nanswer 1 ; \u{feff}\n",
        1,
        [
            (0xFC000000, 1),
            (0xA5A5A5A5, 1515870810),
            (0xA5A5A5A5, 1515870810),
            (0xA5A5A5A5, 1515870810),
        ],
    ),
    (
        "; TinyRAM V=2.000 M=hv W=32 K=16\n\t \n  ; x\n;\n",
        0,
        [
            (0xA5A5A5A5, 1515870810),
            (0xA5A5A5A5, 1515870810),
            (0xA5A5A5A5, 1515870810),
            (0xA5A5A5A5, 1515870810),
        ],
    ),
    (
        "; TinyRAM V=2.000 M=hv W=32 K=16\njmp _end\n_end:",
        1,
        [
            (0xA4000000, 1),
            (0xA5A5A5A5, 1515870810),
            (0xA5A5A5A5, 1515870810),
            (0xA5A5A5A5, 1515870810),
        ],
    ),
    (
        "; TinyRAM V=2.000 M=hv W=32 K=16\n_end:",
        0,
        [
            (0xA5A5A5A5, 1515870810),
            (0xA5A5A5A5, 1515870810),
            (0xA5A5A5A5, 1515870810),
            (0xA5A5A5A5, 1515870810),
        ],
    ),
    (
        "; TinyRAM V=2.000 M=hv W=32 K=16\n_a:\n_b:\n\n_c: answer _a\n_d: answer _d\nanswer _e\n_e: ; the end",
        3,
        [
            (0xFC000000, 0),
            (0xFC000000, 1),
            (0xFC000000, 3),
            (0xA5A5A5A5, 1515870810),
        ],
    ),
    (
        "; TinyRAM V=2.000 M=hv W=32 K=16\nanswer _b\n_a: answer _a\n_b:answer _b",
        3,
        [
            (0xFC000000, 2),
            (0xFC000000, 1),
            (0xFC000000, 2),
            (0xA5A5A5A5, 1515870810),
        ],
    ),
    (
        "; TinyRAM V=2.000 M=hv W=32 K=16\n_a:\n_A:\nanswer _A",
        1,
        [
            (0xFC000000, 0),
            (0xA5A5A5A5, 1515870810),
            (0xA5A5A5A5, 1515870810),
            (0xA5A5A5A5, 1515870810),
        ],
    ),
    (
        "; TinyRAM V=2.000 M=hv W=32 K=16\n_a: answer _a\n_aa: answer _aa\n",
        2,
        [
            (0xFC000000, 0),
            (0xFC000000, 1),
            (0xA5A5A5A5, 1515870810),
            (0xA5A5A5A5, 1515870810),
        ],
    ),
    (
        "; TinyRAM V=2.000 M=hv W=32 K=16\nanswer 1\nanswer 2\nanswer 3",
        3,
        [
            (0xFC000000, 1),
            (0xFC000000, 2),
            (0xFC000000, 3),
            (0xA5A5A5A5, 1515870810),
        ],
    ),
    (
        "; TinyRAM V=2.000 M=hv W=32 K=16\n\tread r1, 1\n\tstore.w 8, r1\n\tcnjmp _no ; if there was none\n\tanswer 0\n_no:\n",
        4,
        [
            (0xF4400000, 1),
            (0xE4400000, 8),
            (0xB4000000, 4),
            (0xFC000000, 0),
        ],
    ),
];
