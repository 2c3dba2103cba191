//! What runs say of words and of texts.

use crate::devices::{
    COPIED, COPY, Case, Repeated, assert_each, assert_repeated, assert_run, repeated,
};
use std::test::Fail;
use synthesis_commands::whole_text;
use tsl_reader::read_spec;

/// The program without signals.
const EMPTY: &[u8] = b"tslprogram 1\nnode 0 set go 0\nstate 0 at 0\nend\n";

/// That one state is too few.
const NONE: &[u8] = b"none\nstates 1\nbound 2\nreason rounds 0\nend\n";

/// A formula whose four clauses are all signs of two variables, and the line `lrat`.
const SQUARE: &[u8] = b"p cnf 2 4\n1 2 0\n1 -2 0\n-1 2 0\n-1 -2 0\nlrat\n";

/// Words that are refused.
const OTHER_WORDS: &[&[&str]] = &[
    &[],
    &["frob"],
    &["synth", "x"],
    &["synth", "--states"],
    &["synth", "--states", "0"],
    &["synth", "--states", "9"],
    &["synth", "--states", "-1"],
    &["synth", "--states=9"],
    &["synth", "--states", ""],
    &["synth", "--bound", "16"],
    &["synth", "--budget", "0"],
    &["synth", "--budget", "1000001"],
    &["synth", "--rounds", "65"],
    &["synth", "--depth", "4"],
    &["synth", "--help"],
    &["synth", "-h"],
    &["synth", "states", "1"],
    &["synth", "1", "--states"],
    &["synth", "--states", "1", "--states", "1"],
    &["synth", "--states", "1", "--bound"],
    &["synth", "--states", "1", "--bound", "2", "x", "3"],
    &["prove", "--rounds", "0"],
    &["prove", "--states", "9"],
    &["prove", "--budget", "2", "--bound", "3", "--budget", "2"],
    &["check", "x"],
    &["check", "--states", "1"],
    &["check", "--bound"],
    &["check", "--bound", "16"],
    &["check", "--bound", "full"],
    &["run", "x"],
    &["recheck", "x"],
    &["recheck", "--states", "1"],
    &["gen"],
    &["gen", "0"],
    &["gen", "6"],
    &["circuit", "--bound", "16"],
    &["circuit", "--states", "1"],
    &["automaton", "--bound", "1"],
    &["accepts", "x"],
];

/// Words with which a source without a byte has the program without signals.
const SYNTH_WORDS: &[&[&str]] = &[
    &["synth", "--states", "1"],
    &["synth", "--states=1"],
    &["synth", "--states", "01", "--"],
    &["synth", "--depth=3", "--states", "+1", "--env-states", "8"],
    &["synth", "--states", "1", "--bound", "0"],
    &["synth", "--bound", "15", "--states", "1"],
    &["synth", "--rounds", "0", "--budget", "1", "--states", "1"],
    &[
        "synth", "--budget", "1000000", "--states", "1", "--rounds", "0", "--bound", "2",
    ],
    &["synth", "--states", "1", "--budget", "20000"],
];

/// Specifications for which a program of one state is enough, and that program.
const BUILT: &[Case] = &[
    (COPY, COPIED),
    (b"always guarantee { [y <- x]; } // copies", COPIED),
    (b"/* a /* b */ { */ always guarantee{[y<-/**/x];}", COPIED),
    (b"always guarantee { [y <- x] }", COPIED),
    (b"always guarantee { [y <- (x)]; }", COPIED),
    (
        b"always guarantee{[y<-x];}guarantee{}always guarantee{[y<-x];}",
        COPIED,
    ),
    (b"", EMPTY),
    (b"always guarantee {}", EMPTY),
    (b"assume {} initially guarantee {}", EMPTY),
    (b"// nothing", EMPTY),
    (
        b"\talways\r\nguarantee{[y<-x];[z<-y];[w <- z] ; [v <- v];[ y <- x ];}\n",
        b"tslprogram 1\ninput x\ncell y\ncell z\ncell v\noutput w\nnode 0 set [y <- x] [z <- y] [v <- v] [w <- z] go 0\nstate 0 at 0\nend\n",
    ),
    (
        b"always guarantee { [y <- f x (g y) c()]; }",
        b"tslprogram 1\ninput x\ncell y\nnode 0 set [y <- f x (g y) c()] go 0\nstate 0 at 0\nend\n",
    ),
    (b"assume { false; } guarantee { false; }", EMPTY),
    (
        b"initially guarantee { [y <- x] } // last semicolon missing",
        COPIED,
    ),
    (
        b"guarantee { [y <- x]; } always guarantee { [y <- x] || [y <- x] && X false; }",
        COPIED,
    ),
    (
        b"assume { (a U b) && c; }",
        b"tslprogram 1\ninput a\ninput b\ninput c\nnode 0 set go 0\nstate 0 at 0\nend\n",
    ),
    (
        b"always guarantee { p x <-> [y <- x]; q y -> q y; }",
        b"tslprogram 1\ninput x\ncell y\nnode 0 set [y <- x] go 0\nnode 1 set [y <- y] go 0\nnode 2 if p x then 0 else 1\nstate 0 at 2\nend\n",
    ),
    (
        b"moves s v = [s <- v]; always guarantee { moves y x; }",
        COPIED,
    ),
    (
        b"always guarantee { copied; } copied = [y <- x]; never q = p q z;",
        COPIED,
    ),
    (
        b"assume { false; p0 x; p1 x; p2 x; p3 x; p4 x; p5 x; p6 x; p7 x; p8 x; p9 x; }",
        b"tslprogram 1\ninput x\nnode 0 set go 0\nstate 0 at 0\nend\n",
    ),
];

/// Each of twenty names stands for the one before it, twice.
const DOUBLED: &[u8] =
    b"a0 = b; a1 = a0 && a0; a2 = a1 && a1; a3 = a2 && a2; a4 = a3 && a3; a5 = a4 && a4; \
          a6 = a5 && a5; a7 = a6 && a6; a8 = a7 && a7; a9 = a8 && a8; a10 = a9 && a9; \
          a11 = a10 && a10; a12 = a11 && a11; a13 = a12 && a12; a14 = a13 && a13; \
          a15 = a14 && a14; a16 = a15 && a15; a17 = a16 && a16; a18 = a17 && a17; \
          a19 = a18 && a18; a20 = a19 && a19; guarantee { a20; }";

/// Texts that are refused: each refusal has its place and its name.
const REFUSED: &[Case] = &[
    (b"guarantee { a U b && c; }", b"fault spec 1:19 form\n"),
    (b"guarantee { p x; p x z; }", b"fault spec 1:18 arity p\n"),
    (
        b"guarantee { f x; [y <- f x]; }",
        b"fault spec 1:24 kind f\n",
    ),
    (b"guarantee { /* a; }", b"fault spec 1:13 comment\n"),
    (b"guarantee { a\x80; }", b"fault spec 1:14 byte\n"),
    (b"guarantee { a; } }", b"fault spec 1:18 form\n"),
    (b"guarantee {", b"fault spec 1:12 form\n"),
    (b"guarantee {\n  a;\n}  }", b"fault spec 3:4 form\n"),
    (b"guarantee {\n  a;\n", b"fault spec 3:1 form\n"),
    (
        b"guarantee {\n ab' x;\n\n  [y <- ab' x];\n}",
        b"fault spec 4:9 kind ab'\n",
    ),
    (b"always guarantee { [X <- x]; }", b"fault spec 1:21 form\n"),
    (b"always guarantee { [y <- 7]; }", b"fault spec 1:26 form\n"),
    // A name where a section may begin begins a definition.
    (b"alwaysguarantee { [y <- x]; }", b"fault spec 1:17 form\n"),
    // A bad byte or an open comment goes before a fault of form that stands in front of it.
    (b"} \x80", b"fault spec 1:3 byte\n"),
    (b"} /*", b"fault spec 1:3 comment\n"),
    // A fault of form goes before one of kind, which goes before one of arity.
    (
        b"guarantee { f x; [y <- f x]; } }",
        b"fault spec 1:32 form\n",
    ),
    (
        b"guarantee { p x; p x z; [y <- p]; }",
        b"fault spec 1:31 kind p\n",
    ),
    (b"guarantee { a; } guarantee {", b"fault spec 1:29 form\n"),
    // The faults of definitions.
    (
        b"a = b; b = X a; guarantee { a; }",
        b"fault spec 1:1 cycle a\n",
    ),
    (b"a = b; a = c;", b"fault spec 1:8 defined a\n"),
    (
        b"moves s v = [s <- v]; guarantee { moves y; }",
        b"fault spec 1:35 arity moves\n",
    ),
    (
        b"slow = p x; guarantee { f slow; }",
        b"fault spec 1:27 kind slow\n",
    ),
    // A text that doubles at each definition.
    (DOUBLED, b"large nodes 10000\n"),
];

/// What `recheck` says of texts.
const FORMULAS: &[Case] = &[
    (b"p cnf 1 2\n1 0\n-1 0\n3 0 1 2 0\n", b"fault parts lrat\n"),
    (b"p cnf 1 x\n lrat\nlrat \n", b"fault parts lrat\n"),
    (b"", b"fault parts lrat\n"),
    (b"lrat", b"fault cnf 1 form\n"),
    (
        b"p cnf 2 2\n1 2 0\nlrat\n5 0 1 2 0\n",
        b"fault cnf 3 form\n",
    ),
    (b"p cnf 1048577 2000001\nlrat\n", b"fault cnf 2 form\n"),
    (b"p cnf 1048577 0\nlrat\nx", b"large variables 1048576\n"),
    (b"p cnf 1048576 0\nlrat\nx", b"fault log 1 form\n"),
];

/// What `recheck` says of the formula `SQUARE` and these logs.
const LOGS: &[Case] = &[
    (b"5 1 0 1 2 0\n6 0 5 3 4 0\n", b"verified\n"),
    (
        b"5 1 0 1 2 0\n5 d 1 2 0\nc lrat\n6 0 5 3 4 0",
        b"verified\n",
    ),
    (b"5 1 0 1 0\n6 0 5 3 4 0\n", b"refused hint 5 2\n"),
    (b"5 1 0 2 3 0\n6 0 5 3 4 0\n", b"refused hint 5 2\n"),
    (b"5 1 0 1 2 0\n", b"refused unfinished\n"),
    (b"", b"refused unfinished\n"),
    (b"4 1 0 1 2 0\n6 0 5 3 4 0\n", b"refused line 4\n"),
    (b"5 1 0 -1 0\n6 0 5 3 4 0\n", b"fault log 1 form\n"),
    (b"5 1 0 1 2 0\nlrat\n6 0 5 3 4 0\n", b"fault log 2 form\n"),
    (b"5 1 0 1 2 0\n6 0 5 3 4\n", b"fault log 2 form\n"),
];

/// What `synth` says for one state.
const REPEATED: &[Repeated] = &[
    // Level 200 is read and level 201 is deep.
    (b"guarantee { ", b"!", 200, b"a; }", NONE),
    (
        b"guarantee { ",
        b"!",
        201,
        b"a; }",
        b"fault spec 1:213 deep\n",
    ),
    // What a use stands for at level 198, in its brackets, nests to level 200; and one more.
    (b"d = X a; guarantee { ", b"!", 198, b"d; }", NONE),
    (
        b"d = X a; guarantee { ",
        b"!",
        199,
        b"d; }",
        b"fault spec 1:221 deepuse d\n",
    ),
    // The conjunction, two nodes for each name and one for `true`: 10,000 nodes, and one more.
    (b"guarantee { ", b"a; ", 4_999, b"true; }", NONE),
    (b"guarantee { ", b"a; ", 5_000, b"}", b"large nodes 10000\n"),
    (
        b"guarantee { a; ",
        b"b; ",
        100_000,
        b"}",
        b"large nodes 10000\n",
    ),
    // A fault of arity goes before too many nodes.
    (
        b"guarantee { ",
        b"a; ",
        5_000,
        b"p x; p x z; }",
        b"fault spec 1:15018 arity p\n",
    ),
    // With the braces 1,048,576 bytes, and one more.
    (b"guarantee { ", b" ", 1_048_563, b"}", EMPTY),
    (
        b"guarantee { ",
        b" ",
        1_048_564,
        b"}",
        b"large text 1048576\n",
    ),
];

#[test]
fn other_words_are_usage(rt: HostRuntime) -> Result<(), Fail> {
    let usage = b"usage: tsl synth|check|run|prove|recheck|gen|circuit|automaton|accepts\n";
    for words in OTHER_WORDS {
        assert_run(&rt, rt.alloc(), *words, COPY, usage)?;
    }
    Ok(())
}

#[test]
fn options_come_in_any_order(rt: HostRuntime) -> Result<(), Fail> {
    for words in SYNTH_WORDS {
        assert_run(&rt, rt.alloc(), *words, b"", EMPTY)?;
    }
    Ok(())
}

#[test]
fn one_state_is_enough_for_each_specification(rt: HostRuntime) -> Result<(), Fail> {
    assert_each(&rt, rt.alloc(), &["synth", "--states", "1"], b"", BUILT)?;
    Ok(())
}

#[test]
fn each_refusal_has_its_place(rt: HostRuntime) -> Result<(), Fail> {
    assert_each(&rt, rt.alloc(), &["synth"], b"", REFUSED)?;
    assert_each(&rt, rt.alloc(), &["prove"], b"", REFUSED)?;
    assert_each(&rt, rt.alloc(), &["automaton"], b"", REFUSED)?;
    Ok(())
}

#[test]
fn recheck_says_of_each_formula_and_log(rt: HostRuntime) -> Result<(), Fail> {
    assert_each(&rt, rt.alloc(), &["recheck"], b"", FORMULAS)?;
    assert_each(&rt, rt.alloc(), &["recheck"], SQUARE, LOGS)?;
    Ok(())
}

#[test]
fn limits_are_exact(rt: HostRuntime) -> Result<(), Fail> {
    let words = ["synth", "--states", "1", "--rounds", "0"];
    assert_repeated(&rt, rt.alloc(), &words, REPEATED)?;
    Ok(())
}

#[test]
fn the_last_of_two_hundred_and_one_brackets_is_deep(rt: HostRuntime) -> Result<(), Fail> {
    let alloc = rt.alloc();
    let opened = repeated(alloc, b"guarantee {", b"(", 201, b"a")?;
    let text = repeated(alloc, &opened, b")", 201, b";}")?;
    assert_run(&rt, alloc, &["synth"], &text, b"fault spec 1:212 deep\n")?;
    Ok(())
}

#[test]
fn arrows_and_until_are_written_with_brackets(rt: HostRuntime) -> Result<(), Fail> {
    let text = b"guarantee { a -> b -> c; a U (b || c); }";
    let Ok(spec) = read_spec(rt.alloc(), text) else {
        return Err("refused".into());
    };
    assert_eq!(rt;
        whole_text(rt.alloc(), &spec)?.as_slice(),
        b"((a -> (b -> c)) && (a U (b || c)))".as_slice()
    );
    Ok(())
}
