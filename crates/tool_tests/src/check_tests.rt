//! Verdicts on programs under specifications.

use crate::devices::{PLAIN, assert_says, run};
use std::alloc::{AllocError, Global};
use std::process::Abort;
use std::test::Fail;
use tsl_tool::Status;

/// A specification and a program, the bound that is asked for, and what `check` says of them.
#[derive(Clone, Copy)]
struct Pair {
    bound: &'static str,
    spec: &'static [u8],
    program: &'static [u8],
    status: Status,
    says: &'static [u8],
}

/// Two requests, each of which is granted some time.
pub(crate) const ARBITER: &[u8] = b"always guarantee { F [g <- a()]; F [g <- b()]; }\n";

/// A program that grants them in turn.
pub(crate) const IN_TURN: &[u8] =
    b"tslprogram 1\noutput g\nnode 0 set [g <- a()] go 1\nnode 1 set [g <- b()] go 0\nstate 0 at 0\nstate 1 at 1\nend\n";

/// A specification with a test, and a program that tests.
pub(crate) const TESTED: &[u8] = b"always guarantee { p x <-> [y <- x]; q y -> q y; }\n";

pub(crate) const TESTS: &[u8] =
    b"tslprogram 1\ninput x\ncell y\nnode 0 set [y <- x] go 0\nnode 1 set [y <- y] go 0\nnode 2 if p x then 0 else 1\nstate 0 at 2\nend\n";

/// Two cells that take one term.
const TWINS: &[u8] =
    b"always guarantee { [y <- f x] && [z <- f x]; }\nguarantee { X (p y <-> p z); }\n";

/// What holds of a value holds of an equal one.
const EQUAL: &[u8] = b"guarantee { eq x z && p x -> p z; }\n";

/// Copies an input to an output where it has a property.
const COPY: &[u8] = b"always guarantee { p x -> [y <- x]; }\n";

/// The program without signals.
const EMPTY: &[u8] = b"tslprogram 1\nnode 0 set go 0\nstate 0 at 0\nend\n";

/// Takes the first choice of one output.
const FIRST: &[u8] = b"tslprogram 1\noutput y\nnode 0 set [y <- f0()] go 0\nstate 0 at 0\nend\n";

/// The arbiter and the program that grants in turn.
const ACCEPTED: Pair = Pair {
    bound: "2",
    spec: ARBITER,
    program: IN_TURN,
    status: Status::Done,
    says: b"accepted\n",
};

/// Programs and the first verdict on each that applies.
const VERDICTS: &[Pair] = &[
    ACCEPTED,
    Pair {
        bound: "1",
        ..ACCEPTED
    },
    Pair {
        bound: "0",
        status: Status::No,
        says: b"refused bound 0\n",
        ..ACCEPTED
    },
    Pair {
        spec: TESTED,
        program: TESTS,
        ..ACCEPTED
    },
    // The branches are exchanged.
    Pair {
        spec: TESTED,
        program: b"tslprogram 1\ninput x\ncell y\nnode 0 set [y <- x] go 0\nnode 1 set [y <- y] go 0\nnode 2 if p x then 1 else 0\nstate 0 at 2\nend\n",
        status: Status::No,
        says: b"refused bound 2\n",
        ..ACCEPTED
    },
    // What terms mean would save it, and does where a window says so.
    Pair {
        spec: TWINS,
        program: b"tslprogram 1\ninput x\ncell y\ncell z\nnode 0 set [y <- f x] [z <- f x] go 0\nstate 0 at 0\nend\n",
        status: Status::No,
        says: b"refused bound 2\n",
        ..ACCEPTED
    },
    Pair {
        spec: TWINS,
        program: b"tslprogram 1\ninput x\ncell y\ncell z\nwindow p y at 1 is p z at 1 when [y <- f x] at 0 when [z <- f x] at 0\nnode 0 set [y <- f x] [z <- f x] go 0\nstate 0 at 0\nend\n",
        ..ACCEPTED
    },
    // A window that lists an equality, and says one.
    Pair {
        spec: EQUAL,
        program: b"tslprogram 1\ninput x\ninput z\nwindow p x at 0 is p z at 0 when eq x z at 0\nnode 0 set go 0\nstate 0 at 0\nend\n",
        ..ACCEPTED
    },
    Pair {
        spec: EQUAL,
        program: b"tslprogram 1\ninput x\ninput z\nwindow p x at 0 is p z at 0\nnode 0 set go 0\nstate 0 at 0\nend\n",
        status: Status::No,
        says: b"refused window 0\n",
        ..ACCEPTED
    },
    Pair {
        spec: b"guarantee { eq x x; }\n",
        program: b"tslprogram 1\ninput x\nwindow true is eq x x at 0\nnode 0 set go 0\nstate 0 at 0\nend\n",
        ..ACCEPTED
    },
    // A window that reads an input at two steps, also behind one that is congruent.
    Pair {
        spec: COPY,
        program: b"tslprogram 1\ninput x\noutput y\nwindow p x at 0 is p x at 1\nnode 0 set [y <- x] go 0\nstate 0 at 0\nend\n",
        status: Status::No,
        says: b"refused window 0\n",
        ..ACCEPTED
    },
    Pair {
        spec: COPY,
        program: b"tslprogram 1\ninput x\noutput y\nwindow p x at 0 is p x at 0\nwindow p x at 0 is p x at 1\nnode 0 set [y <- x] go 0\nstate 0 at 0\nend\n",
        status: Status::No,
        says: b"refused window 1\n",
        ..ACCEPTED
    },
    // A window with a predicate that the specification lacks, which is said before congruence is looked at.
    Pair {
        spec: COPY,
        program: b"tslprogram 1\ninput x\noutput y\nwindow q x at 0 is q x at 0\nnode 0 set [y <- x] go 0\nstate 0 at 0\nend\n",
        status: Status::No,
        says: b"refused foreign 0\n",
        ..ACCEPTED
    },
    Pair {
        spec: COPY,
        program: b"tslprogram 1\ninput x\noutput y\nwindow p x at 0 is p x at 1\nwindow q x at 0 is q x at 0\nnode 0 set [y <- x] go 0\nstate 0 at 0\nend\n",
        status: Status::No,
        says: b"refused foreign 1\n",
        ..ACCEPTED
    },
    // Without any signal, and with those of another specification, though a test is refused too.
    Pair {
        program: b"tslprogram 1\nnode 0 set go 0\nstate 0 at 0\nend\n",
        status: Status::No,
        says: b"refused signals\n",
        ..ACCEPTED
    },
    Pair {
        program: TESTS,
        status: Status::No,
        says: b"refused signals\n",
        ..ACCEPTED
    },
    // The first node that is refused: a test before a choice, and a choice before a test.
    Pair {
        spec: TESTED,
        program: b"tslprogram 1\ninput x\ncell y\nnode 0 set [y <- x] go 0\nnode 1 if r x then 0 else 0\nnode 2 set [y <- f x] go 0\nstate 0 at 1\nend\n",
        status: Status::No,
        says: b"refused test 1\n",
        ..ACCEPTED
    },
    Pair {
        spec: TESTED,
        program: b"tslprogram 1\ninput x\ncell y\nnode 0 set [y <- f x] go 0\nnode 1 if r x then 0 else 0\nstate 0 at 1\nend\n",
        status: Status::No,
        says: b"refused choice 0\n",
        ..ACCEPTED
    },
    // A predicate term of the specification with exchanged signals is another one.
    Pair {
        spec: TESTED,
        program: b"tslprogram 1\ninput x\ncell y\nnode 0 set [y <- x] go 0\nnode 1 if p y then 0 else 0\nstate 0 at 1\nend\n",
        status: Status::No,
        says: b"refused test 1\n",
        ..ACCEPTED
    },
    // Whatever is assumed false lets every program through.
    Pair {
        spec: b"assume { false; }\nguarantee { false; }\n",
        program: b"tslprogram 1\nnode 0 set go 0\nstate 0 at 0\nend\n",
        ..ACCEPTED
    },
];

/// Texts without a verdict.
const REFUSED: &[Pair] = &[
    Pair {
        program: b"tslprogram 2\n",
        status: Status::Reading,
        says: b"fault parts program\n",
        ..ACCEPTED
    },
    Pair {
        spec: b"guarantee { a U b && c; }\n",
        program: b"tslprogram 1\nend\n",
        status: Status::Reading,
        says: b"fault spec 1:19 form\n",
        ..ACCEPTED
    },
    Pair {
        spec: TESTED,
        program: b"tslprogram 1\ninput x\noutput y\nnode 0 if p x then 0 else 0\nstate 0 at 0\nend\n",
        status: Status::Reading,
        says: b"fault program 4 order\n",
        ..ACCEPTED
    },
    Pair {
        spec: TESTED,
        program: b"tslprogram 1\ninput x\noutput y\nnode 0 set go 0\nstate 0 at 0\nend\n",
        status: Status::Reading,
        says: b"fault program 4 updates\n",
        ..ACCEPTED
    },
    // A name of the specification in another kind.
    Pair {
        spec: TESTED,
        program: b"tslprogram 1\ninput p\ncell y\nnode 0 set [y <- y] go 0\nstate 0 at 0\nend\n",
        status: Status::Reading,
        says: b"fault program 2 kind p\n",
        ..ACCEPTED
    },
    // Behind a window line.
    Pair {
        spec: TESTED,
        program: b"tslprogram 1\ninput x\ncell y\nwindow p x at 0 is p y at 1 when [y <- x] at 0\nnode 0 if p x then 0 else 0\nstate 0 at 0\nend\n",
        status: Status::Reading,
        says: b"fault program 5 order\n",
        ..ACCEPTED
    },
    Pair {
        spec: TESTED,
        program: b"tslprogram 1\ninput x\ncell y\nwindow p x at 0 is p y at 1 when [y <- x] at 0\nnode 0 set go 0\nstate 0 at 0\nend\n",
        status: Status::Reading,
        says: b"fault program 5 updates\n",
        ..ACCEPTED
    },
    // A window that lists another test than an equality.
    Pair {
        spec: EQUAL,
        program: b"tslprogram 1\ninput x\ninput z\nwindow p x at 0 is p z at 0 when p x at 0\nnode 0 set go 0\nstate 0 at 0\nend\n",
        status: Status::Reading,
        says: b"fault program 4 window\n",
        ..ACCEPTED
    },
    Pair {
        spec: b"assume { false; p0 x; p1 x; p2 x; p3 x; p4 x; p5 x; p6 x; p7 x; p8 x; p9 x; p10 x; }\n",
        program: b"tslprogram 1\ninput x\nnode 0 set go 0\nstate 0 at 0\nend\n",
        status: Status::Large,
        says: b"large predicates 10\n",
        ..ACCEPTED
    },
    // That is said before the signals are compared.
    Pair {
        spec: b"assume { false; p0 x; p1 x; p2 x; p3 x; p4 x; p5 x; p6 x; p7 x; p8 x; p9 x; p10 x; }\n",
        program: EMPTY,
        status: Status::Large,
        says: b"large predicates 10\n",
        ..ACCEPTED
    },
    // With ten of them there is a verdict.
    Pair {
        spec: b"assume { false; p0 x; p1 x; p2 x; p3 x; p4 x; p5 x; p6 x; p7 x; p8 x; p9 x; }\n",
        program: b"tslprogram 1\ninput x\nnode 0 set go 0\nstate 0 at 0\nend\n",
        ..ACCEPTED
    },
];

/// Asserts what `check` says of each pair.
fn assert_pairs(rt: &impl Abort, alloc: Global, pairs: &[Pair]) -> Result<(), AllocError> {
    for pair in pairs {
        let mut text = Vec::from_slice(alloc, pair.spec)?;
        text.extend_from_slice(pair.program)?;
        let ran = run(
            alloc,
            &["check", "--bound", pair.bound],
            &text,
            PLAIN,
            PLAIN,
            PLAIN,
        )?;
        assert_says(rt, &ran, pair.status, pair.says);
    }
    Ok(())
}

#[test]
fn the_first_verdict_that_applies_is_said(rt: HostRuntime) -> Result<(), Fail> {
    assert_pairs(&rt, rt.alloc(), VERDICTS)?;
    Ok(())
}

#[test]
fn a_text_without_a_verdict_has_its_fault(rt: HostRuntime) -> Result<(), Fail> {
    assert_pairs(&rt, rt.alloc(), REFUSED)?;
    Ok(())
}

#[test]
fn the_bound_is_two_where_none_is_asked_for(rt: HostRuntime) -> Result<(), Fail> {
    let alloc = rt.alloc();
    let mut text = Vec::from_slice(alloc, ARBITER)?;
    text.extend_from_slice(
        b"tslprogram 1\noutput g\nnode 0 set [g <- a()] go 0\nstate 0 at 0\nend\n",
    )?;
    let ran = run(alloc, &["check"], &text, PLAIN, PLAIN, PLAIN)?;
    assert_says(&rt, &ran, Status::No, b"refused bound 2\n");
    Ok(())
}

/// A specification of one output with so many choices, and a program.
fn choices_of_one_output(alloc: Global, count: u32, program: &[u8]) -> Result<Vec<u8>, AllocError> {
    let mut text = Vec::from_slice(alloc, b"assume { false; }\nguarantee { [y <- f0()]")?;
    for choice in 1..count {
        let update = format!(in alloc; " || [y <- f{}()]", choice)?;
        text.extend_from_slice(update.as_bytes())?;
    }
    text.extend_from_slice(b"; }\n")?;
    text.extend_from_slice(program)?;
    Ok(text)
}

#[test]
fn sixty_four_bits_are_checked_and_sixty_five_are_too_many(rt: HostRuntime) -> Result<(), Fail> {
    let alloc = rt.alloc();
    let most = choices_of_one_output(alloc, 64, FIRST)?;
    let ran = run(alloc, &["check"], &most, PLAIN, PLAIN, PLAIN)?;
    assert_says(&rt, &ran, Status::Done, b"accepted\n");
    // That is said before the signals are compared.
    for program in [FIRST, EMPTY] {
        let more = choices_of_one_output(alloc, 65, program)?;
        let ran = run(alloc, &["check"], &more, PLAIN, PLAIN, PLAIN)?;
        assert_says(&rt, &ran, Status::Large, b"large bits 64\n");
    }
    Ok(())
}
