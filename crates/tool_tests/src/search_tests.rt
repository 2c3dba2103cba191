//! Searches for programs, and proofs that there are none.

use crate::devices::{PLAIN, Ran, assert_says, run};
use std::alloc::{AllocError, Global};
use std::process::Abort;
use std::test::Fail;
use tsl_tool::Status;

/// What is asked, of which text, how the run ends, and what it says.
type Search = (
    &'static [&'static str],
    &'static [u8],
    Status,
    &'static [u8],
);

/// An output copies an input.
const COPY: &[u8] = b"always guarantee { [y <- x]; }";

/// Two requests, each of which is granted some time.
const ARBITER: &[u8] = b"always guarantee { F [g <- a()]; F [g <- b()]; }";

/// A cell keeps its value or takes the input. What holds of the input at some time is to hold of the cell.
const CROSSING: &[u8] =
    b"always guarantee { [y <- y] || [y <- x]; }\nguarantee { F p x -> F p y; }\n";

/// Each of eleven tests holds, or the assumption does not.
const ELEVEN: &[u8] =
    b"assume { false; p0 x; p1 x; p2 x; p3 x; p4 x; p5 x; p6 x; p7 x; p8 x; p9 x; p10 x; }";

/// A room is heated, and a button raises the goal.
const HEATING: &[u8] = b"// heating with a raised goal
always assume { !(hot temp goal && cold temp goal); }
always guarantee {
  pressed button <-> [goal <- raise goal];
  hot temp goal -> [heat <- off()];
  cold temp goal -> [heat <- on()];
  [last <- temp];
  [shown <- last];
}
";

/// How each program for it begins.
const HEATED: &[u8] =
    b"tslprogram 1\ninput temp\ninput button\ncell goal\ncell last\noutput heat\noutput shown\n";

/// What holds of an input is to hold of it and of the cell that took it, one step later.
const KEEPING: &[u8] = b"always guarantee { [y <- x]; } guarantee { p x -> X (p x && p y); }";

/// Ten tests and ten cells, which have 1,024 vectors: too many branches in which a window is looked for.
const TEN_CELLS: &[u8] = b"guarantee { false;
  [a <- x]; [b <- x]; [c <- x]; [d <- x]; [e <- x]; [f <- x]; [g <- x]; [h <- x]; [i <- x]; [j <- x];
  p a; p b; p c; p d; p e; p f; p g; p h; p i; p j; }";

/// An eleventh cell, with which they are 2,048.
const ELEVEN_CELLS: &[u8] = b"guarantee { false;
  [a <- x]; [b <- x]; [c <- x]; [d <- x]; [e <- x]; [f <- x]; [g <- x]; [h <- x]; [i <- x]; [j <- x]; [k <- k];
  p a; p b; p c; p d; p e; p f; p g; p h; p i; p j; [k <- x]; }";

/// Searches with one text each.
const SEARCHES: &[Search] = &[
    (
        &[
            "synth",
            "--states",
            "1",
            "--bound",
            "0",
            "--env-states",
            "1",
        ],
        b"guarantee { false; }",
        Status::No,
        b"none\nstates 1\nbound 0\nreason genuine\nenvironment 1\nvector 0\nstate 0 truths to 0\nend\n",
    ),
    (
        &["synth", "--rounds", "0"],
        CROSSING,
        Status::No,
        b"none\nstates 2\nbound 2\nreason rounds 0\nend\n",
    ),
    (
        &["synth", "--states", "1"],
        ARBITER,
        Status::No,
        b"none\nstates 1\nbound 2\nreason nocounter 2 2\nend\n",
    ),
    (
        &["synth", "--states", "1", "--bound", "full", "--rounds", "0"],
        ARBITER,
        Status::No,
        b"none\nstates 1\nbound 5\nreason rounds 0\nend\n",
    ),
    (
        &[
            "synth",
            "--states",
            "1",
            "--env-states",
            "3",
            "--env-bound",
            "1",
        ],
        ARBITER,
        Status::No,
        b"none\nstates 1\nbound 2\nreason nocounter 3 1\nend\n",
    ),
    (
        &[
            "synth",
            "--states",
            "1",
            "--env-states",
            "1",
            "--rounds",
            "1",
        ],
        KEEPING,
        Status::No,
        b"none\nstates 1\nbound 2\nround 0\nenvironment 1\ntest 0 p x\ntest 1 p y\n\
        vector 0 [y <- x]\nvector 1 [y <- y]\nstate 0 truths 1 0 to 0 0\n\
        window p x at 0 is p y at 1 when [y <- x] at 0\nreason rounds 1\nend\n",
    ),
    (
        &["prove", "--states", "1"],
        COPY,
        Status::No,
        b"satisfiable\n",
    ),
    (
        &["prove", "--states", "2"],
        ARBITER,
        Status::No,
        b"satisfiable\n",
    ),
    (&["synth"], ELEVEN, Status::Large, b"large predicates 10\n"),
    (&["prove"], ELEVEN, Status::Large, b"large predicates 10\n"),
    (
        &["synth", "--states", "1"],
        TEN_CELLS,
        Status::Large,
        b"large branches 10000000\n",
    ),
    (
        &["synth", "--states", "1"],
        ELEVEN_CELLS,
        Status::Large,
        b"large vectors 1024\n",
    ),
    // windows that list an equality, or say that one is true
    (
        &["synth", "--states", "1"],
        b"guarantee { eq x z && p x -> p z; }",
        Status::Done,
        b"tslprogram 1\ninput x\ninput z\nwindow p x at 0 is p z at 0 when eq x z at 0\nnode 0 set go 0\nstate 0 at 0\nend\n",
    ),
    (
        &["synth", "--states", "1"],
        b"guarantee { eq x x; }",
        Status::Done,
        b"tslprogram 1\ninput x\nwindow true is eq x x at 0\nnode 0 set go 0\nstate 0 at 0\nend\n",
    ),
    (
        &["prove"],
        b"guarantee { a; } }",
        Status::Reading,
        b"fault spec 1:18 form\n",
    ),
    (
        &["prove", "--states", "1", "--bound", "0"],
        b"assume { false; } guarantee { false; }",
        Status::No,
        b"satisfiable\n",
    ),
];

/// Two grants in turn, in one order and in the other.
const TURNS: &[&[u8]] = &[
    b"tslprogram 1\noutput g\nnode 0 set [g <- a()] go 1\nnode 1 set [g <- b()] go 0\nstate 0 at 0\nstate 1 at 1\nend\n",
    b"tslprogram 1\noutput g\nnode 0 set [g <- b()] go 1\nnode 1 set [g <- a()] go 0\nstate 0 at 0\nstate 1 at 1\nend\n",
];

/// Runs with these words on a text.
fn asked(alloc: Global, words: &[&str], text: &[u8]) -> Result<Ran, AllocError> {
    run(alloc, words, text, PLAIN, PLAIN, PLAIN)
}

/// Asserts what `recheck` or `check` says of these texts one after another.
fn assert_said_of(
    rt: &impl Abort,
    alloc: Global,
    word: &str,
    front: &[u8],
    text: &[u8],
    says: &[u8],
) -> Result<(), AllocError> {
    let mut whole = Vec::from_slice(alloc, front)?;
    whole.extend_from_slice(text)?;
    let ran = asked(alloc, &[word], &whole)?;
    assert_says(rt, &ran, Status::Done, says);
    Ok(())
}

/// How many lines begin with these bytes.
fn lines_with(text: &[u8], front: &[u8]) -> usize {
    text.split(|byte| *byte == b'\n')
        .filter(|line| line.starts_with(front))
        .count()
}

#[test]
fn each_search_has_its_answer(rt: HostRuntime) -> Result<(), Fail> {
    for (words, text, status, says) in SEARCHES {
        let ran = asked(rt.alloc(), *words, *text)?;
        assert_says(&rt, &ran, *status, *says);
    }
    Ok(())
}

/// The words for two states, by the usual bound and by the full one.
const OF_TWO_STATES: &[&[&str]] = &[
    &["synth", "--states", "2"],
    &["synth", "--states", "2", "--bound", "full"],
];

#[test]
fn two_states_grant_in_turn(rt: HostRuntime) -> Result<(), Fail> {
    for words in OF_TWO_STATES {
        let ran = asked(rt.alloc(), *words, ARBITER)?;
        let turn = TURNS.iter().any(|program| *program == ran.out.as_slice());
        assert_eq!(rt; ran.status, Status::Done);
        assert_eq!(rt; turn, true);
    }
    Ok(())
}

#[test]
fn a_spent_budget_tells_as_many_clauses(rt: HostRuntime) -> Result<(), Fail> {
    let text = b"always guarantee { F [g <- a()]; F [g <- b()]; F [g <- c()]; }";
    let words = ["synth", "--rounds", "0", "--budget", "1"];
    let ran = asked(rt.alloc(), &words, text)?;
    assert_eq!(rt; ran.status, Status::Spent);
    assert_eq!(rt;
        ran.out
            .starts_with(b"spent controller\nsizes 2 2\nautomaton "),
        true
    );
    assert_eq!(rt; lines_with(&ran.out, b"clause "), 1);
    assert_eq!(rt; ran.out.ends_with(b"\nend\n"), true);
    let same = asked(rt.alloc(), &["prove", "--budget", "1"], text)?;
    assert_says(&rt, &same, Status::Spent, &ran.out);
    Ok(())
}

#[test]
fn what_crosses_a_step_is_found_by_a_window(rt: HostRuntime) -> Result<(), Fail> {
    let alloc = rt.alloc();
    let ran = asked(alloc, &["synth"], CROSSING)?;
    assert_eq!(rt; ran.status, Status::Done);
    assert_eq!(rt; lines_with(&ran.out, b"window"), 1);
    let line = b"window p x at 0 is p y at 1 when [y <- x] at 0";
    assert_eq!(rt; lines_with(&ran.out, line), 1);
    assert_said_of(&rt, alloc, "check", CROSSING, &ran.out, b"accepted\n")?;
    Ok(())
}

#[test]
fn a_budget_is_spent_whole_or_there_is_an_answer(rt: HostRuntime) -> Result<(), Fail> {
    let alloc = rt.alloc();
    for budget in 1..65u32 {
        let number = format!(in alloc; "{budget}")?;
        let ran = asked(alloc, &["synth", "--budget", number.as_str()], CROSSING)?;
        if ran.status == Status::Spent {
            assert_eq!(rt; lines_with(&ran.out, b"clause "), budget as usize);
        } else {
            assert_eq!(rt; ran.status, Status::Done);
        }
    }
    Ok(())
}

#[test]
fn a_proof_is_verified(rt: HostRuntime) -> Result<(), Fail> {
    let alloc = rt.alloc();
    let proof = asked(alloc, &["prove", "--states", "1"], ARBITER)?;
    assert_eq!(rt; proof.status, Status::Done);
    assert_eq!(rt;
        proof
            .out
            .starts_with(b"c (G F [g <- a()] && G F [g <- b()])\np cnf "),
        true
    );
    assert_said_of(&rt, alloc, "recheck", b"", &proof.out, b"verified\n")?;
    Ok(())
}

#[test]
fn a_heating_is_written_and_accepted(rt: HostRuntime) -> Result<(), Fail> {
    let alloc = rt.alloc();
    let ran = asked(alloc, &["synth"], HEATING)?;
    assert_eq!(rt; ran.status, Status::Done);
    assert_eq!(rt; ran.out.starts_with(HEATED), true);
    assert_eq!(rt; lines_with(&ran.out, b"window"), 0);
    assert_said_of(&rt, alloc, "check", HEATING, &ran.out, b"accepted\n")?;
    Ok(())
}

/// An output with so many choices.
fn choices_of_one_output(alloc: Global, count: u32) -> Result<Vec<u8>, AllocError> {
    let mut text = Vec::from_slice(alloc, b"assume { false; } guarantee { [y <- f0()]")?;
    for choice in 1..count {
        let update = format!(in alloc; " || [y <- f{}()]", choice)?;
        text.extend_from_slice(update.as_bytes())?;
    }
    text.extend_from_slice(b"; }")?;
    Ok(text)
}

#[test]
fn sixty_four_bits_are_searched_and_sixty_five_are_too_many(rt: HostRuntime) -> Result<(), Fail> {
    let alloc = rt.alloc();
    let most = asked(alloc, &["synth"], &choices_of_one_output(alloc, 64)?)?;
    assert_eq!(rt; most.status, Status::Done);
    let more = asked(alloc, &["synth"], &choices_of_one_output(alloc, 65)?)?;
    assert_says(&rt, &more, Status::Large, b"large bits 64\n");
    Ok(())
}
