//! Runs of programs over tables and inputs, with and without a specification.

use crate::devices::{PLAIN, assert_says, run};
use std::alloc::{AllocError, Global};
use std::process::Abort;
use std::test::Fail;
use tsl_tool::Status;

/// The parts of an input, one after another, and what `run` says of it.
#[derive(Clone, Copy)]
struct Input {
    spec: &'static [u8],
    program: &'static [u8],
    tables: &'static [u8],
    inputs: &'static [u8],
    status: Status,
    says: &'static [u8],
}

/// An input or a kept value is copied, and what holds of the input holds of the copy at some time.
const SPEC: &[u8] = b"always guarantee { [y <- y] || [y <- x]; }\nguarantee { F p x -> F p y; }\n";

/// A cell takes the input, and a window says that its value then is that of the input before.
const COPY: &[u8] =
    b"tslprogram 1\ninput x\ncell y\nwindow p x at 0 is p y at 1 when [y <- x] at 0\nnode 0 set [y <- x] go 0\nstate 0 at 0\nend\n";

/// A cell keeps its value.
const KEEP: &[u8] = b"tslprogram 1\ninput x\ncell y\nnode 0 set [y <- y] go 0\nstate 0 at 0\nend\n";

/// A cell takes the input, and nothing is tested.
const SIMPLE: &[u8] =
    b"tslprogram 1\ninput x\ncell y\nnode 0 set [y <- x] go 0\nstate 0 at 0\nend\n";

const TABLES: &[u8] = b"tsltables 1\ndomain 2\npred p 0 1\ncell y 0\n";

const SIMPLE_TABLES: &[u8] = b"tsltables 1\ndomain 2\ncell y 0\n";

const INPUTS: &[u8] = b"tslinputs 1\ninput x\nstem\ncycle row 1\n";

/// The specification, the copying program with its window, its tables and one input row.
const WHOLE: Input = Input {
    spec: SPEC,
    program: COPY,
    tables: TABLES,
    inputs: INPUTS,
    status: Status::Done,
    says: b"at 0 place 0 state 0 x 1 y 0 do [y <- x]\nat 1 place 0 state 0 x 1 y 1 do [y <- x]\nloop 1 1\nwindow 0 holds\nformula holds\n",
};

/// The whole text of an input.
fn text_of(alloc: Global, input: &Input) -> Result<Vec<u8>, AllocError> {
    let mut text = Vec::from_slice(alloc, input.spec)?;
    text.extend_from_slice(input.program)?;
    text.extend_from_slice(input.tables)?;
    text.extend_from_slice(input.inputs)?;
    Ok(text)
}

/// Asserts what `run` says of each input.
fn assert_inputs(rt: &impl Abort, alloc: Global, inputs: &[Input]) -> Result<(), AllocError> {
    for input in inputs {
        let text = text_of(alloc, input)?;
        let ran = run(alloc, &["run"], &text, PLAIN, PLAIN, PLAIN)?;
        assert_says(rt, &ran, input.status, input.says);
    }
    Ok(())
}

/// Inputs that are run.
const RUNS: &[Input] = &[
    // The second position goes on to itself: the window crosses the seam.
    WHOLE,
    Input {
        inputs: b"tslinputs 1\ninput x\nstem\ncycle row 1 row 0\n",
        says: b"at 0 place 0 state 0 x 1 y 0 do [y <- x]\nat 1 place 1 state 0 x 0 y 1 do [y <- x]\nloop 0 2\nwindow 0 holds\nformula holds\n",
        ..WHOLE
    },
    // Without a specification there is no verdict on a formula, and without windows none at all.
    Input {
        spec: b"",
        says: b"at 0 place 0 state 0 x 1 y 0 do [y <- x]\nat 1 place 0 state 0 x 1 y 1 do [y <- x]\nloop 1 1\nwindow 0 holds\n",
        ..WHOLE
    },
    Input {
        spec: b"",
        program: SIMPLE,
        tables: SIMPLE_TABLES,
        inputs: b"tslinputs 1\ninput x\nstem row 1\ncycle row 0\n",
        says: b"at 0 place 0 state 0 x 1 y 0 do [y <- x]\nat 1 place 1 state 0 x 0 y 1 do [y <- x]\nat 2 place 1 state 0 x 0 y 0 do [y <- x]\nloop 2 1\n",
        ..WHOLE
    },
    // The formula fails, and then a window.
    Input {
        program: KEEP,
        status: Status::No,
        says: b"at 0 place 0 state 0 x 1 y 0 do [y <- y]\nloop 0 1\nformula fails\n",
        ..WHOLE
    },
    Input {
        spec: b"",
        program: b"tslprogram 1\ninput x\ncell y\nwindow p x at 0 is p y at 0\nnode 0 set [y <- y] go 0\nstate 0 at 0\nend\n",
        status: Status::No,
        says: b"at 0 place 0 state 0 x 1 y 0 do [y <- y]\nloop 0 1\nwindow 0 fails\n",
        ..WHOLE
    },
    // Equality of two arguments has no table, and is true of the same values.
    Input {
        spec: b"guarantee { !eq x y; X eq x y; [y <- x]; }\n",
        program: SIMPLE,
        tables: SIMPLE_TABLES,
        says: b"at 0 place 0 state 0 x 1 y 0 do [y <- x]\nat 1 place 0 state 0 x 1 y 1 do [y <- x]\nloop 1 1\nformula holds\n",
        ..WHOLE
    },
    // A window lists an equality, and another one says one.
    Input {
        spec: b"",
        program: b"tslprogram 1\ninput x\ncell y\nwindow p x at 0 is p y at 0 when eq x y at 0\nwindow true is eq x y at 1 when [y <- x] at 0\nnode 0 set [y <- x] go 0\nstate 0 at 0\nend\n",
        says: b"at 0 place 0 state 0 x 1 y 0 do [y <- x]\nat 1 place 0 state 0 x 1 y 1 do [y <- x]\nloop 1 1\nwindow 0 holds\nwindow 1 holds\n",
        ..WHOLE
    },
    Input {
        spec: b"",
        program: b"tslprogram 1\ninput x\ncell y\nwindow true is eq x y at 0\nnode 0 set [y <- x] go 0\nstate 0 at 0\nend\n",
        tables: SIMPLE_TABLES,
        status: Status::No,
        says: b"at 0 place 0 state 0 x 1 y 0 do [y <- x]\nat 1 place 0 state 0 x 1 y 1 do [y <- x]\nloop 1 1\nwindow 0 fails\n",
        ..WHOLE
    },
    // The program has an output that the specification has not.
    Input {
        program: b"tslprogram 1\ninput x\ncell y\noutput q\nnode 0 set [y <- y] [q <- x] go 0\nstate 0 at 0\nend\n",
        status: Status::No,
        says: b"refused signals\n",
        ..WHOLE
    },
];

/// Inputs of which a part is missing. That goes before each fault of a part.
const MISSING: &[Input] = &[
    Input {
        program: b"tslprogram 2\n",
        status: Status::Reading,
        says: b"fault parts program\n",
        ..WHOLE
    },
    Input {
        program: b"tslprogram 1\nend\n",
        tables: b" tsltables 1\n",
        status: Status::Reading,
        says: b"fault parts tables\n",
        ..WHOLE
    },
    Input {
        inputs: b"",
        status: Status::Reading,
        says: b"fault parts inputs\n",
        ..WHOLE
    },
    Input {
        spec: b"tslinputs 1\ntsltables 1\n",
        inputs: b"",
        status: Status::Reading,
        says: b"fault parts inputs\n",
        ..WHOLE
    },
    Input {
        spec: b"}",
        program: b"",
        tables: b"",
        inputs: b"",
        status: Status::Reading,
        says: b"fault parts program\n",
    },
];

/// Inputs of which a part is refused. The first part that is refused is told.
const REFUSED: &[Input] = &[
    Input {
        spec: b"guarantee { a U b && c; }\n",
        program: b"tslprogram 1\n",
        status: Status::Reading,
        says: b"fault spec 1:19 form\n",
        ..WHOLE
    },
    Input {
        program: b"tslprogram 1\ninput x\ncell y\nnode 0 if p x then 0 else 0\nstate 0 at 0\nend\n",
        tables: b"tsltables 1\n",
        status: Status::Reading,
        says: b"fault program 4 order\n",
        ..WHOLE
    },
    // The names of the specification are given to the program.
    Input {
        program: b"tslprogram 1\ninput x\ncell y\nnode 0 set [y <- p x] go 0\nstate 0 at 0\nend\n",
        status: Status::Reading,
        says: b"fault program 4 kind p\n",
        ..WHOLE
    },
    Input {
        program: b"tslprogram 1\ninput x\ncell y\nnode 0 set [y <- z] go 0\nstate 0 at 0\nend\n",
        status: Status::Reading,
        says: b"fault program 4 unknown z\n",
        ..WHOLE
    },
    Input {
        tables: b"tsltables 1\ndomain 2\npred p 0\ncell y 0\n",
        inputs: b"tslinputs 1\n",
        status: Status::Reading,
        says: b"fault tables count p\n",
        ..WHOLE
    },
    Input {
        tables: b"tsltables 1\ndomain 2\npred p 0 2\ncell y 0\n",
        status: Status::Reading,
        says: b"fault tables range p 2\n",
        ..WHOLE
    },
    Input {
        tables: b"tsltables 1\ndomain 2\ncell y 0\n",
        status: Status::Reading,
        says: b"fault tables missing p\n",
        ..WHOLE
    },
    Input {
        tables: b"tsltables 1\ndomain 2\npred p 0 1\ncell y 0\ncell y 1\n",
        status: Status::Reading,
        says: b"fault tables 5:6 twice y\n",
        ..WHOLE
    },
    Input {
        tables: b"tsltables 1\ndomain 2\npred p 0 1\nfunc g 0 1\ncell y 0\n",
        status: Status::Reading,
        says: b"fault tables 4:6 unknown g\n",
        ..WHOLE
    },
    Input {
        spec: b"guarantee { eq x y; [y <- x]; }\n",
        program: SIMPLE,
        tables: b"tsltables 1\ndomain 2\npred eq 1 0 0 1\ncell y 0\n",
        status: Status::Reading,
        says: b"fault tables 3:6 unknown eq\n",
        ..WHOLE
    },
    Input {
        tables: b"tsltables 1\ndomain 257\npred p 0 1\ncell y 0\n",
        status: Status::Large,
        says: b"large domain 256\n",
        ..WHOLE
    },
    Input {
        tables: b"tsltables 1\ndomain 0\n",
        status: Status::Reading,
        says: b"fault tables 2:8 form\n",
        ..WHOLE
    },
    Input {
        inputs: b"tslinputs 1\ninput x\nstem\ncycle row 1 1\n",
        status: Status::Reading,
        says: b"fault inputs count 0\n",
        ..WHOLE
    },
    // The values of inputs lie below the domain of the tables.
    Input {
        inputs: b"tslinputs 1\ninput x\nstem row 1\ncycle row 2\n",
        status: Status::Reading,
        says: b"fault inputs range 1 2\n",
        ..WHOLE
    },
    Input {
        inputs: b"tslinputs 1\nstem\ncycle row\n",
        status: Status::Reading,
        says: b"fault inputs missing x\n",
        ..WHOLE
    },
    Input {
        inputs: b"tslinputs 1\ninput y\nstem\ncycle row 1\n",
        status: Status::Reading,
        says: b"fault inputs 2:7 unknown y\n",
        ..WHOLE
    },
    Input {
        inputs: b"tslinputs 1\ninput x\nstem\ncycle\n",
        status: Status::Reading,
        says: b"fault inputs 5:1 form\n",
        ..WHOLE
    },
];

#[test]
fn runs_are_written_with_their_verdicts(rt: HostRuntime) -> Result<(), Fail> {
    assert_inputs(&rt, rt.alloc(), RUNS)?;
    Ok(())
}

#[test]
fn a_missing_part_is_told_first(rt: HostRuntime) -> Result<(), Fail> {
    assert_inputs(&rt, rt.alloc(), MISSING)?;
    Ok(())
}

#[test]
fn a_refused_part_has_its_fault(rt: HostRuntime) -> Result<(), Fail> {
    assert_inputs(&rt, rt.alloc(), REFUSED)?;
    Ok(())
}

#[test]
fn an_input_that_is_cut_off_is_refused(rt: HostRuntime) -> Result<(), Fail> {
    let alloc = rt.alloc();
    let text = text_of(alloc, &WHOLE)?;
    for length in 0..text.len() {
        let ran = run(alloc, &["run"], &text[..length], PLAIN, PLAIN, PLAIN)?;
        if length + 1 == text.len() {
            assert_says(&rt, &ran, Status::Done, WHOLE.says);
        } else {
            assert_eq!(rt; ran.status, Status::Reading);
        }
    }
    Ok(())
}

/// Appends the table of a function that adds 1 below a limit, and gives 0 from there on.
fn put_counter(
    text: &mut Vec<u8>,
    alloc: Global,
    name: &str,
    limit: u32,
) -> Result<(), AllocError> {
    text.extend_from_slice(format!(in alloc; "func {}", name)?.as_bytes())?;
    for value in 0..256u32 {
        let next = if value < limit { value + 1 } else { 0 };
        text.extend_from_slice(format!(in alloc; " {}", next)?.as_bytes())?;
    }
    text.extend_from_slice(b"\n")
}

#[test]
fn a_run_of_too_many_configurations_is_large(rt: HostRuntime) -> Result<(), Fail> {
    let alloc = rt.alloc();
    let program =
        b"tslprogram 1\ncell u\ncell v\ncell w\nnode 0 set [u <- f u] [v <- g v] [w <- h w] go 0\nstate 0 at 0\nend\ntsltables 1\ndomain 256\n";
    let mut text = Vec::from_slice(alloc, program)?;
    put_counter(&mut text, alloc, "f", 255)?;
    put_counter(&mut text, alloc, "g", 254)?;
    put_counter(&mut text, alloc, "h", 252)?;
    text.extend_from_slice(b"cell u 0 cell v 0 cell w 0\ntslinputs 1\nstem\ncycle row\n")?;
    let ran = run(alloc, &["run"], &text, PLAIN, PLAIN, PLAIN)?;
    assert_says(&rt, &ran, Status::Large, b"large run 65536\n");
    Ok(())
}

/// A cell goes through the values of a domain of 130, and something holds of it at some time.
const WHEEL: &[u8] =
    b"always guarantee { [u <- f u]; F z u; }\ntslprogram 1\ncell u\nnode 0 set [u <- f u] go 0\nstate 0 at 0\nend\ntsltables 1\ndomain 130\nfunc f";

/// The run of the cell, where what is looked for holds of this value alone.
fn wheel(alloc: Global, looked_for: u32) -> Result<Vec<u8>, AllocError> {
    let mut text = Vec::from_slice(alloc, WHEEL)?;
    for value in 1..130u32 {
        text.extend_from_slice(format!(in alloc; " {}", value)?.as_bytes())?;
    }
    text.extend_from_slice(b" 0\npred z")?;
    for value in 0..130u32 {
        let entry = u32::from(value == looked_for);
        text.extend_from_slice(format!(in alloc; " {}", entry)?.as_bytes())?;
    }
    text.extend_from_slice(b"\ncell u 0\ntslinputs 1\nstem\ncycle row\n")?;
    Ok(text)
}

/// The value that is looked for, of which one is none of the 130, how the run ends, and its last lines.
const WHEELS: &[(u32, Status, &[u8])] = &[
    (64, Status::Done, b"\nloop 0 130\nformula holds\n"),
    (130, Status::No, b"\nloop 0 130\nformula fails\n"),
];

#[test]
fn what_comes_at_one_of_130_positions_comes_again_and_again(rt: HostRuntime) -> Result<(), Fail> {
    let alloc = rt.alloc();
    for &(looked_for, status, says) in WHEELS {
        let ran = run(
            alloc,
            &["run"],
            &wheel(alloc, looked_for)?,
            PLAIN,
            PLAIN,
            PLAIN,
        )?;
        assert_eq!(rt; ran.status, status);
        assert_eq!(rt; ran.out.ends_with(says), true);
        assert_eq!(rt; ran.err.is_empty(), true);
    }
    Ok(())
}
