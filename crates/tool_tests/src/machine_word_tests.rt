//! Runs of programs over machine words.

use crate::devices::{Case, assert_each};
use std::test::Fail;

/// A cell takes what a function gives for it.
const COUNTER: &[u8] = b"tslprogram 1\ncell u\nnode 0 set [u <- f u] go 0\nstate 0 at 0\nend\n";

/// Words of two bits and what a run over them is, and each fault of words.
const WORDS: &[Case] = &[
    (
        b"tslwords 1\nbits 2\nfunc f inc\ncell u 2\ntslinputs 1\nstem\ncycle row\n",
        b"at 0 place 0 state 0 u 2 do [u <- f u]\nat 1 place 0 state 0 u 3 do [u <- f u]\nat 2 place 0 state 0 u 0 do [u <- f u]\nat 3 place 0 state 0 u 1 do [u <- f u]\nloop 0 4\n",
    ),
    (
        b"tslwords 1\nbits 2\nfunc f @\ntslinputs 1\n",
        b"fault words 3:8 byte\n",
    ),
    (
        b"tslwords 1\nbits 2 /*\ntslinputs 1\n",
        b"fault words 2:8 comment\n",
    ),
    (
        b"tslwords 1\nbits 2\nfunc f zero\ncell u 2\ntslinputs 1\n",
        b"fault words 3:8 form\n",
    ),
    (
        b"tslwords 1\nbits 0\nfunc f inc\ncell u 0\ntslinputs 1\n",
        b"fault words 2:6 form\n",
    ),
    (
        b"tslwords 1\nbits 17\nfunc f inc\ncell u 2\ntslinputs 1\n",
        b"large width 16\n",
    ),
    (
        b"tslwords 1\nbits 2\nfunc f inc\nfunc g inc\ncell u 2\ntslinputs 1\n",
        b"fault words 4:6 unknown g\n",
    ),
    (
        b"tslwords 1\nbits 2\nfunc f inc\nfunc f dec\ncell u 2\ntslinputs 1\n",
        b"fault words 4:6 twice f\n",
    ),
    (
        b"tslwords 1\nbits 2\ncell u 2\ntslinputs 1\n",
        b"fault words missing f\n",
    ),
    (
        b"tslwords 1\nbits 2\nfunc f add\ncell u 2\ntslinputs 1\n",
        b"fault words arity f\n",
    ),
    (
        b"tslwords 1\nbits 2\nfunc f inc\ncell u 4\ntslinputs 1\n",
        b"fault words range u 4\n",
    ),
];

/// Of two lines that begin tables or words the earlier one says which of them is read.
const CHOSEN: &[Case] = &[
    (
        b"tslwords 1\nbits 2\ncell u 2\ntsltables 1\ntslinputs 1\n",
        b"fault words 4:1 form\n",
    ),
    (
        b"tsltables 1\ndomain 2\ncell u 1\ntslwords 1\ntslinputs 1\n",
        b"fault tables 4:1 form\n",
    ),
    (b" tslwords 1\ntslinputs 1\n", b"fault parts tables\n"),
];

#[test]
fn runs_over_words_and_their_faults(rt: HostRuntime) -> Result<(), Fail> {
    assert_each(&rt, rt.alloc(), &["run"], COUNTER, WORDS)?;
    Ok(())
}

#[test]
fn the_earlier_line_chooses(rt: HostRuntime) -> Result<(), Fail> {
    assert_each(&rt, rt.alloc(), &["run"], COUNTER, CHOSEN)?;
    Ok(())
}
