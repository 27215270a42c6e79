//! Requests for words: at the last word that fits and one less, and in words that frames have used.

use super::runs::first_wrong;
use std::test::Fail;

#[test]
fn full_or_not(rt: HostRuntime) -> Result<(), Fail> {
    // 1,008 words are there, from 16 to 1023.
    let rows = &[
        "save 998; save 6; end -> end, pointers 16 16, m 16 0 6",
        "save 998; save 7; end -> full 16 24 9, pointers 16 24",
        "save 1000; save 4; save 0; end -> full 16 16 2",
        "save 998; set 16 4; argsge 0; end -> end, r 1 pair 16, m 16 0 pair 18 0 pair 20 0 pair 22 0 (), pointers 24 24",
        "save 999; set 16 4; argsge 0; end -> full 16 23 8, r 1 0, pointers 16 23",
        "save 999; set 16 4; argsge 1; end -> end, r 2 pair 16, pointers 22 23",
        "save 1000; save 4; argsge 0; end -> end, r 1 (), pointers 16 16",
        "save 998; clo 1 5 0; end -> end, r 1 procedure 16, pointers 24 24",
        "save 998; clo 1 6 0; end -> end, r 1 procedure 16, pointers 24 24",
        "save 998; clo 1 7 0; end -> full 16 24 10, r 1 0",
        "save 999; clo 1 6 0; end -> full 16 23 8",
        "save 999; clo 1 5 0; end -> full 16 23 8",
        "save 1000; save 2; op2 1 0 0 cons; end -> end, r 1 pair 16, pointers 18 18",
        "save 1000; save 3; op2 1 0 0 cons; end -> full 16 17 2, r 1 0",
        "save 1000; save 2; cell 1 0; end -> end, r 1 vector 16, pointers 18 18",
        "save 1000; save 3; cell 1 0; end -> full 16 17 2",
        "save 998; set 1 6; op1 2 1 %make-vector; end -> end, m 16 header 18 6 0 0 0 0 0 0 0, pointers 24 24",
        "save 998; set 1 7; op1 2 1 %make-vector; end -> end, m 16 header 18 7 0 0 0 0 0 0 0, pointers 24 24",
        "save 998; set 1 8; op1 2 1 %make-vector; end -> full 16 24 10, r 2 0",
        "save 999; set 1 7; op1 2 1 %make-vector; end -> full 16 23 8",
        "save 999; set 1 6; op1 2 1 %make-vector; end -> full 16 23 8",
        "save 998; set 1 28; op1 2 1 %make-string; end -> end, r 2 string 16, pointers 24 24",
        "save 998; set 1 29; op1 2 1 %make-string; end -> full 16 24 10",
        "save 999; set 1 28; op1 2 1 %make-string; end -> full 16 23 8",
        "save 999; set 1 21; op1 2 1 %make-string; end -> full 16 23 8",
        "save 999; set 1 20; op1 2 1 %make-string; end -> end, pointers 22 23",
        "save 1000; save 4; set 16 1; argsge 2; end -> fail wrong-args 3",
        "save 1000; save 4; set 1 -1; op1 2 1 %make-vector; end -> fail range 3",
        "save 1000; save 4; set 1 #f; op1 2 1 %make-vector; end -> fail wrong-type 3",
        "save 1000; save 4; set 1 16777216; op1 2 1 %make-string; end -> fail range 3",
        "save 1000; save 4; set 1 #f; op1 2 1 %make-string; end -> fail wrong-type 3",
    ];
    assert_eq!(rt; first_wrong(rt.alloc(), "", rows, &[])?, None);
    Ok(())
}

#[test]
fn new_objects_are_clean(rt: HostRuntime) -> Result<(), Fail> {
    // The words 16 to 23 become code 2, 4, four characters, code 2 and 1000, and the frames are taken away.
    let front =
        "save 1000; setrtn 2; save 4; setrtn 2; set 1 char 122; store 1 0; store 1 1; store 1 2; store 1 3; \
        pop 4; pop 1000; ";
    let rows = &[
        "end -> end, m 16 code 2 4 char 122 char 122 char 122 char 122 code 2 1000 0, pointers 16 1024",
        "set 1 0; op1 2 1 %make-string; end -> end, m 16 header 34 0 0 char 122, pointers 18 1024",
        "set 1 1; op1 2 1 %make-string; end -> end, m 16 header 34 1 raw 0 0 0 0 char 122, pointers 18 1024",
        "set 1 2; op1 2 1 %make-string; end -> end, m 16 header 34 2 raw 0 0 0 0 char 122, pointers 18 1024",
        "set 1 3; op1 2 1 %make-string; end -> end, m 16 header 34 3 raw 0 0 0 0 char 122, pointers 18 1024",
        "set 1 4; op1 2 1 %make-string; end -> end, m 16 header 34 4 raw 0 0 0 0 char 122, pointers 18 1024",
        "set 1 5; op1 2 1 %make-string; end -> end, m 16 header 34 5 raw 0 0 0 0 raw 0 0 0 0 0 char 122, pointers 20 1024",
        "set 1 9; op1 2 1 %make-string; end -> end, m 16 header 34 9 raw 0 0 0 0 raw 0 0 0 0 raw 0 0 0 0 char 122",
        "set 1 0; op1 2 1 %make-vector; end -> end, m 16 header 18 0 0 char 122",
        "set 1 1; op1 2 1 %make-vector; end -> end, m 16 header 18 1 0 char 122",
        "set 1 2; op1 2 1 %make-vector; end -> end, m 16 header 18 2 0 0 0 char 122",
        "set 1 3; op1 2 1 %make-vector; end -> end, m 16 header 18 3 0 0 0 char 122",
        "clo 2 0 1; end -> end, m 16 header 50 0 code 1 char 122",
        "clo 2 1 1; end -> end, m 16 header 50 1 code 1 0 0 char 122",
        "clo 2 2 1; end -> end, m 16 header 50 2 code 1 0 0 char 122",
        "cell 2 3; end -> end, m 16 header 26 1 0 char 122",
        "op2 2 3 3 cons; end -> end, m 16 0 0 char 122",
        "set 1 7; set 16 1; argsge 0; end -> end, m 16 7 () char 122",
        "save 1000; load 2 0; end -> end, r 2 0, m 16 code 2 4 char 122, m 22 0 1000",
        "save 1000; save 4; load 2 3; end -> end, r 2 char 122, m 16 0 4 char 122",
    ];
    assert_eq!(rt; first_wrong(rt.alloc(), front, rows, &[])?, None);
    Ok(())
}
