//! Each instruction, at the edges of what it needs.

use super::runs::first_wrong;
use std::test::Fail;

#[test]
fn control_and_frames(rt: HostRuntime) -> Result<(), Fail> {
    let rows = &[
        "end -> end, at 0, pointers 16 1024, r 0 0, r 15 0, r 16 0, events, m 0 undefined undefined undefined 0 1 2",
        "end -> end, m 6 header 34 5 raw 97 98 99 100 raw 101 0 0 0 0 header 42 3 raw 120 121 122 0",
        "end -> end, m 12 header 18 3 7 pair 4 char 65 0 0, m 1022 0 0",
        "proc 0; end -> end, at 1, events enter 0",
        "proc 0 -> stuck 1, events enter 0",
        "set 1 5 -> stuck 1, r 1 5",
        "jump 2; set 1 5; end -> end, at 2, r 1 0",
        "jump 0 -> steps, at 0",
        "args 0; end -> end, at 1",
        "args 1; end -> fail wrong-args 0",
        "set 16 12; args 12; end -> end, at 2",
        "set 16 11; args 12; end -> fail wrong-args 1",
        "set 16 -1; args 0; end -> fail wrong-args 1",
        "set 16 #f; args 0; end -> fail wrong-args 1",
        "set 16 char 0; args 0; end -> fail wrong-args 1",
        "argsge 1; end -> fail wrong-args 0",
        "set 16 -1; argsge 0; end -> fail wrong-args 1",
        "set 16 10; argsge 11; end -> fail wrong-args 1",
        "set 16 13; argsge 0; end -> stuck 1",
        "set 16 #f; argsge 0; end -> stuck 1",
        "set 1 5; argsge 0; end -> end, r 1 (), r 16 0, pointers 16 1024",
        "set 12 5; set 16 11; argsge 11; end -> end, r 12 (), pointers 16 1024",
        "set 12 5; set 16 12; argsge 11; end -> end, r 12 pair 16, m 16 5 (), pointers 18 1024",
        "set 1 7; set 2 8; set 3 9; set 16 3; argsge 1; end -> end, r 1 7, r 2 pair 16, r 3 9, r 16 3, m 16 8 pair 18 9 ()",
        "set 1 1; set 12 12; set 16 12; argsge 0; end -> end, r 1 pair 16, m 16 1 pair 18 0 pair 20, m 38 12 (), pointers 40 1024",
        "save 0; end -> end, pointers 16 1022, m 1022 0 0",
        "save 3; end -> end, pointers 16 1019, m 1019 0 3 0 0 0",
        "save 1000; end -> end, pointers 16 22, m 22 0 1000 0",
        "save 1; set 1 5; store 1 0; pop 1; save 2; load 2 1; load 3 0; end -> end, r 2 5, r 3 1, pointers 16 1020",
        "save 0; setrtn 0; pop 0; save 2; load 1 0; end -> end, r 1 code 0, m 1020 0 2 code 0",
        "setrtn 0; end -> stuck 0",
        "save 0; setrtn 3; end; end -> end, at 2, m 1022 code 3 0",
        "save 2; set 1 5; store 1 1; load 2 1; load 3 0; end -> end, r 2 5, r 3 0, m 1020 0 2 0 5",
        "save 1000; set 1 5; store 1 999; load 2 999; end -> end, r 2 5, m 1023 5",
        "save 2; load 1 2; end -> stuck 1",
        "save 2; store 1 2; end -> stuck 1",
        "load 1 0; end -> stuck 0",
        "store 1 0; end -> stuck 0",
        "save 2; pop 2; end -> end, pointers 16 1024",
        "save 2; pop 1; end -> stuck 1, pointers 16 1020",
        "save 2; pop 3; end -> stuck 1",
        "pop 0; end -> stuck 0",
        "save 1; set 1 5; store 1 0; save 1; set 1 6; store 1 0; pop 1; load 2 0; end -> end, r 2 5, pointers 16 1021",
        "return -> stuck 0",
        "save 0; return -> stuck 1, events",
        "save 0; setrtn 4; return; end; set 1 5; end -> end, at 5, r 1 5, events back, pointers 16 1022",
        "set 1 #f; brf 1 3; end; end -> end, at 3",
        "set 1 #t; brf 1 3; end; end -> end, at 2",
        "set 1 (); brf 1 3; end; end -> end, at 2",
        "set 1 unspecified; brf 1 3; end; end -> end, at 2",
        "set 1 eof; brf 1 3; end; end -> end, at 2",
        "set 1 0; brf 1 3; end; end -> end, at 2",
        "set 1 char 0; brf 1 3; end; end -> end, at 2",
    ];
    assert_eq!(rt; first_wrong(rt.alloc(), "", rows, &[])?, None);
    Ok(())
}

#[test]
fn words_and_objects(rt: HostRuntime) -> Result<(), Fail> {
    let rows = &[
        "imm 1 0; imm 2 4; imm 3 2147483644; end -> end, r 1 0, r 2 1, r 3 536870911",
        "imm 1 2147483648; imm 2 4294967292; end -> end, r 1 -536870912, r 2 -1",
        "imm 1 2; imm 2 258; imm 3 514; end -> end, r 1 #f, r 2 #t, r 3 ()",
        "imm 1 770; imm 2 1026; imm 3 1282; end -> end, r 1 unspecified, r 2 undefined, r 3 eof",
        "imm 16 10; imm 0 65290; end -> end, r 16 char 0, r 0 char 255",
        "stat 1 1 0; stat 2 5 1; stat 3 5 2; stat 4 3 3; end -> end, r 1 pair 4, r 2 string 6, r 3 string 10, r 4 vector 12",
        "set 1 5; move 16 1; end -> end, r 16 5, r 1 5",
        "gget 1 0; end -> fail undefined 0",
        "gset 1 0; end -> fail undefined 0, m 0 undefined",
        "set 1 5; gdef 1 2; gget 2 2; end -> end, r 2 5, m 0 undefined undefined 5 0",
        "set 1 5; gdef 1 0; set 1 6; gset 1 0; gget 2 0; end -> end, r 2 6, m 0 6 undefined",
        "set 1 5; gdef 1 0; set 1 undefined; gset 1 0; gget 1 0; end -> fail undefined 4",
        "set 1 5; gdef 1 0; set 1 undefined; gdef 1 0; gset 1 0; end -> fail undefined 4",
        "set 1 eof; gdef 1 0; gget 2 0; gset 1 0; end -> end, r 2 eof",
        "set 1 5; cell 2 1; cellget 3 2; end -> end, r 2 vector 16, r 3 5, m 16 header 26 1 5 0, pointers 18 1024",
        "set 1 5; cell 1 1; cellget 1 1; end -> end, r 1 5",
        "set 1 undefined; cell 2 1; cellget 3 2; end -> fail undefined 2",
        "set 1 undefined; cell 2 1; set 1 7; cellset 2 1; cellget 3 2; end -> end, r 3 7, m 16 header 26 1 7",
        "set 1 undefined; cell 2 0; cellset 2 1; end -> end, m 16 header 26 1 undefined",
        "cellget 1 2; end -> stuck 0",
        "cellset 2 1; end -> stuck 0",
        "stat 2 3 3; cellget 1 2; end -> stuck 1",
        "stat 2 3 3; cellset 2 1; end -> stuck 1, m 12 header 18 3 7",
        "stat 2 5 1; cellget 1 2; end -> stuck 1",
        "clo 2 1 0; cellset 2 1; end -> stuck 1",
        "clo 1 0 0; end -> end, r 1 procedure 16, m 16 header 50 0 code 0 0, pointers 18 1024",
        "clo 1 1 2; end; end -> end, r 1 procedure 16, m 16 header 50 1 code 2 0 0, pointers 20 1024",
        "clo 1 2 0; end -> end, m 16 header 50 2 code 0 0 0, pointers 20 1024",
        "clo 1 1000 0; set 2 5; captset 1 2 999; capt 3 1 999; end -> end, r 3 5, m 1017 5, pointers 1018 1024",
        "clo 1 3 0; set 2 5; captset 1 2 2; capt 3 1 2; capt 4 1 1; end -> end, r 3 5, r 4 0, m 16 header 50 3 code 0 0 0 5 0",
        "clo 1 1 0; set 2 undefined; captset 1 2 0; capt 3 1 0; end -> end, r 3 undefined",
        "clo 1 3 0; capt 2 1 3; end -> stuck 1",
        "clo 1 3 0; captset 1 2 3; end -> stuck 1, m 16 header 50 3 code 0 0 0 0 0",
        "clo 1 0 0; capt 2 1 0; end -> stuck 1",
        "capt 1 2 0; end -> stuck 0",
        "captset 1 2 0; end -> stuck 0",
        "stat 1 3 3; capt 2 1 0; end -> stuck 1",
        "cell 1 2; captset 1 2 0; end -> stuck 1",
        "invoke 0; end -> fail not-procedure 0",
        "stat 0 3 3; invoke 0; end -> fail not-procedure 1",
        "cell 0 1; invoke 0; end -> fail not-procedure 1",
        "clo 1 0 3; invoke 0; end; end -> fail not-procedure 1, r 16 0",
        "clo 0 0 3; invoke 2; end; proc 0; args 2; end -> end, at 5, r 16 2, events enter 0",
        "set 16 #f; clo 0 0 3; invoke 12; args 12; end -> end, at 4, r 16 12",
    ];
    assert_eq!(rt; first_wrong(rt.alloc(), "", rows, &[])?, None);
    Ok(())
}

#[test]
fn lists_are_applied(rt: HostRuntime) -> Result<(), Fail> {
    // From 1 on: conses the numbers from r2 down to 1 onto the list r1, and applies a procedure of entry 8 to it.
    let front =
        "jump 9; op2 4 2 3 =; brf 4 5; clo 0 0 8; apply; op2 1 2 1 cons; op2 2 2 6 -; jump 1; end;";
    let rows = &[
        "set 6 1; set 1 (); set 2 12; jump 1 -> end, at 8, r 0 procedure 40, r 1 1, r 2 2, r 11 11, r 12 12, r 16 12",
        "set 6 1; set 1 (); set 2 13; jump 1 -> fail too-many 4, r 1 pair 40",
        "set 6 1; set 1 9; set 2 12; jump 1 -> fail wrong-type 4",
        "set 6 1; set 1 9; set 2 13; jump 1 -> fail too-many 4",
        "set 6 1; set 1 9; set 2 11; jump 1 -> fail wrong-type 4",
        "set 6 1; set 1 (); set 2 2; set 16 #f; jump 1 -> end, r 1 1, r 2 2, r 3 0, r 16 2",
        "set 6 1; set 1 (); set 2 1; jump 1 -> end, r 1 1, r 2 0, r 16 1",
        "set 6 1; set 1 (); jump 1 -> end, r 1 (), r 16 0",
        "jump 1 -> fail wrong-type 4",
        "set 1 #f; jump 1 -> fail wrong-type 4",
        "stat 1 1 0; jump 1 -> fail wrong-type 4",
        "stat 1 3 3; jump 1 -> fail wrong-type 4",
        "op2 1 5 5 cons; op2 16 1 1 set-cdr!; jump 1 -> fail too-many 4",
        "apply -> fail not-procedure 9",
        "set 1 (); apply -> fail not-procedure 10",
        "stat 0 1 0; set 1 9; apply -> fail not-procedure 11",
    ];
    assert_eq!(rt; first_wrong(rt.alloc(), front, rows, &[])?, None);
    Ok(())
}

#[test]
fn fields_in_range(rt: HostRuntime) -> Result<(), Fail> {
    let rows = &[
        " -> no code",
        "proc 1; end -> no code",
        "proc 0; proc 0; end -> end, at 2, events enter 0 enter 0",
        "args 13 -> no code",
        "argsge 12 -> no code",
        "save 1001 -> no code",
        "setrtn 1 -> no code",
        "load 17 0 -> no code",
        "load 0 1000 -> no code",
        "load 16 999 -> stuck 0",
        "store 17 0 -> no code",
        "store 0 1000 -> no code",
        "pop 4294967295 -> stuck 0",
        "invoke 13 -> no code",
        "jump 1 -> no code",
        "brf 0 1 -> no code",
        "imm 1 1 -> no code",
        "imm 1 1538 -> no code",
        "imm 1 65546 -> no code",
        "stat 1 3 0 -> no code",
        "stat 1 1 4 -> no code",
        "move 17 0 -> no code",
        "move 0 17 -> no code",
        "gget 0 3 -> no code",
        "gset 0 3 -> no code",
        "gdef 0 3 -> no code",
        "clo 0 1001 0 -> no code",
        "clo 0 0 1 -> no code",
        "capt 0 0 1000 -> no code",
        "captset 0 0 1000 -> no code",
        "op0 0 car -> no code",
        "op1 0 0 cons -> no code",
        "op2 0 0 0 car -> no code",
        "op3 0 0 0 cons -> no code",
        "op2 17 0 0 cons -> no code",
    ];
    assert_eq!(rt; first_wrong(rt.alloc(), "", rows, &[])?, None);
    Ok(())
}
