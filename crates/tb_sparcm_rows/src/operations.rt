//! Operations, the condition codes, and the data words.

use super::runs::{Row, Want, first_wrong};
use std::test::Fail;
use tb_prim::Stop;

#[test]
fn operations_give_words(rt: HostRuntime) -> Result<(), Fail> {
    let rows: &[Row<'_>] = &[
        // sethi 0x1fffff, %l0; or %l0, 0x3ff, %l0; add %l0, 1, %l1
        (
            &[0x211f_ffff, 0xa014_23ff, 0xa204_2001],
            Want::Next(3, 12, 17, 0x8000_0000),
        ),
        // or %g0, -1, %l0; add %l0, 2, %l1
        (&[0xa010_3fff, 0xa204_2002], Want::Next(2, 8, 17, 1)),
        // sub %g0, 1, %l1
        (&[0xa220_2001], Want::Next(1, 4, 17, 0xffff_ffff)),
        // or %g0, 12, %l0; and %l0, 10, %l1; xor %l1, 3, %l1
        (
            &[0xa010_200c, 0xa20c_200a, 0xa21c_6003],
            Want::Next(3, 12, 17, 11),
        ),
        // or %g0, 7, %g0
        (&[0x8010_2007], Want::Next(1, 4, 0, 0)),
        // or %g0, 3, %l0; sll %l0, 31, %l1
        (
            &[0xa010_2003, 0xa32c_201f],
            Want::Next(2, 8, 17, 0x8000_0000),
        ),
        // sethi 0x200000, %l0; srl %l0, 31, %l1
        (&[0x2120_0000, 0xa334_201f], Want::Next(2, 8, 17, 1)),
        // sethi 0x200000, %l0; sra %l0, 31, %l1
        (
            &[0x2120_0000, 0xa33c_201f],
            Want::Next(2, 8, 17, 0xffff_ffff),
        ),
        // or %g0, 33, %l0; sll %l0, %l0, %l1
        (&[0xa010_2021, 0xa32c_0010], Want::Next(2, 8, 17, 66)),
        // or %g0, -3, %l0; smul %l0, 5, %l1
        (
            &[0xa010_3ffd, 0xa25c_2005],
            Want::Next(2, 8, 17, 0xffff_fff1),
        ),
        // or %g0, -3, %l0; smul %l0, 5, %l1; rd %y, %l2
        (
            &[0xa010_3ffd, 0xa25c_2005, 0xa540_0000],
            Want::Next(3, 12, 18, 0xffff_ffff),
        ),
        // sethi 64, %l0; smul %l0, %l0, %l1; rd %y, %l2
        (
            &[0x2100_0040, 0xa25c_0010, 0xa540_0000],
            Want::Next(3, 12, 18, 1),
        ),
        // sethi 0x200000, %l0; smul %l0, %l0, %l1; rd %y, %l2
        (
            &[0x2120_0000, 0xa25c_0010, 0xa540_0000],
            Want::Next(3, 12, 18, 0x4000_0000),
        ),
        // or %g0, 6, %l0; wr %l0, 5, %y; rd %y, %l1
        (
            &[0xa010_2006, 0x8184_2005, 0xa340_0000],
            Want::Next(3, 12, 17, 3),
        ),
        // or %g0, 1, %l0; taddcc %l0, 4, %l1
        (&[0xa010_2001, 0xa304_2004], Want::Next(2, 8, 17, 5)),
    ];
    assert_eq!(rt; first_wrong(rt.alloc(), rows)?, None);
    Ok(())
}

#[test]
fn quotients_are_truncated(rt: HostRuntime) -> Result<(), Fail> {
    let rows: &[Row<'_>] = &[
        // or %g0, 1, %l0; wr %l0, 0, %y; or %g0, 0, %l1; sdiv %l1, 3, %l2
        (
            &[0xa010_2001, 0x8184_2000, 0xa210_2000, 0xa47c_6003],
            Want::Next(4, 16, 18, 0x5555_5555),
        ),
        // or %g0, -1, %l0; wr %l0, 0, %y; or %g0, -7, %l1; sdiv %l1, 2, %l2
        (
            &[0xa010_3fff, 0x8184_2000, 0xa210_3ff9, 0xa47c_6002],
            Want::Next(4, 16, 18, 0xffff_fffd),
        ),
        // or %g0, 0, %l0; wr %l0, 0, %y; or %g0, 7, %l1; sdiv %l1, -2, %l2
        (
            &[0xa010_2000, 0x8184_2000, 0xa210_2007, 0xa47c_7ffe],
            Want::Next(4, 16, 18, 0xffff_fffd),
        ),
        // or %g0, 0, %l0; wr %l0, 0, %y; sethi 0x200000, %l1; sdiv %l1, -1, %l2
        (
            &[0xa010_2000, 0x8184_2000, 0x2320_0000, 0xa47c_7fff],
            Want::Next(4, 16, 18, 0x8000_0000),
        ),
        // or %g0, 0, %l0; wr %l0, 0, %y; or %g0, 1, %l1; sdiv %l1, 0, %l2
        (
            &[0xa010_2000, 0x8184_2000, 0xa210_2001, 0xa47c_6000],
            Want::Stops(Stop::Stuck { pc: 12 }),
        ),
        // or %g0, 1, %l0; wr %l0, 0, %y; or %g0, 0, %l1; sdiv %l1, 1, %l2
        (
            &[0xa010_2001, 0x8184_2000, 0xa210_2000, 0xa47c_6001],
            Want::Stops(Stop::Stuck { pc: 12 }),
        ),
        // or %g0, -1, %l0; wr %l0, 0, %y; sethi 0x200000, %l1; sdiv %l1, -1, %l2
        (
            &[0xa010_3fff, 0x8184_2000, 0x2320_0000, 0xa47c_7fff],
            Want::Stops(Stop::Stuck { pc: 12 }),
        ),
        // sethi 0x200000, %l0; wr %l0, 0, %y; or %g0, 0, %l1; sdiv %l1, -1, %l2
        (
            &[0x2120_0000, 0x8184_2000, 0xa210_2000, 0xa47c_7fff],
            Want::Stops(Stop::Stuck { pc: 12 }),
        ),
    ];
    assert_eq!(rt; first_wrong(rt.alloc(), rows)?, None);
    Ok(())
}

#[test]
fn codes_at_the_edges(rt: HostRuntime) -> Result<(), Fail> {
    let rows: &[Row<'_>] = &[
        // sethi 0x1fffff, %l0; or %l0, 0x3ff, %l0; addcc %l0, 1, %l1
        (
            &[0x211f_ffff, 0xa014_23ff, 0xa284_2001],
            Want::Codes(0b1010),
        ),
        // or %g0, -1, %l0; addcc %l0, 1, %l1
        (&[0xa010_3fff, 0xa284_2001], Want::Codes(0b0101)),
        // sethi 0x200000, %l0; addcc %l0, %l0, %l1
        (&[0x2120_0000, 0xa284_0010], Want::Codes(0b0111)),
        // subcc %g0, 1, %l1
        (&[0xa2a0_2001], Want::Codes(0b1001)),
        // sethi 0x200000, %l0; subcc %l0, 1, %l1
        (&[0x2120_0000, 0xa2a4_2001], Want::Codes(0b0010)),
        // subcc %g0, 0, %l1
        (&[0xa2a0_2000], Want::Codes(0b0100)),
        // sethi 0x1fffff, %l0; or %l0, 0x3ff, %l0; subcc %l0, -1, %l1
        (
            &[0x211f_ffff, 0xa014_23ff, 0xa2a4_3fff],
            Want::Codes(0b1011),
        ),
        // sethi 0x200000, %l0; subcc %l0, 1, %l1; andcc %l0, %l0, %l1
        (
            &[0x2120_0000, 0xa2a4_2001, 0xa28c_0010],
            Want::Codes(0b1000),
        ),
        // or %g0, -1, %l0; addcc %l0, 1, %l1; orcc %g0, %g0, %l1
        (
            &[0xa010_3fff, 0xa284_2001, 0xa290_0000],
            Want::Codes(0b0100),
        ),
        // or %g0, 1, %l0; taddcc %l0, 4, %l1
        (&[0xa010_2001, 0xa304_2004], Want::Codes(0b0010)),
        // or %g0, 4, %l0; taddcc %l0, 2, %l1
        (&[0xa010_2004, 0xa304_2002], Want::Codes(0b0010)),
        // or %g0, 4, %l0; taddcc %l0, 8, %l1
        (&[0xa010_2004, 0xa304_2008], Want::Codes(0b0000)),
        // sethi 0x1fffff, %l0; or %l0, 0x3fc, %l0; taddcc %l0, 4, %l1
        (
            &[0x211f_ffff, 0xa014_23fc, 0xa304_2004],
            Want::Codes(0b1010),
        ),
        // or %g0, 5, %l0; tsubcc %l0, 4, %l1
        (&[0xa010_2005, 0xa30c_2004], Want::Codes(0b0010)),
        // sethi 0x200000, %l0; tsubcc %l0, 4, %l1
        (&[0x2120_0000, 0xa30c_2004], Want::Codes(0b0010)),
        // or %g0, 4, %l0; tsubcc %l0, 8, %l1
        (&[0xa010_2004, 0xa30c_2008], Want::Codes(0b1001)),
    ];
    assert_eq!(rt; first_wrong(rt.alloc(), rows)?, None);
    Ok(())
}

#[test]
fn data_words(rt: HostRuntime) -> Result<(), Fail> {
    let rows: &[Row<'_>] = &[
        // st %g5, [%g5 + 4]; ld [%g5 + 4], %l0
        (
            &[0xca21_6004, 0xe001_6004],
            Want::Next(2, 8, 16, 0xc000_0000),
        ),
        // st %g5, [%g5 + 4]; ldub [%g5 + 4], %l0
        (&[0xca21_6004, 0xe009_6004], Want::Next(2, 8, 16, 192)),
        // or %g0, 0x1ab, %l0; stb %l0, [%g5 + 5]; ld [%g5 + 4], %l1
        (
            &[0xa010_21ab, 0xe029_6005, 0xe201_6004],
            Want::Next(3, 12, 17, 0x00ab_0000),
        ),
        // st %g5, [%o6 - 4]; ld [%o6 - 4], %l0
        (
            &[0xca23_bffc, 0xe003_bffc],
            Want::Next(2, 8, 16, 0xc000_0000),
        ),
        // ld [%o6 + 0], %l0
        (&[0xe003_a000], Want::Stops(Stop::Stuck { pc: 0 })),
        // ldub [%g5 - 1], %l0
        (&[0xe009_7fff], Want::Stops(Stop::Stuck { pc: 0 })),
        // ld [%g0 + 0], %l0
        (&[0xe000_2000], Want::Stops(Stop::Stuck { pc: 0 })),
        // ld [%g0 - 4], %l0
        (&[0xe000_3ffc], Want::Stops(Stop::Stuck { pc: 0 })),
        // ld [%g5 + 2], %l0
        (&[0xe001_6002], Want::Stops(Stop::Stuck { pc: 0 })),
        // st %l0, [%g5 + 1]
        (&[0xe021_6001], Want::Stops(Stop::Stuck { pc: 0 })),
        // st %l0, [%o6 + 0]
        (&[0xe023_a000], Want::Stops(Stop::Stuck { pc: 0 })),
        // stb %l0, [%o6 + 0]
        (&[0xe02b_a000], Want::Stops(Stop::Stuck { pc: 0 })),
        // stb %l0, [%g5 - 1]
        (&[0xe029_7fff], Want::Stops(Stop::Stuck { pc: 0 })),
    ];
    assert_eq!(rt; first_wrong(rt.alloc(), rows)?, None);
    Ok(())
}
