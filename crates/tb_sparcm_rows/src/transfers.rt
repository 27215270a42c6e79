//! Branches, calls and jumps, and what the conditions say after a comparison.

use super::runs::{Row, Want, first_wrong};
use std::test::Fail;
use tb_prim::Stop;

#[test]
fn branches_are_delayed(rt: HostRuntime) -> Result<(), Fail> {
    let rows: &[Row<'_>] = &[
        // subcc %g0, %g0, %g0; be .+12; add %l0, 1, %l0; add %l0, 2, %l0; add %l0, 4, %l0; nop
        (
            &[
                0x80a0_0000,
                0x0280_0003,
                0xa004_2001,
                0xa004_2002,
                0xa004_2004,
                0x0100_0000,
            ],
            Want::Next(4, 20, 16, 5),
        ),
        // subcc %g0, %g0, %g0; bne .+12; add %l0, 1, %l0; add %l0, 2, %l0; add %l0, 4, %l0; nop
        (
            &[
                0x80a0_0000,
                0x1280_0003,
                0xa004_2001,
                0xa004_2002,
                0xa004_2004,
                0x0100_0000,
            ],
            Want::Next(4, 16, 16, 3),
        ),
        // subcc %g0, %g0, %g0; be,a .+12; add %l0, 1, %l0; add %l0, 2, %l0; add %l0, 4, %l0; nop
        (
            &[
                0x80a0_0000,
                0x2280_0003,
                0xa004_2001,
                0xa004_2002,
                0xa004_2004,
                0x0100_0000,
            ],
            Want::Next(4, 20, 16, 5),
        ),
        // subcc %g0, %g0, %g0; bne,a .+12; add %l0, 1, %l0; add %l0, 2, %l0; add %l0, 4, %l0; nop
        (
            &[
                0x80a0_0000,
                0x3280_0003,
                0xa004_2001,
                0xa004_2002,
                0xa004_2004,
                0x0100_0000,
            ],
            Want::Next(2, 12, 16, 0),
        ),
        // subcc %g0, %g0, %g0; ba .+12; add %l0, 1, %l0; add %l0, 2, %l0; add %l0, 4, %l0; nop
        (
            &[
                0x80a0_0000,
                0x1080_0003,
                0xa004_2001,
                0xa004_2002,
                0xa004_2004,
                0x0100_0000,
            ],
            Want::Next(4, 20, 16, 5),
        ),
        // subcc %g0, %g0, %g0; ba,a .+12; add %l0, 1, %l0; add %l0, 2, %l0; add %l0, 4, %l0; nop
        (
            &[
                0x80a0_0000,
                0x3080_0003,
                0xa004_2001,
                0xa004_2002,
                0xa004_2004,
                0x0100_0000,
            ],
            Want::Next(2, 16, 16, 0),
        ),
        // subcc %g0, %g0, %g0; bn,a .+12; add %l0, 1, %l0; add %l0, 2, %l0; add %l0, 4, %l0; nop
        (
            &[
                0x80a0_0000,
                0x2080_0003,
                0xa004_2001,
                0xa004_2002,
                0xa004_2004,
                0x0100_0000,
            ],
            Want::Next(2, 12, 16, 0),
        ),
        // nop; add %l0, 1, %l0; ba .-4; nop
        (
            &[0x0100_0000, 0xa004_2001, 0x10bf_ffff, 0x0100_0000],
            Want::Next(6, 12, 16, 2),
        ),
        // ba .+12; ba .+16; add %l0, 1, %l0; add %l0, 2, %l0; add %l0, 4, %l0; add %l0, 8, %l0
        (
            &[
                0x1080_0003,
                0x1080_0004,
                0xa004_2001,
                0xa004_2002,
                0xa004_2004,
                0xa004_2008,
            ],
            Want::Next(4, 24, 16, 10),
        ),
    ];
    assert_eq!(rt; first_wrong(rt.alloc(), rows)?, None);
    Ok(())
}

#[test]
fn calls_return(rt: HostRuntime) -> Result<(), Fail> {
    let rows: &[Row<'_>] = &[
        // nop; call .+12; nop; ta 0; jmpl %o7 + 8, %g0; nop
        (
            &[
                0x0100_0000,
                0x4000_0003,
                0x0100_0000,
                0x91d0_2000,
                0x81c3_e008,
                0x0100_0000,
            ],
            Want::Next(3, 16, 15, 4),
        ),
        // nop; call .+12; nop; ta 0; jmpl %o7 + 8, %g0; nop
        (
            &[
                0x0100_0000,
                0x4000_0003,
                0x0100_0000,
                0x91d0_2000,
                0x81c3_e008,
                0x0100_0000,
            ],
            Want::Next(5, 12, 15, 4),
        ),
        // nop; call .+12; nop; ta 0; jmpl %o7 + 8, %g0; nop
        (
            &[
                0x0100_0000,
                0x4000_0003,
                0x0100_0000,
                0x91d0_2000,
                0x81c3_e008,
                0x0100_0000,
            ],
            Want::Stops(Stop::End),
        ),
        // nop; jmpl %g0 + 16, %l0; add %l1, 1, %l1; add %l1, 2, %l1; add %l1, 4, %l1
        (
            &[
                0x0100_0000,
                0xa1c0_2010,
                0xa204_6001,
                0xa204_6002,
                0xa204_6004,
            ],
            Want::Next(4, 20, 17, 5),
        ),
        // nop; jmpl %g0 + 16, %l0; nop
        (
            &[0x0100_0000, 0xa1c0_2010, 0x0100_0000],
            Want::Next(3, 16, 16, 4),
        ),
        // jmpl %g0 + 2, %g0
        (&[0x81c0_2002], Want::Stops(Stop::Stuck { pc: 0 })),
        // call .-4; nop
        (
            &[0x7fff_ffff, 0x0100_0000],
            Want::Stops(Stop::Stuck { pc: 4294967292 }),
        ),
        // nop
        (&[0x0100_0000], Want::Stops(Stop::Stuck { pc: 4 })),
        // .word 0
        (&[0x0000_0000], Want::Stops(Stop::Stuck { pc: 0 })),
        // nop; ta 7
        (
            &[0x0100_0000, 0x91d0_2007],
            Want::Stops(Stop::Stuck { pc: 4 }),
        ),
    ];
    assert_eq!(rt; first_wrong(rt.alloc(), rows)?, None);
    Ok(())
}

#[test]
fn conditions_of_comparisons(rt: HostRuntime) -> Result<(), Fail> {
    let rows: &[Row<'_>] = &[
        // or %g0, 1, %l0; subcc %l0, 1, %g0
        (
            &[0xa010_2001, 0x80a4_2001],
            Want::Conditions(0b1110_1001_0001_0110),
        ),
        // or %g0, 1, %l0; subcc %l0, 2, %g0
        (
            &[0xa010_2001, 0x80a4_2002],
            Want::Conditions(0b1000_0011_0111_1100),
        ),
        // or %g0, 2, %l0; subcc %l0, 1, %g0
        (
            &[0xa010_2002, 0x80a4_2001],
            Want::Conditions(0b1111_1111_0000_0000),
        ),
        // or %g0, -1, %l0; subcc %l0, 1, %g0
        (
            &[0xa010_3fff, 0x80a4_2001],
            Want::Conditions(0b1011_0011_0100_1100),
        ),
        // or %g0, 1, %l0; subcc %l0, -1, %g0
        (
            &[0xa010_2001, 0x80a4_3fff],
            Want::Conditions(0b1100_1111_0011_0000),
        ),
        // or %g0, -2, %l0; subcc %l0, -1, %g0
        (
            &[0xa010_3ffe, 0x80a4_3fff],
            Want::Conditions(0b1000_0011_0111_1100),
        ),
        // sethi 0x200000, %l0; subcc %l0, 1, %g0
        (
            &[0x2120_0000, 0x80a4_2001],
            Want::Conditions(0b0111_0011_1000_1100),
        ),
        // sethi 0x1fffff, %l0; or %l0, 0x3ff, %l0; subcc %l0, -1, %g0
        (
            &[0x211f_ffff, 0xa014_23ff, 0x80a4_3fff],
            Want::Conditions(0b0000_1111_1111_0000),
        ),
    ];
    assert_eq!(rt; first_wrong(rt.alloc(), rows)?, None);
    Ok(())
}
