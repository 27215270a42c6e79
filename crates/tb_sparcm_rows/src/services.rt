//! The services of `ta`, and the events at group starts.

use super::code::SPOT;
use super::runs::{GroupRow, Row, Want, first_wrong, first_wrong_group};
use std::test::Fail;
use tb_prim::{Cause, Event, Stop, Taken};

#[test]
fn failures_and_full(rt: HostRuntime) -> Result<(), Fail> {
    let rows: &[Row<'_>] = &[
        // or %g0, 1, %g2; ta 1
        (
            &[0x8410_2001, 0x91d0_2001],
            Want::Stops(Stop::Fail(Cause::NotProcedure, SPOT)),
        ),
        // or %g0, 2, %g2; ta 1
        (
            &[0x8410_2002, 0x91d0_2001],
            Want::Stops(Stop::Fail(Cause::WrongArgs, SPOT)),
        ),
        // or %g0, 3, %g2; ta 1
        (
            &[0x8410_2003, 0x91d0_2001],
            Want::Stops(Stop::Fail(Cause::WrongType, SPOT)),
        ),
        // or %g0, 4, %g2; ta 1
        (
            &[0x8410_2004, 0x91d0_2001],
            Want::Stops(Stop::Fail(Cause::Overflow, SPOT)),
        ),
        // or %g0, 5, %g2; ta 1
        (
            &[0x8410_2005, 0x91d0_2001],
            Want::Stops(Stop::Fail(Cause::Range, SPOT)),
        ),
        // or %g0, 6, %g2; ta 1
        (
            &[0x8410_2006, 0x91d0_2001],
            Want::Stops(Stop::Fail(Cause::ZeroDivide, SPOT)),
        ),
        // or %g0, 7, %g2; ta 1
        (
            &[0x8410_2007, 0x91d0_2001],
            Want::Stops(Stop::Fail(Cause::Undefined, SPOT)),
        ),
        // or %g0, 8, %g2; ta 1
        (
            &[0x8410_2008, 0x91d0_2001],
            Want::Stops(Stop::Fail(Cause::TooMany, SPOT)),
        ),
        // or %g0, 9, %g2; ta 1
        (
            &[0x8410_2009, 0x91d0_2001],
            Want::Stops(Stop::Stuck { pc: 4 }),
        ),
        // ta 1
        (&[0x91d0_2001], Want::Stops(Stop::Stuck { pc: 0 })),
        // ta 0
        (&[0x91d0_2000], Want::Stops(Stop::End)),
        // or %g0, 1025, %g3; ta 2
        (
            &[0x8610_2401, 0x91d0_2002],
            Want::Stops(Stop::Full {
                pointer: 0,
                stack: 1024,
                need: 1025,
            }),
        ),
        // or %g0, 1024, %g3; ta 2
        (
            &[0x8610_2400, 0x91d0_2002],
            Want::Stops(Stop::Stuck { pc: 4 }),
        ),
        // or %g0, -1, %g3; ta 2
        (
            &[0x8610_3fff, 0x91d0_2002],
            Want::Stops(Stop::Full {
                pointer: 0,
                stack: 1024,
                need: 0xffff_ffff,
            }),
        ),
        // add %o6, 4, %g1; ta 2
        (
            &[0x8203_a004, 0x91d0_2002],
            Want::Stops(Stop::Full {
                pointer: 1025,
                stack: 1024,
                need: 0,
            }),
        ),
        // sub %g1, 4, %g1; ta 2
        (
            &[0x8220_6004, 0x91d0_2002],
            Want::Stops(Stop::Full {
                pointer: 0x3fff_ffff,
                stack: 1024,
                need: 0,
            }),
        ),
    ];
    assert_eq!(rt; first_wrong(rt.alloc(), rows)?, None);
    Ok(())
}

#[test]
fn clearing_words(rt: HostRuntime) -> Result<(), Fail> {
    let rows: &[Row<'_>] = &[
        // st %g5, [%g5 + 0]; add %g5, 0, %g2; or %g0, 1024, %g3; ta 6; ld [%g5 + 0], %l0
        (
            &[
                0xca21_6000,
                0x8401_6000,
                0x8610_2400,
                0x91d0_2006,
                0xe001_6000,
            ],
            Want::Next(5, 20, 16, 0),
        ),
        // st %g5, [%g5 + 0]; add %g5, 4, %g2; or %g0, 1023, %g3; ta 6; ld [%g5 + 0], %l0
        (
            &[
                0xca21_6000,
                0x8401_6004,
                0x8610_23ff,
                0x91d0_2006,
                0xe001_6000,
            ],
            Want::Next(5, 20, 16, 0xc000_0000),
        ),
        // st %g5, [%g5 + 0]; add %g5, -4, %g2; or %g0, 0, %g3; ta 6; ld [%g5 + 0], %l0
        (
            &[
                0xca21_6000,
                0x8401_7ffc,
                0x8610_2000,
                0x91d0_2006,
                0xe001_6000,
            ],
            Want::Next(5, 20, 16, 0xc000_0000),
        ),
        // st %g5, [%g5 + 0]; add %g5, 4, %g2; or %g0, 1024, %g3; ta 6; ld [%g5 + 0], %l0
        (
            &[
                0xca21_6000,
                0x8401_6004,
                0x8610_2400,
                0x91d0_2006,
                0xe001_6000,
            ],
            Want::Stops(Stop::Stuck { pc: 12 }),
        ),
        // st %g5, [%g5 + 0]; add %g5, 2, %g2; or %g0, 1, %g3; ta 6; ld [%g5 + 0], %l0
        (
            &[
                0xca21_6000,
                0x8401_6002,
                0x8610_2001,
                0x91d0_2006,
                0xe001_6000,
            ],
            Want::Stops(Stop::Stuck { pc: 12 }),
        ),
        // st %g5, [%g5 + 0]; add %g5, 2, %g2; or %g0, 0, %g3; ta 6; ld [%g5 + 0], %l0
        (
            &[
                0xca21_6000,
                0x8401_6002,
                0x8610_2000,
                0x91d0_2006,
                0xe001_6000,
            ],
            Want::Stops(Stop::Stuck { pc: 12 }),
        ),
        // st %g5, [%g5 + 0]; add %g5, 4, %g2; or %g0, -1, %g3; ta 6; ld [%g5 + 0], %l0
        (
            &[
                0xca21_6000,
                0x8401_6004,
                0x8610_3fff,
                0x91d0_2006,
                0xe001_6000,
            ],
            Want::Stops(Stop::Stuck { pc: 12 }),
        ),
        // st %g5, [%g5 + 0]; add %g5, -4, %g2; or %g0, 1, %g3; ta 6; ld [%g5 + 0], %l0
        (
            &[
                0xca21_6000,
                0x8401_7ffc,
                0x8610_2001,
                0x91d0_2006,
                0xe001_6000,
            ],
            Want::Stops(Stop::Stuck { pc: 12 }),
        ),
    ];
    assert_eq!(rt; first_wrong(rt.alloc(), rows)?, None);
    Ok(())
}

#[test]
fn input_and_output(rt: HostRuntime) -> Result<(), Fail> {
    let rows: &[Row<'_>] = &[
        // sethi 24, %o0; or %o0, 0x10a, %o0; ta 3
        (
            &[0x1100_0018, 0x9012_210a, 0x91d0_2003],
            Want::Events(&[Event::Put(97)]),
        ),
        // or %g0, 97, %o0; ta 3
        (
            &[0x9010_2061, 0x91d0_2003],
            Want::Stops(Stop::Stuck { pc: 4 }),
        ),
        // sethi 64, %o0; or %o0, 10, %o0; ta 3
        (
            &[0x1100_0040, 0x9012_200a, 0x91d0_2003],
            Want::Stops(Stop::Stuck { pc: 8 }),
        ),
        // ta 5; ta 4; ta 3; ta 4; ta 4; ta 0
        (
            &[
                0x91d0_2005,
                0x91d0_2004,
                0x91d0_2003,
                0x91d0_2004,
                0x91d0_2004,
                0x91d0_2000,
            ],
            Want::Events(&[
                Event::Took(Taken::Byte(98)),
                Event::Put(98),
                Event::Took(Taken::End),
                Event::Took(Taken::End),
            ]),
        ),
        // ta 5; nop
        (
            &[0x91d0_2005, 0x0100_0000],
            Want::Next(2, 8, 8, 0x0000_620a),
        ),
        // ta 4; ta 5; nop
        (
            &[0x91d0_2004, 0x91d0_2005, 0x0100_0000],
            Want::Next(3, 12, 8, 1282),
        ),
    ];
    assert_eq!(rt; first_wrong(rt.alloc(), rows)?, None);
    Ok(())
}

#[test]
fn events_at_starts(rt: HostRuntime) -> Result<(), Fail> {
    let rows: &[GroupRow<'_>] = &[
        // nop; nop; nop; nop; nop; nop
        (
            &[
                0x0100_0000,
                0x0100_0000,
                0x0100_0000,
                0x0100_0000,
                0x0100_0000,
                0x0100_0000,
            ],
            [0, 2, 3, 5],
            Want::Events(&[Event::Enter(0), Event::Back]),
        ),
        // nop; nop; nop; nop
        (
            &[0x0100_0000, 0x0100_0000, 0x0100_0000, 0x0100_0000],
            [0, 1, 2, 3],
            Want::Events(&[Event::Enter(0), Event::Back]),
        ),
        // sethi 24, %o0; or %o0, 0x10a, %o0; ta 3; nop; nop; nop; nop
        (
            &[
                0x1100_0018,
                0x9012_210a,
                0x91d0_2003,
                0x0100_0000,
                0x0100_0000,
                0x0100_0000,
                0x0100_0000,
            ],
            [2, 3, 4, 5],
            Want::Events(&[]),
        ),
        // ba,a .+8; nop; sethi 24, %o0; or %o0, 0x10a, %o0; ta 3; nop
        (
            &[
                0x3080_0002,
                0x0100_0000,
                0x1100_0018,
                0x9012_210a,
                0x91d0_2003,
                0x0100_0000,
            ],
            [0, 1, 4, 5],
            Want::Events(&[Event::Enter(0), Event::Put(97)]),
        ),
        // or %g0, 0, %g3; ta 6; nop; nop; nop; nop
        (
            &[
                0x8610_2000,
                0x91d0_2006,
                0x0100_0000,
                0x0100_0000,
                0x0100_0000,
                0x0100_0000,
            ],
            [1, 2, 3, 4],
            Want::Events(&[Event::Enter(0), Event::Back]),
        ),
        // nop; ba,a .+8; nop; nop
        (
            &[0x0100_0000, 0x3080_0002, 0x0100_0000, 0x0100_0000],
            [0, 1, 2, 3],
            Want::Events(&[Event::Enter(0)]),
        ),
        // or %g0, 2, %g2; nop; ta 1; nop; nop
        (
            &[
                0x8410_2002,
                0x0100_0000,
                0x91d0_2001,
                0x0100_0000,
                0x0100_0000,
            ],
            [0, 2, 3, 4],
            Want::Stops(Stop::Fail(Cause::WrongArgs, SPOT)),
        ),
        // or %g0, 2, %g2; nop; ta 1; nop; nop
        (
            &[
                0x8410_2002,
                0x0100_0000,
                0x91d0_2001,
                0x0100_0000,
                0x0100_0000,
            ],
            [0, 1, 3, 4],
            Want::Stops(Stop::Fail(Cause::WrongArgs, SPOT)),
        ),
        // or %g0, 2, %g2; nop; ta 1; nop; nop; nop
        (
            &[
                0x8410_2002,
                0x0100_0000,
                0x91d0_2001,
                0x0100_0000,
                0x0100_0000,
                0x0100_0000,
            ],
            [0, 3, 4, 5],
            Want::Stops(Stop::Stuck { pc: 8 }),
        ),
    ];
    assert_eq!(rt; first_wrong_group(rt.alloc(), rows)?, None);
    Ok(())
}
