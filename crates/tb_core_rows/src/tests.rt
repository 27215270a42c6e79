ghost use Rattle.std.specs.Prelude.{◌≤◌, IfSome};

use super::programs::{call_of, deep, forms_of, lambda_of, wide_let};
use super::trees::spot;
use super::worked::{assigned_variable, cons_of_car, uses_in_lambda};
use std::alloc::Global;
use std::test::Fail;
use tb_assign::eliminate;
use tb_core::{CoreRefusal, check, free_vars, operand_order};
use tb_prim::NoMemory;

/// What `check` gives, and what it has to give.
#[derive(Clone, Copy)]
struct Row<'a> {
    name: &'a str,
    got: Result<(), CoreRefusal>,
    want: Result<(), CoreRefusal>,
}

fn case<'a>(name: &'a str, got: Result<(), CoreRefusal>, want: Result<(), CoreRefusal>) -> Row<'a> {
    Row { name, got, want }
}

fn wide(alloc: Global, count: usize) -> Result<Result<(), CoreRefusal>, NoMemory>
    requires some { 1 ≤ count }
    requires few { count ≤ 2000 }
{
    Ok(check(&wide_let(alloc, count)?))
}

fn called(alloc: Global, count: usize) -> Result<Result<(), CoreRefusal>, NoMemory>
    requires { count ≤ 2000 }
{
    Ok(check(&call_of(alloc, count)?))
}

fn taken(
    alloc: Global,
    count: u32,
    has_rest: bool,
    constants: usize,
) -> Result<Result<(), CoreRefusal>, NoMemory>
    requires parameters { count ≤ 20 }
    requires some { 1 ≤ constants }
    requires few { constants ≤ 2000 }
{
    Ok(check(&lambda_of(alloc, count, has_rest, constants)?))
}

fn nested(
    alloc: Global,
    outer: usize,
    inner: usize,
    operands: Option<usize>,
) -> Result<Result<(), CoreRefusal>, NoMemory>
    requires operands { IfSome operands (λ n. n ≤ 20) }
    requires outer { outer ≤ 2000 }
    requires inner { inner ≤ 2000 }
{
    Ok(check(&deep(alloc, outer, inner, operands)?))
}

fn equal(
    alloc: Global,
    count: u32,
    width: usize,
    has_last: bool,
) -> Result<Result<(), CoreRefusal>, NoMemory>
    requires count { count ≤ 20 }
    requires some { 2 ≤ width }
    requires few { width ≤ 2000 }
{
    Ok(check(&forms_of(alloc, count, width, has_last)?))
}

#[test]
fn widths(rt: HostRuntime) -> Result<(), Fail> {
    let alloc = rt.alloc();
    let pass = Ok(());
    let first = Err(CoreRefusal::TooWide(spot(1)));
    let second = Err(CoreRefusal::TooWide(spot(2)));
    let fifth = Err(CoreRefusal::TooWide(spot(5)));
    let rows = [
        case("998 constants in a let", wide(alloc, 998)?, pass),
        case("999 constants in a let", wide(alloc, 999)?, first),
        case("1,000 constants in a let", wide(alloc, 1000)?, first),
        case("a body of 1,000", taken(alloc, 12, false, 987)?, pass),
        case("a body of 1,001", taken(alloc, 12, false, 988)?, second),
        case("a form of 1,000", equal(alloc, 1, 1000, false)?, pass),
        case("a form of 1,001", equal(alloc, 1, 1001, false)?, first),
        case("two forms of 1,000", equal(alloc, 2, 1000, false)?, second),
        case("the most squares", equal(alloc, 4, 512, false)?, pass),
        case("one square more", equal(alloc, 4, 512, true)?, fifth),
    ];
    for row in &rows {
        assert_eq!(rt; row.got, row.want, "{}", row.name);
    }
    Ok(())
}

#[test]
fn operands(rt: HostRuntime) -> Result<(), Fail> {
    let alloc = rt.alloc();
    let pass = Ok(());
    let first = Err(CoreRefusal::TooManyArgs(spot(1)));
    let second = Err(CoreRefusal::TooManyArgs(spot(2)));
    let fourth = Err(CoreRefusal::TooManyArgs(spot(4)));
    let rows = [
        case("12 operands", called(alloc, 12)?, pass),
        case("13 operands", called(alloc, 13)?, first),
        case("12 parameters", taken(alloc, 12, false, 1)?, pass),
        case("11 and a rest one", taken(alloc, 11, true, 1)?, pass),
        case("13 parameters", taken(alloc, 13, false, 1)?, second),
        case("12 and a rest one", taken(alloc, 12, true, 1)?, second),
        case("13 operands, too wide", called(alloc, 1000)?, first),
        case(
            "13, too wide a body",
            taken(alloc, 13, false, 1000)?,
            second,
        ),
        case("13, too deep", nested(alloc, 500, 499, Some(13))?, fourth),
    ];
    for row in &rows {
        assert_eq!(rt; row.got, row.want, "{}", row.name);
    }
    Ok(())
}

#[test]
fn depths(rt: HostRuntime) -> Result<(), Fail> {
    let alloc = rt.alloc();
    let pass = Ok(());
    let fourth = Err(CoreRefusal::TooDeep(spot(4)));
    let rows = [
        case("depth 1,000", nested(alloc, 500, 498, None)?, pass),
        case("depth 1,001", nested(alloc, 500, 499, None)?, fourth),
        case("operands deeper", nested(alloc, 500, 498, Some(1))?, fourth),
        case(
            "operands at 1,000",
            nested(alloc, 500, 497, Some(12))?,
            pass,
        ),
    ];
    for row in &rows {
        assert_eq!(rt; row.got, row.want, "{}", row.name);
    }
    Ok(())
}

/// Whether the order of the operands, and the free variables of the lambda expression, are found with ample memory.
fn found(alloc: Global, outer: usize, inner: usize) -> Result<(bool, bool), NoMemory>
    requires outer { outer ≤ 2000 }
    requires inner { inner ≤ 2000 }
{
    let program = deep(alloc, outer, inner, None)?;
    let order = operand_order(alloc, &program);
    let free = free_vars(alloc, &program, 0);
    Ok((order.is_ok(), free.is_ok()))
}

#[test]
fn depths_that_are_found(rt: HostRuntime) -> Result<(), Fail> {
    let alloc = rt.alloc();
    let rows = [
        ("depth 1,000", found(alloc, 500, 498)?, (true, true)),
        ("depth 1,001", found(alloc, 500, 499)?, (false, true)),
        ("a body of 1,000", found(alloc, 0, 999)?, (false, true)),
        ("a body of 1,001", found(alloc, 0, 1000)?, (false, false)),
    ];
    for (name, got, want) in &rows {
        assert_eq!(rt; *got, *want, "{}", name);
    }
    Ok(())
}

#[test]
fn order_of_operands(rt: HostRuntime) -> Result<(), Fail> {
    let program = cons_of_car(rt.alloc())?;
    let order = operand_order(rt.alloc(), &program)?;
    let lines = order.as_slice();
    assert_eq!(rt; lines.len(), 3);
    let wants: [(u32, &[u16]); 3] = [(1, &[0]), (14, &[1, 0]), (22, &[0])];
    for (line, (column, want)) in lines.iter().zip(&wants) {
        assert_eq!(rt; line.place, spot(*column));
        assert_eq!(rt; line.order.as_slice(), *want);
    }
    Ok(())
}

#[test]
fn free_variables(rt: HostRuntime) -> Result<(), Fail> {
    let program = uses_in_lambda(rt.alloc())?;
    let free = free_vars(rt.alloc(), &program, 0)?;
    assert_eq!(rt; free.as_slice(), [1, 0].as_slice());
    Ok(())
}

#[test]
fn cells_of_assigned(rt: HostRuntime) -> Result<(), Fail> {
    let program = assigned_variable(rt.alloc())?;
    let order = operand_order(rt.alloc(), &program)?;
    let cells = eliminate(rt.alloc(), &program, &order)?;
    assert_eq!(rt; cells.forms.as_slice().len(), 1);
    Ok(())
}
