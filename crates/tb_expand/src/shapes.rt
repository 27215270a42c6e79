//! The shapes of forms.
ghost use Rattle.std.specs.Prelude.{◌≡◌, IfOk, MatchOption, None, Some, map};
ghost use Rattle.tb_expand.specs.Names as names;
ghost use Rattle.tb_expand.specs.Shapes as shapes;
ghost use Rattle.tb_expand.specs.View.{HasBody, IsBehind, NoBody, data_of, view_binder, view_formals, view_pair, view_pairs};
ghost use Rattle.tb_sexp.specs.Tree as tree;
ghost use Rattle.tb_sexp.specs.View as data_view;

use super::name::{Name, is_among};
use std::alloc::Global;
use tb_prim::{NoMemory, Place};
use tb_sexp::{Datum, Node};

/// A name that is bound, and where it stands.
#[derive(Clone, Copy, Debug)]
pub struct Binder<'a> {
    pub place: Place,
    pub name: Name<'a>,
}

/// Data by their number.
#[derive(Clone, Copy, Debug)]
pub enum Counted<'a> {
    Nothing,
    One(&'a Datum),
    Two(&'a Datum, &'a Datum),
    Three(&'a Datum, &'a Datum, &'a Datum),
    More,
}

/// The data, up to three of them.
pub fn behind<'a>(datums: &'a [Datum]) -> Counted<'a>
    ensures { IsBehind (data_of datums.now) result }
{
    if datums.len() == 0 {
        Counted::Nothing
    } else if datums.len() == 1 {
        Counted::One(&datums[0])
    } else if datums.len() == 2 {
        Counted::Two(&datums[0], &datums[1])
    } else if datums.len() == 3 {
        Counted::Three(&datums[0], &datums[1], &datums[2])
    } else {
        Counted::More
    }
}

/// The name, where the datum is one.
pub fn binder_of<'a>(datum: &'a Datum) -> Option<Binder<'a>>
    ensures { MatchOption result (shapes.binder_of (data_view.view datum.now) ≡ None) (λ b. shapes.binder_of (data_view.view datum.now) ≡ Some (view_binder b)) }
{
    match &datum.node {
        Node::Name(text, alias) => Some(Binder {
            place: datum.place,
            name: Name {
                text: text.as_slice(),
                alias: *alias,
            },
        }),
        _ => None,
    }
}

/// The names, where the data are all names.
pub fn binders_of<'a>(
    alloc: Global,
    datums: &'a [Datum],
) -> Result<Option<Vec<Binder<'a>>>, NoMemory>
    ensures { IfOk result (λ o. MatchOption o (shapes.binders_of (data_of datums.now) ≡ None) (λ bs. shapes.binders_of (data_of datums.now) ≡ Some (map view_binder bs.items))) }
{
    let mut binders = Vec::new(alloc);
    for datum in datums {
        match binder_of(datum) {
            Some(binder) => binders.push(binder)?,
            None => return Ok(None),
        }
    }
    Ok(Some(binders))
}

/// Parameters: those that there are so many of, and the rest one.
#[derive(Debug, Drop)]
pub struct Formals<'a> {
    pub fixed: Vec<Binder<'a>>,
    pub rest: Option<Binder<'a>>,
}

/// The parameters that a datum stands for: `(x ...)`, `(x ... . r)` or `r` (R5RS 4.1.4).
pub fn formals_of<'a>(alloc: Global, datum: &'a Datum) -> Result<Option<Formals<'a>>, NoMemory>
    ensures { IfOk result (λ o. MatchOption o (shapes.formals_of (data_view.view datum.now) ≡ None) (λ f. shapes.formals_of (data_view.view datum.now) ≡ Some (view_formals f))) }
{
    match &datum.node {
        Node::Nil => Ok(Some(Formals {
            fixed: Vec::new(alloc),
            rest: None,
        })),
        Node::Name(_, _) => Ok(Some(Formals {
            fixed: Vec::new(alloc),
            rest: binder_of(datum),
        })),
        Node::List(elements, None) => match binders_of(alloc, elements.as_slice())? {
            Some(fixed) => Ok(Some(Formals { fixed, rest: None })),
            None => Ok(None),
        },
        Node::List(elements, Some(tail)) => {
            match (
                binders_of(alloc, elements.as_slice())?,
                binder_of(tail.get()),
            ) {
                (Some(fixed), Some(rest)) => Ok(Some(Formals {
                    fixed,
                    rest: Some(rest),
                })),
                (_, _) => Ok(None),
            }
        }
        _ => Ok(None),
    }
}

/// A binding: a name and an expression.
#[derive(Clone, Copy, Debug)]
pub struct Pair<'a> {
    pub binder: Binder<'a>,
    pub value: &'a Datum,
}

/// The elements, where the datum is a list that is not dotted.
pub fn elements_of<'a>(datum: &'a Datum) -> Option<&'a [Datum]>
    ensures { MatchOption result (shapes.elements_of (data_view.view datum.now) ≡ None) (λ ds. shapes.elements_of (data_view.view datum.now) ≡ Some (data_of ds.now)) }
{
    match &datum.node {
        Node::Nil => Some(&[]),
        Node::List(elements, None) => Some(elements.as_slice()),
        _ => None,
    }
}

/// The binding that a list of these elements is.
fn pair_in<'a>(elements: &'a [Datum]) -> Option<Pair<'a>>
    ensures { MatchOption result (shapes.pair_in (Some (data_of elements.now)) ≡ None) (λ b. shapes.pair_in (Some (data_of elements.now)) ≡ Some (view_pair b)) }
{
    match behind(elements) {
        Counted::Two(name, value) => match binder_of(name) {
            Some(binder) => Some(Pair { binder, value }),
            None => None,
        },
        _ => None,
    }
}

/// The binding that a datum is.
fn pair_of<'a>(datum: &'a Datum) -> Option<Pair<'a>>
    ensures { MatchOption result (shapes.pair_in (shapes.elements_of (data_view.view datum.now)) ≡ None) (λ b. shapes.pair_in (shapes.elements_of (data_view.view datum.now)) ≡ Some (view_pair b)) }
{
    match elements_of(datum) {
        Some(elements) => pair_in(elements),
        None => None,
    }
}

/// The bindings, where the data are all bindings.
pub fn pairs_of<'a>(alloc: Global, datums: &'a [Datum]) -> Result<Option<Vec<Pair<'a>>>, NoMemory>
    ensures { IfOk result (λ o. MatchOption o (shapes.pairs_of (data_of datums.now) ≡ None) (λ ps. shapes.pairs_of (data_of datums.now) ≡ Some (view_pairs ps.items))) }
{
    let mut pairs = Vec::new(alloc);
    for datum in datums {
        match pair_of(datum) {
            Some(pair) => pairs.push(pair)?,
            None => return Ok(None),
        }
    }
    Ok(Some(pairs))
}

/// The first datum and those after it, of which there is one at least.
pub fn first_and_body<'a>(datums: &'a [Datum]) -> Option<(&'a Datum, &'a [Datum])>
    ensures { MatchOption result (NoBody (data_of datums.now)) (λ parts. HasBody (data_of datums.now) (data_view.view parts.0.now) (data_of parts.1.now)) }
{
    if datums.len() < 2 {
        None
    } else {
        Some((&datums[0], &datums[1..]))
    }
}

/// All parameters, the rest one last.
pub fn parameters_of<'a>(alloc: Global, formals: &Formals<'a>) -> Result<Vec<Binder<'a>>, NoMemory>
    ensures { IfOk result (λ bs. map view_binder bs.items ≡ shapes.parameters (view_formals formals.now)) }
{
    let mut binders = formals.fixed.to_vec(alloc)?;
    if let Some(rest) = formals.rest {
        binders.push(rest)?;
    }
    Ok(binders)
}

/// The names of bindings.
pub fn pair_binders<'a>(alloc: Global, pairs: &[Pair<'a>]) -> Result<Vec<Binder<'a>>, NoMemory>
    ensures { IfOk result (λ bs. map view_binder bs.items ≡ (view_pairs pairs.now).binders) }
{
    let mut binders = Vec::new(alloc);
    for pair in pairs {
        binders.push(pair.binder)?;
    }
    Ok(binders)
}

/// The place of the second of two binders with one name, the first such in written order.
pub fn bound_twice(alloc: Global, binders: &[Binder]) -> Result<Option<Place>, NoMemory>
    ensures { IfOk result (λ o. o ≡ names.bound_twice (map view_binder binders.now)) }
{
    let mut seen = Vec::new(alloc);
    for binder in binders {
        if is_among(binder.name, seen.as_slice()) {
            return Ok(Some(binder.place));
        }
        seen.push(binder.name)?;
    }
    Ok(None)
}

/// The first datum and those after it.
pub fn first_and_rest<'a>(datums: &'a [Datum]) -> Option<(&'a Datum, &'a [Datum])>
    ensures { MatchOption result (data_of datums.now ≡ tree.none) (λ parts. data_of datums.now ≡ tree.more (data_view.view parts.0.now) (data_of parts.1.now)) }
{
    if datums.is_empty() {
        None
    } else {
        Some((&datums[0], &datums[1..]))
    }
}
