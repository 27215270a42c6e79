//! Names that a program may use without a definition of its own, which are not built yet.
ghost use Rattle.std.specs.Prelude.{◌≡◌, ◌||◌, IfOk, map};
ghost use Rattle.tb_expand.specs.Outside as outside;
ghost use Rattle.tb_expand.specs.View.{nodes, text_of, view, view_core};

use super::limits::is_known;
use super::tree::{Core, Node};
use std::alloc::Global;
use tb_prim::{NoMemory, Place};

/// The names of the library.
const LIBRARY_NAMES: [&[u8]; 100] = [
    b"list",
    b"length",
    b"append",
    b"reverse",
    b"list-tail",
    b"list-ref",
    b"list?",
    b"caar",
    b"cadr",
    b"cdar",
    b"cddr",
    b"caaar",
    b"caadr",
    b"cadar",
    b"caddr",
    b"cdaar",
    b"cdadr",
    b"cddar",
    b"cdddr",
    b"caaaar",
    b"caaadr",
    b"caadar",
    b"caaddr",
    b"cadaar",
    b"cadadr",
    b"caddar",
    b"cadddr",
    b"cdaaar",
    b"cdaadr",
    b"cdadar",
    b"cdaddr",
    b"cddaar",
    b"cddadr",
    b"cdddar",
    b"cddddr",
    b"memq",
    b"memv",
    b"member",
    b"assq",
    b"assv",
    b"assoc",
    b"equal?",
    b"map",
    b"for-each",
    b"zero?",
    b"positive?",
    b"negative?",
    b"odd?",
    b"even?",
    b"max",
    b"min",
    b"abs",
    b"gcd",
    b"lcm",
    b"number->string",
    b"string->number",
    b"char=?",
    b"char<?",
    b"char>?",
    b"char<=?",
    b"char>=?",
    b"char-ci=?",
    b"char-ci<?",
    b"char-ci>?",
    b"char-ci<=?",
    b"char-ci>=?",
    b"char-alphabetic?",
    b"char-numeric?",
    b"char-whitespace?",
    b"char-upper-case?",
    b"char-lower-case?",
    b"char-upcase",
    b"char-downcase",
    b"string",
    b"make-string",
    b"string=?",
    b"string<?",
    b"string>?",
    b"string<=?",
    b"string>=?",
    b"string-ci=?",
    b"string-ci<?",
    b"string-ci>?",
    b"string-ci<=?",
    b"string-ci>=?",
    b"substring",
    b"string-append",
    b"string->list",
    b"list->string",
    b"string-copy",
    b"string-fill!",
    b"symbol->string",
    b"vector",
    b"make-vector",
    b"vector->list",
    b"list->vector",
    b"vector-fill!",
    b"write",
    b"display",
    b"newline",
];

/// The names that this profile of R5RS leaves out.
const LEFT_OUT_NAMES: [&[u8]; 59] = [
    b"call-with-current-continuation",
    b"call/cc",
    b"values",
    b"call-with-values",
    b"dynamic-wind",
    b"delay",
    b"force",
    b"eval",
    b"scheme-report-environment",
    b"null-environment",
    b"interaction-environment",
    b"string->symbol",
    b"complex?",
    b"real?",
    b"rational?",
    b"exact?",
    b"inexact?",
    b"numerator",
    b"denominator",
    b"floor",
    b"ceiling",
    b"truncate",
    b"round",
    b"rationalize",
    b"exp",
    b"log",
    b"sin",
    b"cos",
    b"tan",
    b"asin",
    b"acos",
    b"atan",
    b"sqrt",
    b"expt",
    b"make-rectangular",
    b"make-polar",
    b"real-part",
    b"imag-part",
    b"magnitude",
    b"angle",
    b"exact->inexact",
    b"inexact->exact",
    b"call-with-input-file",
    b"call-with-output-file",
    b"input-port?",
    b"output-port?",
    b"current-input-port",
    b"current-output-port",
    b"with-input-from-file",
    b"with-output-to-file",
    b"open-input-file",
    b"open-output-file",
    b"close-input-port",
    b"close-output-port",
    b"read",
    b"char-ready?",
    b"load",
    b"transcript-on",
    b"transcript-off",
];

/// Whether a name is the library's or left out.
#[tactic(auto, unfolding(crate::specs::Outside::is_one_of, crate::specs::Outside::library_names, crate::specs::Outside::left_out_names))]
fn is_reserved(name: &[u8]) -> bool
    ensures { result ≡ (outside.is_one_of outside.library_names name.now || outside.is_one_of outside.left_out_names name.now) }
{
    is_known(&LIBRARY_NAMES, name) || is_known(&LEFT_OUT_NAMES, name)
}

/// Whether a name is reserved and none of these.
#[tactic(auto, unfolding(crate::specs::Outside::is_outside, crate::specs::Outside::is_one_of))]
fn is_outside(defined: &[&[u8]], name: &[u8]) -> bool
    ensures { result ≡ outside.is_outside (map text_of defined.now) name.now }
{
    is_reserved(name) && !is_known(defined, name)
}

/// The place of the first use, in written order, of a name outside the text that defines these.
#[cycle(outside)]
#[tactic(auto, using(crate::proofs::Views::viewing))]
fn first_outside(defined: &[&[u8]], node: &Node) -> Option<Place>
    ensures { result ≡ outside.first_outside (map text_of defined.now) (view node.now) }
{
    first_outside_in(defined, node.place, &node.core)
}

#[cycle(outside)]
#[tactic(auto, using(crate::proofs::Views::viewing))]
fn first_outside_in(defined: &[&[u8]], place: Place, core: &Core) -> Option<Place>
    ensures { result ≡ outside.first_outside_in (map text_of defined.now) place (view_core core.now) }
{
    match core {
        Core::Constant(_) | Core::Unspecified | Core::Undefined | Core::Local(_) => None,
        Core::Global(name) => {
            if is_outside(defined, name) {
                Some(place)
            } else {
                None
            }
        }
        Core::Lambda(_, _, body) => first_outside(defined, body.get()),
        Core::If(test, first, second) => match first_outside(defined, test.get()) {
            Some(place) => Some(place),
            None => match first_outside(defined, first.get()) {
                Some(place) => Some(place),
                None => first_outside(defined, second.get()),
            },
        },
        Core::SetLocal(_, value) => first_outside(defined, value.get()),
        Core::SetGlobal(target, name, value) => {
            if is_outside(defined, name) {
                Some(*target)
            } else {
                first_outside(defined, value.get())
            }
        }
        Core::DefGlobal(_, value) => first_outside(defined, value.get()),
        Core::Let(_, values, body) => match first_outside_of(defined, values.as_slice()) {
            Some(place) => Some(place),
            None => first_outside(defined, body.get()),
        },
        Core::Letrec(_, values, body) => match first_outside_of(defined, values.as_slice()) {
            Some(place) => Some(place),
            None => first_outside(defined, body.get()),
        },
        Core::Seq(parts) => first_outside_of(defined, parts.as_slice()),
        Core::Call(operator, operands) => match first_outside(defined, operator.get()) {
            Some(place) => Some(place),
            None => first_outside_of(defined, operands.as_slice()),
        },
        Core::Prim(_, operands) => first_outside_of(defined, operands.as_slice()),
        Core::Apply(procedure, list) => match first_outside(defined, procedure.get()) {
            Some(place) => Some(place),
            None => first_outside(defined, list.get()),
        },
    }
}

/// The same of nodes one after another.
#[cycle(outside)]
#[tactic(auto, using(crate::proofs::Views::viewing))]
pub fn first_outside_of(defined: &[&[u8]], parts: &[Node]) -> Option<Place>
    ensures { result ≡ outside.first_outside_of (map text_of defined.now) (nodes (map view parts.now)) }
{
    for part in parts {
        if let Some(place) = first_outside(defined, part) {
            return Some(place);
        }
    }
    None
}

/// The globals that top-level forms define.
#[tactic(auto, using(crate::proofs::Views::viewing))]
pub fn defined_by<'a>(alloc: Global, parts: &[Node<'a>]) -> Result<Vec<&'a [u8]>, NoMemory>
    ensures { IfOk result (λ names. map text_of names.items ≡ outside.defined_by_all (nodes (map view parts.now))) }
{
    let mut names = Vec::new(alloc);
    for part in parts {
        if let Core::DefGlobal(name, _) = &part.core {
            names.push(*name)?;
        }
    }
    Ok(names)
}
