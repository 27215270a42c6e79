//! Vectors in rules.
ghost use Rattle.std.specs.Prelude.{◌≡◌};
ghost use Rattle.tb_rules.specs.Compiled as compiled;
ghost use Rattle.tb_rules.specs.View.{data_of};
ghost use Rattle.tb_sexp.specs.View.{view};

use tb_prim::Place;
use tb_sexp::{Datum, Node};

/// The place of the first vector in a datum. The recursion is as deep as the datum nests.
#[cycle(vectors)]
fn first_vector(datum: &Datum) -> Option<Place>
    ensures { result ≡ compiled.first_vector (view datum.now) }
{
    match &datum.node {
        Node::Nil
        | Node::Bool(_)
        | Node::Fix(_)
        | Node::Char(_)
        | Node::Str(_)
        | Node::Name(_, _) => None,
        Node::List(elements, None) => first_vector_among(elements.as_slice()),
        Node::List(elements, Some(tail)) => match first_vector_among(elements.as_slice()) {
            Some(place) => Some(place),
            None => first_vector(tail.get()),
        },
        Node::Vector(_) => Some(datum.place),
    }
}

/// The place of the first vector in data.
#[cycle(vectors)]
pub fn first_vector_among(datums: &[Datum]) -> Option<Place>
    ensures { result ≡ compiled.first_vector_among (data_of datums.now) }
{
    for datum in datums {
        if let Some(place) = first_vector(datum) {
            return Some(place);
        }
    }
    None
}
