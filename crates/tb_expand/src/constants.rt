//! Quoted data: whether their numbers are fixnums, and the static objects that they make.
ghost use Rattle.std.specs.Prelude.{◌≡◌};
ghost use Rattle.tb_expand.specs.Expressions.{are_fixnums, are_fixnums_all, are_fixnums_in};
ghost use Rattle.tb_expand.specs.View.{data_of};
ghost use Rattle.tb_sexp.specs.View as data_view;

use tb_prim::is_fixnum;
use tb_sexp::{Datum, Node};

/// Whether each number in a datum is a fixnum.
#[cycle(fixnums)]
pub fn has_fixnums(datum: &Datum) -> bool
    ensures { result ≡ are_fixnums (data_view.view datum.now) }
{
    node_has_fixnums(&datum.node)
}

/// The same of what a datum is. The recursion is as deep as the datum nests.
#[cycle(fixnums)]
pub fn node_has_fixnums(node: &Node) -> bool
    ensures { result ≡ are_fixnums_in (data_view.view_node node.now) }
{
    match node {
        Node::Nil | Node::Bool(_) | Node::Char(_) | Node::Str(_) | Node::Name(_, _) => true,
        Node::Fix(n) => is_fixnum(i64::from(*n)),
        Node::List(elements, None) => have_fixnums(elements.as_slice()),
        Node::List(elements, Some(tail)) => {
            have_fixnums(elements.as_slice()) && has_fixnums(tail.get())
        }
        Node::Vector(elements) => have_fixnums(elements.as_slice()),
    }
}

#[cycle(fixnums)]
fn have_fixnums(datums: &[Datum]) -> bool
    ensures { result ≡ are_fixnums_all (data_of datums.now) }
{
    for datum in datums {
        if !has_fixnums(datum) {
            return false;
        }
    }
    true
}
