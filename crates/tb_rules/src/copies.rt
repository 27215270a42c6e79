//! Copies of data.
ghost use Rattle.std.specs.Prelude.{◌≡◌, IfOk, map};
ghost use Rattle.tb_rules.specs.Rules as rules_in;
ghost use Rattle.tb_rules.specs.View.{data_of, view_rule};

use super::parts::rule_of;
use super::rules::Rule;
use sqlite_items::Boxed;
use std::alloc::Global;
use tb_prim::{Bytes, NoMemory, Row};
use tb_sexp::{Datum, DatumRow, Node};

/// A copy of a datum. The recursion is as deep as the datum nests.
#[cycle(copies)]
pub fn copy_datum(alloc: Global, datum: &Datum) -> Result<Datum, NoMemory>
    ensures { IfOk result (λ d. d ≡ datum.now) }
{
    let node = copy_node(alloc, &datum.node)?;
    Ok(Datum {
        place: datum.place,
        node,
    })
}

#[cycle(copies)]
fn copy_node(alloc: Global, node: &Node) -> Result<Node, NoMemory>
    ensures { IfOk result (λ n. n ≡ node.now) }
{
    match node {
        Node::Nil => Ok(Node::Nil),
        Node::Bool(truth) => Ok(Node::Bool(*truth)),
        Node::Fix(number) => Ok(Node::Fix(*number)),
        Node::Char(character) => Ok(Node::Char(*character)),
        Node::Str(text) => Ok(Node::Str(Bytes::new(alloc, text.as_slice())?)),
        Node::Name(text, alias) => Ok(Node::Name(Bytes::new(alloc, text.as_slice())?, *alias)),
        Node::List(elements, None) => Ok(Node::List(copy_data(alloc, elements.as_slice())?, None)),
        Node::List(elements, Some(tail)) => {
            let elements = copy_data(alloc, elements.as_slice())?;
            let tail = Boxed::new(alloc, copy_datum(alloc, tail.get())?)?;
            Ok(Node::List(elements, Some(tail)))
        }
        Node::Vector(elements) => Ok(Node::Vector(copy_data(alloc, elements.as_slice())?)),
    }
}

/// A copy of data.
#[cycle(copies)]
pub fn copy_data(alloc: Global, datums: &[Datum]) -> Result<DatumRow, NoMemory>
    ensures { IfOk result (λ row. row ≡ datums.now) }
{
    let mut out = Vec::new(alloc);
    for datum in datums {
        out.push(copy_datum(alloc, datum)?)?;
    }
    Ok(Row::from_vec(out))
}

/// Copies of the rules among data.
pub fn copy_rules(alloc: Global, datums: &[Datum]) -> Result<Row<Rule>, NoMemory>
    ensures { IfOk result (λ row. map view_rule row ≡ rules_in.rules_of (data_of datums.now)) }
{
    let mut out = Vec::new(alloc);
    for datum in datums {
        if let Some(parts) = rule_of(datum) {
            out.push(Rule {
                pattern: copy_datum(alloc, parts.pattern)?,
                template: copy_datum(alloc, parts.template)?,
            })?;
        }
    }
    Ok(Row::from_vec(out))
}
