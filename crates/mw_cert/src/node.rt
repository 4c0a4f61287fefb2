// The lines of nodes.

ghost use Rattle.std.specs.Prelude.{◌≡◌, ◌+◌, ◌<◌, ◌≤◌, ◌∷◌, ◌++◌, Some, length, option_to_list, slice_get, IfOk};
ghost use Rattle.mw_types.specs.Types.{type_of};
ghost use Rattle.mw_recheck.specs.Answers.{numbers_of};
ghost use Rattle.mw_infer.specs.Typings.{facts_of_node};
ghost use Rattle.mw_section.specs.Writing.{type_written};
ghost use Rattle.mw_section.specs.Writers.{Puts};
ghost use Rattle.mw_cert.specs.Nodes.{type_of_tree, PutsAll, PutsEnd, PutsNode, IsShort};

use mw_infer::NodeTypes;
use mw_recheck::NodeLine;
use mw_section::LineWriter;
use mw_types::Ty;
use std::alloc::AllocError;

/// Writes a node's types in order and then its classifier, and gives its line. The error is want of memory; the writer
/// is of no further use then.
pub fn put_node(writer: &mut LineWriter, node: &NodeTypes) -> Result<NodeLine, AllocError>
    requires { IsShort (facts_of_node node.now) }
    ensures { IfOk result
        (λ line. PutsNode (type_of_tree node.now.solution) (facts_of_node node.now)
        writer.old writer.new (numbers_of line)) }
{
    let own = put_type(writer, node, 0, node.ty())?;
    let first = put_further(writer, node, 0)?;
    let second = put_further(writer, node, 1)?;
    let classifier = put_classifier(writer, node)?;
    Ok(node_line(own, first, second, classifier))
}

/// Writes the type of a node that stands at a place: its own at 0, and further ones from 1 on.
fn put_type(
    writer: &mut LineWriter,
    node: &NodeTypes,
    at: usize,
    ty: &Ty,
) -> Result<u64, AllocError>
    requires { slice_get (facts_of_node node.now).types at ≡ Some (type_of ty.now) }
    ensures { IfOk result
        (λ place. Puts (type_of_tree node.now.solution) (type_written (type_of ty.now))
        writer.old writer.new place) }
{
    match node.tree(at) {
        Some(tree) => Ok(writer.put_tree(tree, ty)? as u64),
        None => unreachable!(),
    }
}

/// Writes a further type of a node, if there is one.
fn put_further(
    writer: &mut LineWriter,
    node: &NodeTypes,
    at: usize,
) -> Result<Option<u64>, AllocError>
    requires { at < 2 }
    ensures puts { IfOk result (λ place. PutsAll (type_of_tree node.now.solution)
        (option_to_list (slice_get (facts_of_node node.now).types (at + 1)))
        writer.old writer.new (option_to_list place)) }
    ensures count { IfOk result (λ place. length (option_to_list place)
        ≡ length (option_to_list (slice_get (facts_of_node node.now).types (at + 1)))) }
{
    match node.extra(at) {
        Some(ty) => Ok(Some(put_type(writer, node, at + 1, ty)?)),
        None => Ok(None),
    }
}

/// Writes the classifier of a node, if it has one.
fn put_classifier(writer: &mut LineWriter, node: &NodeTypes) -> Result<Option<u64>, AllocError>
    ensures puts { IfOk result (λ number. PutsEnd (type_of_tree node.now.solution)
        (facts_of_node node.now).classifier writer.old writer.new (option_to_list number)) }
    ensures count { IfOk result (λ number. length (option_to_list number)
        ≡ length (option_to_list (facts_of_node node.now).classifier)) }
{
    match node.classifier() {
        Some(classifier) => Ok(Some(writer.put_classifier(classifier)?)),
        None => Ok(None),
    }
}

/// The line of these numbers.
fn node_line(own: u64, first: Option<u64>, second: Option<u64>, classifier: Option<u64>) -> NodeLine
    requires { length (option_to_list first) + length (option_to_list second)
        + length (option_to_list classifier) ≤ 2 }
    ensures { numbers_of result
        ≡ (own ∷ (option_to_list first ++ option_to_list second)) ++ option_to_list classifier }
{
    let line = longer(NodeLine::One(own), first);
    let line = longer(line, second);
    longer(line, classifier)
}

/// The line with a number behind it, if there is one.
fn longer(line: NodeLine, number: Option<u64>) -> NodeLine
    requires { length (numbers_of line) + length (option_to_list number) ≤ 3 }
    ensures { numbers_of result ≡ numbers_of line ++ option_to_list number }
{
    let Some(last) = number else {
        return line;
    };
    match line {
        NodeLine::One(first) => NodeLine::Two(first, last),
        NodeLine::Two(first, second) => NodeLine::Three(first, second, last),
        NodeLine::Three(..) => unreachable!(),
    }
}
