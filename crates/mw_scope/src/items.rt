// The walk of the items.

ghost use Rattle.std.specs.Prelude.{◌≡◌, ◌≤◌, [], length, map, IfOk, OnOk};
ghost use Rattle.mw_term.specs.Programs.{definition_of};
ghost use Rattle.mw_grammar.specs.SurfaceTrees.{item_of, tree_of};
ghost use Rattle.mw_grammar.specs.SurfaceDepth.{AreShallow, bound_tree, surface_depth};
ghost use Rattle.mw_scope.specs.Scopes.{name_of};
ghost use Rattle.mw_scope.specs.Nameless.{is_value};
ghost use Rattle.mw_scope.specs.Faults.{faults_in, faults_of_item, faults_of_items, faults_of_name, faults_of_value};
ghost use Rattle.mw_scope.specs.Named.{named, named_item, named_items};
ghost use Rattle.mw_scope.specs.Keeping.{kept};
ghost use Rattle.mw_scope.specs.Views.{AddsName, Knows, place_at};
ghost use Rattle.mw_scope.specs.declared.level.Level.TheVariants.{Live};
ghost use Rattle.mw_term.specs.Terms.{expression_of};

use crate::binders::Binders;
use crate::fault::Fault;
use crate::keeping::keep;
use crate::level::Level;
use crate::names::Names;
use crate::top_names::TopNames;
use crate::walk::term;
use mw_grammar::{Placed, SurfaceItem, Tree};
use mw_term::{Item, ItemKind, Items, Term, copied_kernel_type, copied_name};
use std::alloc::{AllocError, Global};

/// Whether a tree is a syntactic value.
fn is_syntactic_value(tree: &Tree) -> bool
    ensures { result ≡ is_value (tree_of tree.now) }
{
    match tree {
        Tree::Int(_) | Tree::Bool(_) | Tree::Fun(..) | Tree::Rec(..) => true,
        Tree::Pair(a, b) => is_syntactic_value(a) && is_syntactic_value(b),
        _ => false,
    }
}

/// The term of an expression outside all binders, with its faults kept.
pub fn outer_term(
    alloc: Global,
    tops: &TopNames,
    tree: &Tree,
    first: &mut Option<Fault>,
) -> Result<Term, AllocError>
    requires { surface_depth (tree_of tree.now) ≤ 200 }
    ensures term { IfOk result
        (λ t. expression_of t ≡ named (place_at tops.now) [] Live (tree_of tree.now)) }
    ensures faults { OnOk result
        (first.new ≡ kept first.old (faults_in (place_at tops.now) [] Live (tree_of tree.now))) }
{
    let mut binders = Binders::new(alloc);
    term(alloc, tops, &mut binders, Level::Live, tree, first)
}

/// Keeps the fault of a name that an earlier item has, if one has it.
fn keep_name(all: &TopNames, name: &Placed, first: &mut Option<Fault>)
    ensures { first.new
        ≡ kept first.old (faults_of_name (place_at all.now name.now.name) name.now.at) }
{
    if all.find(&name.name).is_some() {
        keep(first, Fault::Twice(name.at));
    }
}

/// Keeps the fault of a let that binds no value, if it binds none.
fn keep_value(tree: &Tree, from: u32, first: &mut Option<Fault>)
    ensures { first.new ≡ kept first.old (faults_of_value (is_value (tree_of tree.now)) from) }
{
    if !is_syntactic_value(tree) {
        keep(first, Fault::NotValue(from));
    }
}

/// What an item defines after the items so far, with its faults kept.
fn kind(
    alloc: Global,
    names: &Names,
    item: &SurfaceItem,
    first: &mut Option<Fault>,
) -> Result<ItemKind, AllocError>
    requires { surface_depth (bound_tree (item_of item.now)) ≤ 200 }
    ensures definition { IfOk result
        (λ kind. definition_of kind ≡ named_item (place_at names.now.lets) (item_of item.now)) }
    ensures faults { OnOk result
        (first.new
        ≡ kept first.old (faults_of_item (place_at names.now.lets) (place_at names.now.all) (item_of item.now))) }
{
    match item {
        SurfaceItem::Let(name, from, tree) => {
            keep_name(&names.all, name, first);
            keep_value(tree, *from, first);
            Ok(ItemKind::Value(outer_term(alloc, &names.lets, tree, first)?))
        }
        SurfaceItem::Kernel(name, kind, tree) => {
            keep_name(&names.all, name, first);
            let kind = copied_kernel_type(alloc, kind)?;
            Ok(ItemKind::Kernel(kind, outer_term(alloc, &names.lets, tree, first)?))
        }
    }
}

/// The name of an item.
fn item_name(item: &SurfaceItem) -> &Placed
    ensures { result.now.name ≡ name_of (item_of item.now) }
{
    match item {
        SurfaceItem::Let(name, _, _) => name,
        SurfaceItem::Kernel(name, _, _) => name,
    }
}

/// An item after the items so far, with its faults kept and its name added.
fn item(
    alloc: Global,
    names: &mut Names,
    item: &SurfaceItem,
    index: u32,
    first: &mut Option<Fault>,
) -> Result<Item, AllocError>
    requires { surface_depth (bound_tree (item_of item.now)) ≤ 200 }
    ensures name { IfOk result (λ i. i.name ≡ name_of (item_of item.now)) }
    ensures definition { IfOk result
        (λ i. definition_of i.kind ≡ named_item (place_at names.old.lets) (item_of item.now)) }
    ensures faults { OnOk result
        (first.new
        ≡ kept first.old (faults_of_item (place_at names.old.lets) (place_at names.old.all) (item_of item.now))) }
    ensures names { OnOk result (AddsName names.old names.new (item_of item.now) index) }
{
    let name = copied_name(alloc, &item_name(item).name)?;
    let kind = kind(alloc, names, item, first)?;
    match names.add(alloc, item, index) {
        Err(error) => {
            drop(kind);
            Err(error)
        }
        Ok(()) => Ok(Item { name, kind }),
    }
}

/// The items of a program, with their faults kept and their names added to none.
pub fn items(
    alloc: Global,
    names: &mut Names,
    list: &[SurfaceItem],
    first: &mut Option<Fault>,
) -> Result<Items, AllocError>
    requires none { Knows names.old [] }
    requires count { length list.now ≤ 1000 }
    requires shallow { AreShallow (map item_of list.now) }
    ensures names { IfOk result
        (λ items. map (λ i. i.name) items ≡ map name_of (map item_of list.now)) }
    ensures definitions { IfOk result
        (λ items. map (λ i. definition_of i.kind) items ≡ named_items [] (map item_of list.now)) }
    ensures faults { OnOk result
        (first.new ≡ kept first.old (faults_of_items [] (map item_of list.now))) }
    ensures known { OnOk result (Knows names.new (map item_of list.now)) }
{
    let mut done = Items::new(alloc);
    for one in list {
        let index = done.len() as u32;
        let one = item(alloc, names, one, index, first)?;
        done.push(one)?;
    }
    Ok(done)
}
