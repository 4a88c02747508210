// The paths in expressions.
ghost use Rattle.std.specs.Prelude.{◌≡◌, ◌++◌, [], List, map, IfOk, OnOk};
ghost use Rattle.smv_text.specs.Tree.{links_of, branches_of, trees_of};
ghost use Rattle.smv_text.specs.View.{plain, plain_link, plain_branch};
ghost use Rattle.smv_meaning.specs.Expressions.{paths_of, link_paths, branch_paths, tree_paths};
ghost use Rattle.smv_text.specs.declared.tree.Path.{Path as PlainPath};
ghost use Rattle.smv_references.specs.View.{path_seen};

use smv_text::{Branch, Expr, Link, Path, Shape};
use std::alloc::Global;
use text_core::NoMemory;

/// Returns the paths of an expression, in the order of the text.
#[tactic(auto, using(text_core::proofs::ListLaws::append_none))]
pub fn paths_in<'a>(alloc: Global, e: &'a Expr) -> Result<Vec<&'a Path>, NoMemory>
    ensures { IfOk result (λ ps. map path_seen ps.items ≡ paths_of (plain e.now) []) }
{
    let mut paths = Vec::new(alloc);
    add_paths(&mut paths, e)?;
    Ok(paths)
}

/// Appends the paths of an expression, in the order of the text.
#[tactic(auto, using(text_core::proofs::ListLaws::append_none))]
pub fn put_paths<'a>(paths: &mut Vec<&'a Path>, e: &'a Expr) -> Result<(), NoMemory>
    ensures { OnOk result (map path_seen paths.new.items ≡ map path_seen paths.old.items ++ paths_of (plain e.now) []) }
{
    add_paths(paths, e)?;
    Ok(())
}

/// Appends the paths of several expressions, in the order of the text.
#[tactic(auto, using(text_core::proofs::ListLaws::append_none))]
pub fn put_all_paths<'a>(paths: &mut Vec<&'a Path>, trees: &'a [Expr]) -> Result<(), NoMemory>
    ensures { OnOk result (map path_seen paths.new.items ≡ map path_seen paths.old.items ++ tree_paths (trees_of (map plain trees.now)) []) }
{
    add_tree_paths(paths, trees)?;
    Ok(())
}

// `more` stands for any further list, so that the clause also applies within longer lists.
#[cycle(paths)]
fn add_paths<'a>(paths: &mut Vec<&'a Path>, e: &'a Expr) -> Result<(), NoMemory>
    ensures { (more : List PlainPath) → OnOk result (map path_seen paths.new.items ++ more ≡ map path_seen paths.old.items ++ paths_of (plain e.now) more) }
{
    match &e.shape {
        Shape::True => Ok(()),
        Shape::False => Ok(()),
        Shape::Number(_) => Ok(()),
        Shape::Literal(_) => Ok(()),
        Shape::Name(path) => Ok(paths.push(path)?),
        Shape::Prefix(_, _, a) => add_paths(paths, a),
        Shape::Chain(a, links) => {
            add_paths(paths, a)?;
            add_link_paths(paths, links.as_slice())?;
            Ok(())
        }
        Shape::Choice(branches, a) => {
            add_branch_paths(paths, branches.as_slice())?;
            add_paths(paths, a)
        }
        Shape::Case(branches) => {
            add_branch_paths(paths, branches.as_slice())?;
            Ok(())
        }
        Shape::Select(a, _, _) => add_paths(paths, a),
        Shape::Call(_, arguments) => {
            add_tree_paths(paths, arguments.as_slice())?;
            Ok(())
        }
        Shape::Next(a) => add_paths(paths, a),
        Shape::Set(elements) => {
            add_tree_paths(paths, elements.as_slice())?;
            Ok(())
        }
        Shape::Range(_, _) => Ok(()),
    }
}

#[cycle(paths)]
fn add_link_paths<'a>(paths: &mut Vec<&'a Path>, links: &'a [Link]) -> Result<(), NoMemory>
    ensures { (more : List PlainPath) → OnOk result (map path_seen paths.new.items ++ more ≡ map path_seen paths.old.items ++ link_paths (links_of (map plain_link links.now)) more) }
{
    for link in links {
        add_paths(paths, &link.operand)?;
    }
    Ok(())
}

#[cycle(paths)]
fn add_branch_paths<'a>(paths: &mut Vec<&'a Path>, branches: &'a [Branch]) -> Result<(), NoMemory>
    ensures { (more : List PlainPath) → OnOk result (map path_seen paths.new.items ++ more ≡ map path_seen paths.old.items ++ branch_paths (branches_of (map plain_branch branches.now)) more) }
{
    for branch in branches {
        add_paths(paths, &branch.when)?;
        add_paths(paths, &branch.value)?;
    }
    Ok(())
}

#[cycle(paths)]
fn add_tree_paths<'a>(paths: &mut Vec<&'a Path>, trees: &'a [Expr]) -> Result<(), NoMemory>
    ensures { (more : List PlainPath) → OnOk result (map path_seen paths.new.items ++ more ≡ map path_seen paths.old.items ++ tree_paths (trees_of (map plain trees.now)) more) }
{
    for tree in trees {
        add_paths(paths, tree)?;
    }
    Ok(())
}
