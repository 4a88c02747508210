// Each word literal of a model is a word, as its type ensures. This pass over the model proves it for contracts, which
// see only plain forms.
ghost use Rattle.std.specs.Prelude.{IsTrue, map};
ghost use Rattle.std.specs.List.{list_all, flat_map};
ghost use Rattle.smv_text.specs.Tree.{links_of, branches_of, trees_of};
ghost use Rattle.smv_text.specs.Heights.{of_definitions, of_assignments};
ghost use Rattle.smv_text.specs.View.{plain, plain_link, plain_branch, plain_definition, plain_assignment, plain_element};
ghost use Rattle.smv_meaning.specs.Checks.{is_literal};
ghost use Rattle.smv_meaning.specs.Literals.{words_fit, link_words, branch_words, tree_words};
ghost use Rattle.smv_meaning.specs.Parts.{expressions_in};
ghost use Rattle.smv_meaning.specs.Checked.{instance_all, all_trees};
ghost use Rattle.smv_instances.specs.View.{instance_plain};

use smv_instances::Instance;
use smv_text::{Assignments, Branch, Definitions, Element, Elements, Expr, Link, Shape};
use word_core::Word;

#[tactic(auto, using(smv_meaning::specs::laws::WordLemmas::literal_is))]
fn in_literal(word: &Word)
    ensures { IsTrue (is_literal word.now) }
{
    let _width = word.width();
}

#[cycle(literals)]
fn in_expression(e: &Expr)
    ensures { IsTrue (words_fit (plain e.now)) }
{
    match &e.shape {
        Shape::True => {}
        Shape::False => {}
        Shape::Number(_) => {}
        Shape::Literal(word) => in_literal(word),
        Shape::Name(_) => {}
        Shape::Prefix(_, _, a) => in_expression(a),
        Shape::Chain(a, links) => {
            in_expression(a);
            in_links(links.as_slice());
        }
        Shape::Choice(branches, last) => {
            in_branches(branches.as_slice());
            in_expression(last);
        }
        Shape::Case(branches) => in_branches(branches.as_slice()),
        Shape::Select(a, _, _) => in_expression(a),
        Shape::Call(_, arguments) => in_expressions(arguments.as_slice()),
        Shape::Next(a) => in_expression(a),
        Shape::Set(elements) => in_expressions(elements.as_slice()),
        Shape::Range(_, _) => {}
    }
}

#[cycle(literals)]
#[tactic(auto, using(crate::proofs::LiteralLemmas::links_front))]
fn in_links(links: &[Link])
    ensures { IsTrue (link_words (links_of (map plain_link links.now))) }
{
    for link in links {
        in_expression(&link.operand);
    }
}

#[cycle(literals)]
#[tactic(auto, using(crate::proofs::LiteralLemmas::branches_front))]
fn in_branches(branches: &[Branch])
    ensures { IsTrue (branch_words (branches_of (map plain_branch branches.now))) }
{
    for branch in branches {
        in_expression(&branch.when);
        in_expression(&branch.value);
    }
}

#[cycle(literals)]
#[tactic(auto, using(crate::proofs::LiteralLemmas::trees_front))]
fn in_expressions(expressions: &[Expr])
    ensures { IsTrue (tree_words (trees_of (map plain expressions.now))) }
{
    for expression in expressions {
        in_expression(expression);
    }
}

fn in_definitions(definitions: &Definitions)
    ensures { IsTrue (list_all words_fit (of_definitions (map plain_definition definitions.now))) }
{
    for definition in definitions {
        in_expression(&definition.body);
    }
}

fn in_assignments(assignments: &Assignments)
    ensures { IsTrue (list_all words_fit (of_assignments (map plain_assignment assignments.now))) }
{
    for assignment in assignments {
        in_expression(&assignment.body);
    }
}

fn in_element(element: &Element)
    ensures { IsTrue (list_all words_fit (expressions_in (plain_element element.now))) }
{
    match element {
        Element::Vars(_, _) => {}
        Element::Defines(definitions) => in_definitions(definitions),
        Element::Constants(_) => {}
        Element::Assigns(assignments) => in_assignments(assignments),
        Element::Init(e) => in_expression(e),
        Element::Trans(e) => in_expression(e),
        Element::Invar(e) => in_expression(e),
        Element::Spec(_, e) => in_expression(e),
    }
}

#[tactic(auto, using(crate::proofs::LiteralLemmas::elements_front))]
fn in_elements(elements: &Elements)
    ensures { IsTrue (list_all words_fit (flat_map expressions_in (map plain_element elements.now))) }
{
    for element in elements {
        in_element(element);
    }
}

#[tactic(auto, using(crate::proofs::LiteralLemmas::words_listed))]
fn in_instance(instance: &Instance)
    ensures { IsTrue (instance_all words_fit (instance_plain instance.now)) }
{
    in_expressions(instance.actuals);
    in_elements(&instance.module.elements);
}

/// Proves that each word literal of these instances is a word.
///
/// It visits every expression and changes nothing.
pub fn literals_are_words(table: &[Instance])
    ensures { IsTrue (all_trees words_fit (map instance_plain table.now)) }
{
    for instance in table {
        in_instance(instance);
    }
}
