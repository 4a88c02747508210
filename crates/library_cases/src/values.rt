// Values of expressions with definitions and actual parameters.
ghost use Rattle.std.specs.Prelude.{◌≡◌, map, flat_map, position, bytes_eq, true, IfOk, IfSome};
ghost use Rattle.std.specs.List.{list_all};
ghost use Rattle.smv_text.specs.View.{plain, plain_module, plain_domain, plain_item, plain_element, plain_source};
ghost use Rattle.smv_meaning.specs.Instances.{instances_of};
ghost use Rattle.smv_meaning.specs.Checked.{IsChecked};
ghost use Rattle.smv_meaning.specs.Owed.{instance_number};
ghost use Rattle.smv_meaning.specs.Parts.{InOne, expressions_in, OccursIn};
ghost use Rattle.smv_instances.specs.View.{instance_plain};
ghost use Rattle.smv_flatten.specs.FlatModel.{IsRead};
ghost use Rattle.library_cases.specs.Free.{is_instance, is_free_item, is_free_element, are_free};

use crate::models::source_of;
use case_text::{Answer, Fault, Piece, piece_bytes};
use smv_evaluation::value_at;
use smv_flatten::flatten;
use smv_instances::{Instance, instance_list};
use smv_laws::accepted_is_checked;
use smv_meaning::{State, Value};
use smv_text::{Domain, Element, Elements, Expr, Items, Module, Shape, Source};
use std::alloc::Global;
use text_core::{Name, NoMemory, Text};

// The model with the expression at its end, where any type fits: on both sides of an equation under TRANS.
fn asking(alloc: Global, model: &[u8], expression: &[u8]) -> Result<Text, NoMemory> {
    let mut out = Answer::new(alloc);
    out.put(model);
    out.put(b"\nTRANS (");
    out.put(expression);
    out.put(b"\n) = (");
    out.put(expression);
    out.put(b"\n)");
    out.done()
}

/// Appends the value of the expression in the instance with this path: `main`, or a dotted path.
///
/// The expression is parsed at the end of the model's last module.
pub fn put_value_of(
    alloc: Global,
    out: &mut Answer,
    path: &str,
    pieces: &[Piece],
) -> Result<(), Fault> {
    let model = piece_bytes(pieces, "model")?;
    let text = asking(alloc, model, piece_bytes(pieces, "text")?)?;
    let value = value_in(alloc, text.bytes(), path)?;
    put_value(out, &value);
    Ok(())
}

#[tactic(auto, using(crate::proofs::Read::is_read))]
fn value_in(alloc: Global, text: &[u8], path: &str) -> Result<Value, Fault> {
    let path = if path == "main" { "" } else { path };
    let name = Name::of(alloc, path.as_bytes())?;
    let source = source_of(alloc, text)?;
    value_in_source(alloc, &source, &name)
}

fn value_in_source(alloc: Global, source: &Source, name: &Name) -> Result<Value, Fault>
    requires { IsRead (plain_source source.now) }
{
    checked(alloc, source)?;
    let parts = instance_list(alloc, source)?;
    value_among(alloc, source, parts.as_slice(), name)
}

// Makes all checks on the model.
fn checked(alloc: Global, source: &Source) -> Result<(), Fault>
    requires { IsRead (plain_source source.now) }
    ensures { IfOk result (λ u. IsChecked (instances_of (plain_source source.now))) }
{
    accepted_is_checked();
    let flat = flatten(alloc, source, 0)?;
    drop(flat);
    Ok(())
}

// The value in the model's instance with this path.
#[tactic(auto, using(crate::proofs::Fitting::now_fits, crate::proofs::Fitting::inputs_fit, crate::proofs::Fitting::stands))]
fn value_among<'a>(
    alloc: Global,
    source: &'a Source,
    parts: &[Instance<'a>],
    name: &Name,
) -> Result<Value, Fault>
    requires checked { IsChecked (instances_of (plain_source source.now)) }
    requires parts { map instance_plain parts.now ≡ instances_of (plain_source source.now) }
{
    if !are_free(parts) {
        return Err(Fault::from("a model with variables"));
    }
    let i = number_of(parts, name.bytes());
    let e = asked_in(parts, i).ok_or("no expression at the end of the module")?;
    let nothing = State::new(alloc);
    Ok(value_at(
        alloc,
        source,
        name,
        e,
        &nothing,
        Some(&nothing),
        Some(&nothing),
    )?)
}

fn is_instance(domain: &Domain) -> bool
    ensures { result ≡ is_instance (plain_domain domain.now) }
{
    match domain {
        Domain::Instance(_, _) => true,
        Domain::Boolean | Domain::Members(_) | Domain::Between(_, _) | Domain::Bits(_) => false,
    }
}

fn are_instances(items: &Items) -> bool
    ensures { result ≡ list_all is_free_item (map plain_item items.now) }
{
    for item in items {
        if !is_instance(&item.domain) {
            return false;
        }
    }
    true
}

fn is_free(element: &Element) -> bool
    ensures { result ≡ is_free_element (plain_element element.now) }
{
    match element {
        Element::Vars(_, items) => are_instances(items),
        Element::Defines(_)
        | Element::Constants(_)
        | Element::Assigns(_)
        | Element::Init(_)
        | Element::Trans(_)
        | Element::Invar(_)
        | Element::Spec(_, _) => true,
    }
}

fn elements_are_free(elements: &Elements) -> bool
    ensures { result ≡ list_all is_free_element (map plain_element elements.now) }
{
    for element in elements {
        if !is_free(element) {
            return false;
        }
    }
    true
}

// Whether each variable is an instance.
#[tactic(auto, using(smv_meaning::specs::laws::Lists::front_is, smv_meaning::specs::laws::Lists::end_is))]
fn are_free<'a>(parts: &[Instance<'a>]) -> bool
    ensures { result ≡ are_free (map instance_plain parts.now) }
{
    for at in parts {
        if !elements_are_free(&at.module.elements) {
            return false;
        }
    }
    true
}

fn place_of<'a>(parts: &[Instance<'a>], path: &[u8]) -> Option<usize>
    ensures { result ≡ position (λ at. bytes_eq (instance_plain at).path path.now) parts.now }
{
    parts.iter().position(|at| at.path.bytes() == path)
}

// The number of the instance with this dotted path, or the number of instances where there is none.
fn number_of<'a>(parts: &[Instance<'a>], path: &[u8]) -> usize
    ensures { result ≡ instance_number (map instance_plain parts.now) path.now }
{
    match place_of(parts, path) {
        Some(i) => i,
        None => parts.len(),
    }
}

// The expression before the first operator of the module's last section, which must be a TRANS.
fn asked_of(declared: &Module) -> Option<&Expr>
    ensures { IfSome result (λ e. InOne (plain e.now) (flat_map expressions_in (plain_module declared.now).elements)) }
{
    let count = declared.elements.len();
    if count == 0 {
        return None;
    }
    match declared.elements.at(count - 1) {
        Element::Trans(e) => match &e.shape {
            Shape::Chain(first, _) => Some(&**first),
            _ => None,
        },
        _ => None,
    }
}

// The same for the module of the instance with number i.
fn asked_in<'a>(parts: &[Instance<'a>], i: usize) -> Option<&'a Expr>
    ensures { IfSome result (λ e. OccursIn (map instance_plain parts.now) i (plain e.now)) }
{
    if i < parts.len() {
        asked_of(parts[i].module)
    } else {
        None
    }
}

fn put_value(out: &mut Answer, value: &Value) {
    match value {
        Value::Truth(true) => out.put(b"TRUE"),
        Value::Truth(false) => out.put(b"FALSE"),
        Value::Integer(n) => out.put_decimal(i128::from(*n)),
        Value::Symbol(name) => out.put(name.bytes()),
        Value::Bits(word) => {
            out.put(b"0ud");
            out.put_unsigned(u128::from(word.width()));
            out.put(b"_");
            out.put_unsigned(word.bits());
        }
    }
}
