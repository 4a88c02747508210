// Rows of values, refilled for each state.
ghost use Rattle.std.specs.Prelude.{◌≡◌, ◌<◌, true, length, map, nat_lt, OnOk};
ghost use Rattle.name_maps.specs.Tables.{AreDistinct};
ghost use Rattle.std.specs.List.{list_all};
ghost use Rattle.smv_meaning.specs.Values.{given};
ghost use Rattle.smv_flat.specs.FlatTruth.{symbol_value};
ghost use Rattle.smv_flat_evaluation.specs.RowValues.{row_values};
ghost use Rattle.smv_rows.specs.Filling.{body_plain, bodies_in, with_body, filled, BodySafe, FillsSafely};
ghost use Rattle.smv_rows.specs.Listed.{AreListed};
ghost use Rattle.smv_flat.specs.FlatParts.{parts_plain};
ghost use Rattle.smv_rows.specs.Numbered.{CarriesValues, GivesInputs};
ghost use Rattle.smv_rows.specs.Places.{IsGiven};
ghost use Rattle.smv_rows.specs.Relabelling.{CanRelabel, Relabels};
ghost use Rattle.smv_rows.specs.RowOrders.{IsRowOrder};
ghost use Rattle.smv_rows.specs.Truths.{Gives, CanFill, Fills};

use crate::carried::Carried;
use crate::listed::{give_inputs, give_listed};
use crate::order::RowOrder;
use crate::variables::{give_names, give_variables};
use name_maps::{NameSet, Successors};
use smv_flat::{FlatExpr, FlatParts};
use smv_flat_evaluation::evaluate;
use smv_meaning::State;
use smv_operators::Seen;
use std::alloc::Global;
use text_core::NoMemory;

/// The value of each item of a flat form in a state and under a label, by item number.
///
/// A row can be refilled without new memory.
///
/// Where values are looked up by names, `state` and `label` have those of the last state and label, by the places of
/// their names.
#[derive(Drop)]
pub struct Row<'a> {
    pub values: Vec<Seen<'a>>,
    state: Vec<Seen<'a>>,
    label: Vec<Seen<'a>>,
    successors: Successors,
}

impl<'a> Row<'a> {
    /// Creates a row without values.
    pub fn new(alloc: Global) -> Row<'a> {
        Row {
            values: Vec::new(alloc),
            state: Vec::new(alloc),
            label: Vec::new(alloc),
            successors: Successors::new(alloc),
        }
    }

    // Sets the variables to the values that the state and the label have under their names.
    fn give_named(
        &mut self,
        order: &RowOrder,
        state: &'a State,
        label: &'a State,
    ) -> Result<(), NoMemory>
        ensures { OnOk result (Gives order.now (given state.now) (given label.now) self.new.values.items) }
    {
        self.successors.cover(&order.names)?;
        give_names(&order.names, state, &mut self.successors, &mut self.state)?;
        give_names(&order.names, label, &mut self.successors, &mut self.label)?;
        give_variables(
            order.places.as_slice(),
            self.state.as_slice(),
            self.label.as_slice(),
            &mut self.values,
        )?;
        Ok(())
    }

    /// Sets each state and frozen variable to its value in the state, and each input to its value in the label.
    ///
    /// The other items have no value yet. Refilling a row takes no more memory.
    pub fn give(
        &mut self,
        flat: &FlatParts<'a>,
        order: &RowOrder,
        state: &'a State,
        label: &'a State,
    ) -> Result<(), NoMemory>
        requires order { IsRowOrder flat.now order.now }
        requires listed { order.now.listed ≡ true → AreListed (parts_plain flat.now).items state.now label.now }
        ensures { OnOk result (IsGiven flat.now.items.now (given state.now) (given label.now) self.new.values.items) }
    {
        if order.listed {
            give_listed(
                flat.items,
                state.as_slice(),
                label.as_slice(),
                &mut self.values,
            )?;
            Ok(())
        } else {
            self.give_named(order, state, label)
        }
    }

    /// Sets each variable to the value that is carried for it.
    ///
    /// Refilling a row takes no more memory.
    pub fn give_carried(
        &mut self,
        flat: &FlatParts<'a>,
        carried: &Carried<'a>,
    ) -> Result<(), NoMemory>
        requires { AreDistinct (map (λ m. m.name) (parts_plain flat.now).items) }
        ensures { OnOk result (CarriesValues flat.now carried.now self.new.values.items) }
    {
        carried.copy_into(&mut self.values)?;
        Ok(())
    }

    /// Sets each input to its value in the other row.
    pub fn give_inputs(&mut self, flat: &FlatParts<'a>, other: &Row<'a>)
        requires { length self.old.values.items ≡ length flat.now.items.now }
        ensures { GivesInputs flat.now self.old.values.items other.now.values.items self.new.values.items }
    {
        give_inputs(flat.items, other.values.as_slice(), &mut self.values);
    }

    /// Sets each definition and actual to the value of its body.
    ///
    /// Each body is evaluated once.
    pub fn evaluate(&mut self, flat: &FlatParts<'a>, order: &RowOrder)
        requires order { IsRowOrder flat.now order.now }
        // Each intermediate integer fits 64 bits.
        requires safe { CanFill flat.now self.old.values.items }
        ensures values { Fills flat.now self.old.values.items self.new.values.items }
        ensures size { length self.new.values.items ≡ length self.old.values.items }
    {
        fill_bodies(
            flat.symbols,
            order.bodies.as_slice(),
            order.order,
            &mut self.values,
        );
    }

    /// Turns the row of a state under any label into its row under the label whose inputs the other row has.
    ///
    /// Without inputs nothing changes.
    pub fn give_label(&mut self, flat: &FlatParts<'a>, order: &RowOrder, other: &Row<'a>)
        requires order { IsRowOrder flat.now order.now }
        // Each intermediate integer fits 64 bits.
        requires safe { CanRelabel flat.now self.old.values.items other.now.values.items }
        ensures size { length self.new.values.items ≡ length self.old.values.items }
        ensures row { Relabels flat.now self.old.values.items other.now.values.items self.new.values.items }
    {
        if order.inputs {
            give_inputs(flat.items, other.values.as_slice(), &mut self.values);
            self.evaluate(flat, order);
        }
    }
}

// Evaluates the bodies in order.
fn fill_bodies<'a>(
    symbols: &'a NameSet,
    bodies: &[Option<&FlatExpr>],
    order: &[usize],
    values: &mut Vec<Seen<'a>>,
)
    requires size { length values.old.items ≡ length bodies.now }
    requires within { list_all (λ k. nat_lt k (length bodies.now)) order.now ≡ true }
    requires safe { FillsSafely (bodies_in bodies.now) (symbol_value symbols.now) (row_values values.old.items) order.now }
    ensures size { length values.new.items ≡ length values.old.items }
    ensures row { row_values values.new.items ≡ filled (bodies_in bodies.now) (symbol_value symbols.now) (row_values values.old.items) order.now }
{
    let mut rest = order;
    while let Some((k, more)) = rest.split_first() {
        fill_body(symbols, bodies[*k], *k, values);
        rest = more;
    }
}

// Sets an item to the value of its body, if it has one.
fn fill_body<'a>(
    symbols: &'a NameSet,
    body: Option<&FlatExpr>,
    k: usize,
    values: &mut Vec<Seen<'a>>,
)
    requires low { k < length values.old.items }
    requires safe { BodySafe (symbol_value symbols.now) (row_values values.old.items) (body_plain body) }
    ensures size { length values.new.items ≡ length values.old.items }
    ensures value { row_values values.new.items ≡ with_body (symbol_value symbols.now) (row_values values.old.items) k (body_plain body.entry) }
{
    match body {
        None => {}
        Some(e) => {
            let value = evaluate(symbols, e, values.as_slice(), values.as_slice());
            values[k] = value;
        }
    }
}
