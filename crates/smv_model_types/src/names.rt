// The properties of paths, by what they lead to.
ghost use Rattle.std.specs.Prelude.{◌≡◌, Some, map};
ghost use Rattle.smv_text.specs.View.{plain_domain};
ghost use Rattle.smv_instances.specs.View.{instance_plain, found_plain, Declares};
ghost use Rattle.smv_types.specs.declared.names.Named.{Named as Stored};
ghost use Rattle.smv_types.specs.View.{named_seen};
ghost use Rattle.name_maps.specs.Rows.{row_in};
ghost use Rattle.smv_items.specs.FlatItems.{leaf_found};
ghost use Rattle.smv_items.specs.FlatOrigins.{leaf_plain};
ghost use Rattle.smv_model_types.specs.Entries.{entries_seen, found_named, named_variable, or_unnamed, stored_at};

use crate::context::Model;
use crate::domains::{is_input, variable_named};
use name_maps::{InstanceRows, row_value_in};
use smv_instances::Target;
use smv_intervals::Ty;
use smv_items::Leaf;
use smv_text::{Domain, VarKind};
use smv_types::Named;

/// The properties of definitions and actuals, by the numbers of their items.
pub(crate) type Entries = Vec<Option<Named>>;

/// The properties of variables that have enumeration types, by instance and name.
pub(crate) type Enumerations<'a> = InstanceRows<'a, Named>;

const UNNAMED: Named = Named {
    ty: None,
    is_instance: false,
    reaches_input: false,
};

const INSTANCE: Named = Named {
    ty: None,
    is_instance: true,
    reaches_input: false,
};

const SYMBOL: Named = Named {
    ty: Some(Ty::Symbol),
    is_instance: false,
    reaches_input: false,
};

// The properties of a variable. Only the type of an enumeration takes more than a step or two to compute from its
// declaration.
fn variable<'a>(
    enumerations: &Enumerations<'a>,
    i: usize,
    x: &[u8],
    kind: VarKind,
    domain: &Domain,
) -> Named
    requires { (n : Stored) → row_in enumerations.now i x.now ≡ Some n → named_seen n ≡ named_variable kind (plain_domain domain.now) }
    ensures { named_seen result ≡ named_variable kind (plain_domain domain.now) }
{
    match domain {
        Domain::Members(_) => match row_value_in(enumerations, i, x) {
            Some(named) => named,
            None => variable_named(kind, domain),
        },
        Domain::Boolean => variable_named(kind, domain),
        Domain::Between(_, _) => variable_named(kind, domain),
        Domain::Bits(_) => variable_named(kind, domain),
        Domain::Instance(_, _) => variable_named(kind, domain),
    }
}

// The properties of a definition or an actual, by the number of its item.
fn body(entries: &Entries, k: usize) -> Named
    ensures { named_seen result ≡ or_unnamed (stored_at entries.now.items (Some k)) }
{
    if k < entries.len() {
        entries[k].unwrap_or(UNNAMED)
    } else {
        UNNAMED
    }
}

/// Returns the properties of a target by the entries, given its translation.
pub(crate) fn target_named<'s, 'a, 'n>(
    model: &Model<'s, 'a, 'n>,
    entries: &Entries,
    target: Target,
    leaf: Leaf,
) -> Named
    requires declared { Declares (map instance_plain model.now.table.now) target }
    requires leaf { leaf_plain leaf ≡ leaf_found (map instance_plain model.now.table.now) (found_plain (map instance_plain model.now.table.now) target) }
    ensures { named_seen result ≡ found_named (entries_seen model.now.numbers.now.bodies entries.now.items) (found_plain (map instance_plain model.now.table.now) target.entry) }
{
    match target {
        Target::Variable(i, x, kind, domain) => variable(model.enumerations, i, x, kind, domain),
        Target::Body(_, _, _, _) => match leaf {
            Leaf::Item(k) => body(entries, k as usize),
            Leaf::Symbol(_) => UNNAMED,
            Leaf::Nothing => UNNAMED,
        },
        Target::Instance(_) => INSTANCE,
        Target::Symbol(_) => SYMBOL,
        Target::Cyclic => UNNAMED,
        Target::Missing => UNNAMED,
    }
}

/// Returns whether a target is an input, or a definition or an actual that reaches one by the entries.
pub(crate) fn target_reaches<'s, 'a, 'n>(
    model: &Model<'s, 'a, 'n>,
    entries: &Entries,
    target: Target,
) -> bool
    ensures { result ≡ (found_named (entries_seen model.now.numbers.now.bodies entries.now.items) (found_plain (map instance_plain model.now.table.now) target.entry)).reaches_input }
{
    match target {
        Target::Variable(_, _, kind, _) => is_input(kind),
        Target::Body(i, x, _, _) => match row_value_in(&model.numbers.bodies, i, x) {
            Some(k) => body(entries, k).reaches_input,
            None => false,
        },
        Target::Instance(_) => false,
        Target::Symbol(_) => false,
        Target::Cyclic => false,
        Target::Missing => false,
    }
}
