// A flat form of which a script can be computed.
ghost use Rattle.std.specs.Prelude.{◌≡◌, ◌<◌, ◌^◌, length, map};
ghost use Rattle.smv_flat.specs.FlatFormulas.{form_plain};
ghost use Rattle.smv_script.specs.Ranges.{forms_excess};
ghost use Rattle.smv_script_terms.specs.Depths.{forms_depth};

use smv_flat::FlatParts;

/// The parts of a flat form whose items, symbols and nesting can be numbered with 32 bits, and whose numbers are in range.
#[derive(Clone, Copy)]
pub struct SmallFlat<'f> {
    /// The parts.
    pub parts: FlatParts<'f>,
    pub ghost few_items: { length parts.items.now < 2 ^ 30 },
    pub ghost few_symbols: { length parts.symbols.now < 2 ^ 32 },
    pub ghost low: { forms_depth (map form_plain parts.formulas.now) < 2 ^ 32 },
    pub ghost in_range: { forms_excess (map form_plain parts.formulas.now) ≡ 0 },
}
