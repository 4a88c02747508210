// A model's flat form with the lines of its script.
ghost use Rattle.std.specs.Prelude.{◌≡◌, length, IfOk};
ghost use Rattle.smv_text.specs.View.{plain_source};
ghost use Rattle.smv_meaning.specs.Instances.{instances_of, weight_of};
ghost use Rattle.smv_meaning.specs.Phases.{IsAccepted, checks_of, invariants_in};
ghost use Rattle.smv_flat.specs.FlatForms.{flat_smv};
ghost use Rattle.smv_flat.specs.FlatWidth.{width_of};
ghost use Rattle.smv_flatten.specs.FlatModel.{IsRead, flat_plain};
ghost use Rattle.smv_flatten.specs.Refusing.{Decides};
ghost use Rattle.moxi_layout.specs.LayoutLaws.{IsLaidOut};
ghost use Rattle.witness_lift.specs.Lifting.{lines_in, system_in};

use crate::line_laws::model_lines_are_laid_out;
use crate::system_lines::{SystemLines, system_lines};
use btor_tree::Nodes;
use moxi_terms::{Scope, Variables};
use smv_flatten::{Flat, FlatEnd, flatten};
use smv_text::Source;
use std::alloc::Global;
use std::marker::Model;
use text_core::NoMemory;

/// The flat form of a model, with the scope, the variables and the BTOR2 lines of the flat system of its script.
///
/// Contracts see it as the flat form. (NuSMV 2.6 User Manual; MoXI, SPIN 2024; BTOR2, CAV 2018.)
#[derive(Drop)]
pub struct SmvChain {
    flat: Flat,
    lines: SystemLines,
}

impl Model for SmvChain {
    ghost use Rattle.std.specs.Coded.{codes};
    ghost use Rattle.smv_flat.specs.contracts.expressions.FlatExpr as expr;
    ghost use Rattle.smv_flat.specs.contracts.expressions.FlatShape as shape;
    ghost use Rattle.smv_flatten.specs.FlatModel.{FlatModel};
    ghost use Rattle.witness_lift.specs.Lifting.{AreOfFlat};

    ghost Value = { FlatModel };

    ghost coded = { Prim.hlevel (codes, expr.the_row.coded, shape.the_row.coded) };

    ghost view = { λ c. c.flat };

    ghost invariant = { λ c. AreOfFlat c.flat c.lines.scope c.lines.own.variables c.lines.own.nodes };
}

impl SmvChain {
    /// Returns the chain of a parsed model, after all checks.
    ///
    /// `needed` is the number of the invariant that the model must have, 0 where any will do. `Err` is the refusal of
    /// the first failing check, as for the model's flat form, or out of memory.
    pub fn of(alloc: Global, source: &Source, needed: u32) -> Result<SmvChain, FlatEnd>
        // A text parses to the model, and none of its expressions is too high.
        requires read { IsRead (plain_source source.now) }
        ensures checks { Decides result (checks_of (plain_source source.now) needed) }
        ensures passes { IfOk result (λ c. IsAccepted (plain_source source.now) needed) }
        ensures form { IfOk result (λ c. flat_plain c ≡ flat_smv (plain_source source.now)) }
        ensures width { IfOk result (λ c. c.width ≡ width_of (flat_smv (plain_source source.now))) }
        ensures weight { IfOk result (λ c. c.weight ≡ weight_of (plain_source source.now)) }
        ensures invariants { IfOk result (λ c. c.invariants ≡ length (invariants_in (instances_of (plain_source source.now)))) }
    {
        let flat = flatten(alloc, source, needed)?;
        Ok(SmvChain::over(alloc, flat)?)
    }

    /// Returns the chain of a flat form.
    pub fn over(alloc: Global, flat: Flat) -> Result<SmvChain, NoMemory>
        ensures { IfOk result (λ c. c ≡ flat) }
    {
        let lines = system_lines(alloc, &flat)?;
        Ok(SmvChain { flat, lines })
    }

    /// Returns the flat form of the model.
    pub fn flat(&self) -> &Flat
        ensures { result.now ≡ self.now }
    {
        &self.flat
    }

    /// Returns the scope of the flat form's script, which is that of the script's flat system.
    pub fn scope(&self) -> &Scope
        ensures { result.now ≡ (system_in self.now).scope }
    {
        &self.lines.scope
    }

    /// Returns the variables of the flat system of the flat form's script.
    pub fn variables(&self) -> &Variables
        ensures { result.now ≡ (system_in self.now).variables }
    {
        &self.lines.own.variables
    }

    /// Returns the lines of the flat form's script.
    pub fn nodes(&self) -> &Nodes
        ensures { result.now ≡ lines_in self.now }
    {
        &self.lines.own.nodes
    }

    /// Proves that the lines lay the flat system out and are well formed.
    pub(crate) fn is_laid_out(&self)
        ensures { ∥ IsLaidOut (system_in self.now) (lines_in self.now) ∥₁ }
    {
        self.flat.is_of_model();
        model_lines_are_laid_out();
    }
}
