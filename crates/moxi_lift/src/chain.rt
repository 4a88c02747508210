// A script's flat system with its lines.
ghost use Rattle.std.specs.Prelude.{◌≡◌, None, IfOk, IfErr};
ghost use Rattle.moxi_scripts.specs.ScriptView.{plain_script};
ghost use Rattle.moxi_flat.specs.FlatSystem.{flat_of};
ghost use Rattle.moxi_flat.specs.Limits.{flat_refusal};
ghost use Rattle.moxi_instantiate.specs.Instances.{IsInstEnd};
ghost use Rattle.moxi_lines.specs.Lines.{lines_of};

use btor_tree::Nodes;
use moxi_instantiate::{FlatSystem, InstEnd, instantiate};
use moxi_scripts::Script;
use moxi_to_btor::to_btor;
use std::alloc::Global;
use std::marker::Model;

/// The reason why a script has no chain, which is why it has no flat system.
pub type MoxiEnd = InstEnd;

/// A script with its flat system and the BTOR2 lines of that system (MoXI, SPIN 2024; BTOR2, CAV 2018).
///
/// Contracts see it as the flat system, which determines the lines.
#[derive(Drop)]
pub struct MoxiChain<'a> {
    system: FlatSystem<'a>,
    nodes: Nodes,
}

impl<'a> Model for MoxiChain<'a> {
    ghost use Rattle.std.specs.Prelude.{◌≡◌};
    ghost use Rattle.std.specs.Coded.{Coded, codes};
    ghost use Rattle.moxi_terms.specs.Code.{Node, tree_code};
    ghost use Rattle.moxi_flat.specs.FlatSystem.{PlainFlatSystem};
    ghost use Rattle.moxi_lines.specs.Lines.{lines_of};

    ghost Value = { PlainFlatSystem };

    ghost coded = { let node : Coded Node = Prim.hlevel codes in Prim.hlevel (codes, tree_code node) };

    ghost view = { λ c. c.system };

    ghost invariant = { λ c. c.nodes ≡ lines_of c.system };
}

impl<'a> MoxiChain<'a> {
    /// Builds the chain of a script.
    ///
    /// It has the same refusals as the script's flat system: `M15` or `M9` at the check.
    pub fn of(alloc: Global, script: &'a Script) -> Result<MoxiChain<'a>, MoxiEnd>
        ensures flat { IfOk result (λ c. c ≡ flat_of (plain_script script.now)) }
        ensures accepted { IfOk result (λ _. flat_refusal (plain_script script.now) ≡ None) }
        ensures refused { IfErr result (IsInstEnd (plain_script script.now)) }
    {
        let system = instantiate(alloc, script)?;
        let nodes = to_btor(alloc, &system)?;
        Ok(MoxiChain { system, nodes })
    }

    /// Returns the flat system of the script.
    pub fn system(&self) -> &FlatSystem<'a>
        ensures { result.now ≡ self.now }
    {
        &self.system
    }

    /// Returns the lines of the flat system.
    pub fn nodes(&self) -> &Nodes
        ensures { result.now ≡ lines_of self.now }
    {
        &self.nodes
    }
}
