// Parts of scripts that a translation builds.
ghost use Rattle.std.specs.Prelude.{◌≡◌, ◌++◌, IfOk, decimal};
ghost use Rattle.moxi_scripts.specs.Script.{query_of};

use crate::script::Query;
use itoa::Buffer;
use moxi_terms::{Variable, Variables};
use std::alloc::Global;
use text_core::{Name, NoMemory, Numbers};

/// Builds a name from a prefix and a number in decimal digits.
pub fn numbered(alloc: Global, prefix: &[u8], number: usize) -> Result<Name, NoMemory>
    ensures { IfOk result (λ n. n ≡ prefix.now ++ decimal number) }
{
    let mut buffer = Buffer::new();
    let digits = buffer.format(number);
    Name::joined(alloc, prefix, digits.as_bytes())
}

/// Builds query j of a translated script, named `q.j`, whose only formula is reachable formula j.
pub fn query_of(alloc: Global, j: usize) -> Result<Query, NoMemory>
    ensures { IfOk result (λ q. q ≡ query_of j) }
{
    let name = numbered(alloc, b"q.", j)?;
    let mut reachables = Numbers::new(alloc);
    reachables.push(j as u64)?;
    Ok(Query {
        name,
        assumptions: Numbers::new(alloc),
        currents: Numbers::new(alloc),
        reachables,
    })
}

// A copy of a variable.
fn variable_again(alloc: Global, variable: &Variable) -> Result<Variable, NoMemory>
    ensures { IfOk result (λ v. v ≡ variable.now) }
{
    let name = variable.name.duplicate(alloc)?;
    Ok(Variable {
        name,
        sort: variable.sort,
    })
}

/// Copies variables.
pub fn variables_again(alloc: Global, variables: &Variables) -> Result<Variables, NoMemory>
    ensures { IfOk result (λ vs. vs ≡ variables.now) }
{
    let mut all = Variables::with_capacity(alloc, variables.len())?;
    for variable in variables {
        all.push(variable_again(alloc, variable)?)?;
    }
    Ok(all)
}
