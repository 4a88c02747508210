// The kinds of refusal, with their names.
ghost use Rattle.std.specs.Prelude.{◌≡◌, map};
ghost use Rattle.text_core.specs.Kinds.{kind_name, name_at, smv_names, moxi_names, btor_names, witness_names, trace_names};

pub mod btor;
pub mod moxi;
pub mod smv;
pub mod trace;
pub mod witness;

use crate::place::Kind;

impl Kind {
    /// Returns the name that follows the kind in a note, as `NoInvarspec` after `S27`.
    ///
    /// The name is empty where there is no such kind.
    pub fn name(self) -> &'static [u8]
        ensures { result.now ≡ kind_name self }
    {
        match self {
            Kind::S(n) => smv_name(n),
            Kind::M(n) => moxi_name(n),
            Kind::B(n) => btor_name(n),
            Kind::X(n) => witness_name(n),
            Kind::Y(n) => trace_name(n),
        }
    }
}

fn smv_name(n: u8) -> &'static [u8]
    ensures { result.now ≡ name_at n smv_names }
{
    name_at(n, &smv::NAMES)
}

fn moxi_name(n: u8) -> &'static [u8]
    ensures { result.now ≡ name_at n moxi_names }
{
    name_at(n, &moxi::NAMES)
}

fn btor_name(n: u8) -> &'static [u8]
    ensures { result.now ≡ name_at n btor_names }
{
    name_at(n, &btor::NAMES)
}

fn witness_name(n: u8) -> &'static [u8]
    ensures { result.now ≡ name_at n witness_names }
{
    name_at(n, &witness::NAMES)
}

fn trace_name(n: u8) -> &'static [u8]
    ensures { result.now ≡ name_at n trace_names }
{
    name_at(n, &trace::NAMES)
}

// The name of a number, counted from 1.
fn name_at(n: u8, names: &[&'static [u8]]) -> &'static [u8]
    ensures { result.now ≡ name_at n (map (λ x. x.now) names.now) }
{
    if n == 0 {
        return b"";
    }
    match names.get(n as usize - 1) {
        Some(name) => name,
        None => b"",
    }
}
