// Declared types: their checks, and the types of variables.
ghost use Rattle.std.specs.Prelude.{◌≡◌, true, [], map, option_map};
ghost use Rattle.smv_text.specs.View.{plain_domain};
ghost use Rattle.smv_meaning.specs.Names.{variable_at};
ghost use Rattle.smv_meaning.specs.Types.{member_type, are_same, hull_of};
ghost use Rattle.smv_meaning.specs.Checks.{variable_type};
ghost use Rattle.smv_meaning.specs.Meaning.{is_input};
ghost use Rattle.smv_meaning.specs.Naming.{named_found, unnamed};
ghost use Rattle.smv_intervals.specs.View.{seen};
ghost use Rattle.smv_types.specs.View.{named_seen};
ghost use Rattle.smv_model_types.specs.Outcome.{IsDeclared};

use smv_intervals::{Ty, hull, type_within_limit};
use smv_text::{Domain, Member, Members, VarKind};
use smv_types::Named;
use text_core::Kind;
use text_core::kinds::smv;
use word_core::WIDEST;

fn member_type(member: &Member) -> Ty
    ensures { seen result ≡ member_type member.now }
{
    match member {
        Member::Symbol(_) => Ty::Symbol,
        Member::Integer(z) => Ty::Integer(*z, *z),
    }
}

// Whether there is at least one member and all have the same type.
#[tactic(auto, using(smv_meaning::specs::laws::Lists::front_is, smv_meaning::specs::laws::Lists::end_is))]
fn are_same(members: &Members) -> bool
    ensures { result ≡ are_same (map member_type members.now) }
{
    let Some((first, others)) = members.as_slice().split_first() else {
        return false
    };
    let first = member_type(first);
    for member in others {
        if !first.is_same(member_type(member)) {
            return false;
        }
    }
    true
}

// The smallest type that contains all members.
#[tactic(auto, using(smv_meaning::specs::laws::Lists::front_is, smv_meaning::specs::laws::Lists::end_is))]
fn hull_of(members: &Members) -> Ty
    ensures { seen result ≡ hull_of (map member_type members.now) }
{
    let Some((first, others)) = members.as_slice().split_first() else {
        return Ty::Truth
    };
    let mut whole = member_type(first);
    for member in others {
        whole = hull(whole, member_type(member));
    }
    whole
}

// The type, or the kind of the first failing check.
pub(crate) fn declared(domain: &Domain) -> Result<Option<Ty>, Kind>
    ensures { IsDeclared result (plain_domain domain.now) }
{
    match domain {
        Domain::Boolean => Ok(Some(Ty::Truth)),
        Domain::Members(members) => {
            if !are_same(members) {
                return Err(smv::TYPE_CLASH);
            }
            match type_within_limit(hull_of(members)) {
                Some(t) => Ok(Some(t)),
                None => Err(smv::INT_TOO_WIDE),
            }
        }
        Domain::Between(low, high) => match type_within_limit(Ty::Integer(*low, *high)) {
            Some(t) => if *low <= *high {
                Ok(Some(t))
            } else {
                Err(smv::EMPTY_RANGE)
            },
            None => Err(smv::INT_TOO_WIDE),
        },
        Domain::Bits(n) => if 1 <= *n && *n <= WIDEST as u64 {
            Ok(Some(Ty::Bits(*n as u32)))
        } else {
            Err(smv::BAD_SELECT)
        },
        Domain::Instance(_, _) => Ok(None),
    }
}

/// Returns the type of a variable with this declared type.
///
/// None for an instance, or where a check of the declared type fails.
#[tactic(auto, using(crate::proofs::DomainLemmas::typed, crate::proofs::DomainLemmas::untyped))]
pub(crate) fn variable_type(domain: &Domain) -> Option<Ty>
    ensures { option_map seen result ≡ variable_type (plain_domain domain.now) }
{
    match declared(domain) {
        Ok(t) => t,
        Err(_) => None,
    }
}

/// Returns whether variables of this kind are inputs.
pub(crate) fn is_input(kind: VarKind) -> bool
    ensures { result ≡ is_input kind }
{
    match kind {
        VarKind::State => false,
        VarKind::Input => true,
        VarKind::Frozen => false,
    }
}

/// Returns the properties of a variable.
#[tactic(auto, using(crate::proofs::DomainLemmas::with_label))]
pub(crate) fn variable_named(kind: VarKind, domain: &Domain) -> Named
    ensures { named_seen result ≡ named_found true (λ i path. unnamed) (variable_at [] kind (plain_domain domain.now)) }
{
    Named {
        ty: variable_type(domain),
        is_instance: false,
        reaches_input: is_input(kind),
    }
}
