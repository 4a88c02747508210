// Copies of the members of enumerations.
ghost use Rattle.std.specs.Prelude.{◌≡◌, IfOk};
ghost use Rattle.smv_items.specs.FlatItems.{content_members};
ghost use Rattle.smv_items.specs.FlatOrigins.{content_plain};

use smv_items::Content;
use smv_text::{Domain, Member, Members};
use std::alloc::Global;
use text_core::NoMemory;

fn member(alloc: Global, at: &Member) -> Result<Member, NoMemory>
    ensures { IfOk result (λ m. m ≡ at.now) }
{
    match at {
        Member::Symbol(name) => {
            let symbol = name.duplicate(alloc)?;
            Ok(Member::Symbol(symbol))
        }
        Member::Integer(z) => Ok(Member::Integer(*z)),
    }
}

fn copied(alloc: Global, members: &Members) -> Result<Members, NoMemory>
    ensures { IfOk result (λ ms. ms ≡ members.now) }
{
    let mut copy = Members::new(alloc);
    for original in members {
        let m = member(alloc, original)?;
        copy.push(m)?;
    }
    Ok(copy)
}

/// Returns the members of an enumeration in the order of the text.
///
/// The list is empty for any other variable and for a body.
pub(crate) fn members_of(alloc: Global, content: &Content) -> Result<Members, NoMemory>
    ensures { IfOk result (λ ms. ms ≡ content_members (content_plain content.now)) }
{
    match content {
        Content::Variable(_, Domain::Members(members)) => copied(alloc, members),
        _ => Ok(Members::new(alloc)),
    }
}
