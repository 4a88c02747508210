// Types of expressions that use no names.
use crate::models::{expression_of, expression_source};
use case_text::{Answer, Fault, Piece, piece_bytes};
use smv_flat::type_of;
use smv_intervals::Ty;
use smv_text::{Expr, Path};
use smv_types::{Named, Position, Scope};
use std::alloc::Global;

/// A scope in which no path has a meaning.
struct NoNames;

impl Scope for NoNames {
    ghost use Rattle.std.specs.Prelude.{true};
    ghost use Rattle.smv_meaning.specs.Naming.{unnamed};

    ghost names = { λ s p. unnamed };

    ghost knows = { λ s p. true };

    fn named(&self, _path: &Path) -> Named {
        Named {
            ty: None,
            is_instance: false,
            reaches_input: false,
        }
    }
}

/// Appends the type of the expression where it is after `next(x) :=`, as a declaration writes it.
pub fn put_type_of(alloc: Global, out: &mut Answer, pieces: &[Piece]) -> Result<(), Fault> {
    let source = expression_source(alloc, piece_bytes(pieces, "text")?)?;
    match type_in(alloc, expression_of(&source)?)? {
        Some(t) => put_type(out, t),
        None => out.put(b"none"),
    }
    Ok(())
}

fn type_in(alloc: Global, e: &Expr) -> Result<Option<Ty>, Fault> {
    Ok(type_of(alloc, &NoNames, e, Position::AssignFollowing)?)
}

fn put_type(out: &mut Answer, ty: Ty) {
    match ty {
        Ty::Truth => out.put(b"boolean"),
        Ty::Symbol => out.put(b"symbol"),
        Ty::Integer(low, high) => {
            out.put_decimal(i128::from(low));
            out.put(b"..");
            out.put_decimal(i128::from(high));
        }
        Ty::Bits(width) => {
            out.put(b"word[");
            out.put_unsigned(u128::from(width));
            out.put(b"]");
        }
    }
}
