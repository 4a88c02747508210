// Dotted names, compared and hashed without a copy of their bytes, wherever they are divided.
ghost use Rattle.std.specs.Prelude.{◌≡◌, ◌++◌, ◌∷◌, bytes_eq, flat_map, nat_eq};
ghost use Rattle.std.specs.Hash as fed;
ghost use Rattle.std.specs.Cmp.Lexicographic.{pointwise, nat_list_eq_equiv};
ghost use Rattle.std.specs.Cmp.{partial_equiv_from_equiv, on_per, on_equiv};
ghost use Rattle.std.specs.Ordering.{on};
ghost use Rattle.std.proofs.Common.{ap};
ghost use Rattle.std.proofs.lemmas.Slice.Eq.{bytes_eq-Decides};
ghost use Rattle.smv_meaning.specs.Instances.{dotted};

use std::hash::{Hash, Hasher};

/// A name in the instance with this path.
///
/// Two are equal where their dotted names are.
#[derive(Clone, Copy)]
pub struct Dotted<'a> {
    pub path: &'a [u8],
    pub name: &'a [u8],
}

// Whether the text is the path, a dot and the name.
fn follows(text: &[u8], path: &[u8], name: &[u8]) -> bool
    ensures { result ≡ bytes_eq text.now (path.now ++ 46 ∷ name.now) }
{
    match path.split_first() {
        None => match text.split_first() {
            None => false,
            Some((first, rest)) => *first == 46 && rest == name,
        },
        Some((step, more)) => match text.split_first() {
            None => false,
            Some((first, rest)) => *first == *step && follows(rest, more, name),
        },
    }
}

// Whether the text is the dotted name of this name in the instance with this path.
fn is_dotted(text: &[u8], path: &[u8], name: &[u8]) -> bool
    ensures { result ≡ bytes_eq text.now (dotted path.now name.now) }
{
    if path.is_empty() {
        text == name
    } else {
        follows(text, path, name)
    }
}

// Whether two names are equal, neither of them in main.
#[tactic(auto, using(crate::proofs::DottedLemmas::dot_first, crate::proofs::DottedLemmas::dot_second))]
fn same_split(p: &[u8], x: &[u8], q: &[u8], y: &[u8]) -> bool
    ensures { result ≡ bytes_eq (p.now ++ 46 ∷ x.now) (q.now ++ 46 ∷ y.now) }
{
    match p.split_first() {
        None => match q.split_first() {
            None => x == y,
            Some((b, rest)) => *b == 46 && follows(x, rest, y),
        },
        Some((a, more)) => match q.split_first() {
            None => *a == 46 && follows(y, more, x),
            Some((b, rest)) => *a == *b && same_split(more, x, rest, y),
        },
    }
}

fn same_dotted(p: &[u8], x: &[u8], q: &[u8], y: &[u8]) -> bool
    ensures { result ≡ bytes_eq (dotted p.now x.now) (dotted q.now y.now) }
{
    if p.is_empty() {
        return is_dotted(x, q, y);
    }
    if q.is_empty() {
        return is_dotted(y, p, x);
    }
    same_split(p, x, q, y)
}

impl<'a> PartialEq for Dotted<'a> {
    ghost use Rattle.smv_evaluation.specs.Dotting.{dotted_name};

    ghost eq = { on dotted_name (pointwise nat_eq) };

    ghost laws = { on_per dotted_name (partial_equiv_from_equiv nat_list_eq_equiv) };

    fn eq(&self, other: &Dotted<'a>) -> bool {
        same_dotted(self.path, self.name, other.path, other.name)
    }
}

impl<'a> Eq for Dotted<'a> {
    ghost use Rattle.smv_evaluation.specs.Dotting.{dotted_name};

    ghost laws = { on_equiv dotted_name nat_list_eq_equiv };
}

impl<'a> Hash for Dotted<'a> {
    ghost use Rattle.smv_evaluation.specs.Dotting.{dotted_name};

    ghost hash_input = { λ d. flat_map fed.u8 (dotted_name d) };

    ghost respects_eq = { λ d e h. ap (flat_map fed.u8) ((bytes_eq-Decides (dotted_name d) (dotted_name e)).0 h) };

    // Byte by byte, since another spelling of the name may be divided elsewhere.
    fn hash<H: Hasher>(&self, state: &mut H) {
        if self.path.is_empty() {
            Hash::hash_slice(self.name, state);
        } else {
            Hash::hash_slice(self.path, state);
            state.write_u8(46);
            Hash::hash_slice(self.name, state);
        }
    }
}
