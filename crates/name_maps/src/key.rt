// Names as keys of a set.
ghost use Rattle.std.specs.Prelude.{[], ◌∷◌};
ghost use Rattle.std.proofs.Common.{ap};
ghost use Rattle.std.specs.Cmp.{on_equiv, on_per, partial_equiv_from_equiv};
ghost use Rattle.std.specs.Cmp.Lexicographic.{bytes_decides, nat_list_eq_equiv};
ghost use Rattle.std.specs.Str.{bytes_eq};

use indexmap::Equivalent;
use std::hash::{Hash, Hasher};
use text_core::{Name, is_same};

/// A name as a key.
///
/// A short name is stored in the set itself.
#[derive(Drop)]
pub struct Key {
    pub name: Name,
}

impl PartialEq for Key {
    ghost eq = { λ x y. bytes_eq x.name y.name };

    ghost laws = { on_per (λ x. x.name) (partial_equiv_from_equiv nat_list_eq_equiv) };

    fn eq(&self, other: &Key) -> bool {
        is_same(self.name.bytes(), other.name.bytes())
    }
}

impl Eq for Key {
    ghost laws = { on_equiv (λ x. x.name) nat_list_eq_equiv };
}

impl Hash for Key {
    ghost hash_input = { λ x. x.name ∷ [] };

    ghost respects_eq = { λ x y e. ap (λ name. name ∷ []) ((bytes_decides x.name y.name).0 e) };

    fn hash<H: Hasher>(&self, state: &mut H) {
        state.write(self.name.bytes());
    }
}

/// The bytes of a name to look up.
#[derive(Clone, Copy)]
pub struct Wanted<'a> {
    pub bytes: &'a [u8],
}

impl PartialEq for Wanted<'_> {
    ghost eq = { λ x y. bytes_eq x.bytes.now y.bytes.now };

    ghost laws = { on_per (λ x. x.bytes.now) (partial_equiv_from_equiv nat_list_eq_equiv) };

    fn eq(&self, other: &Wanted<'_>) -> bool {
        is_same(self.bytes, other.bytes)
    }
}

impl Eq for Wanted<'_> {
    ghost laws = { on_equiv (λ x. x.bytes.now) nat_list_eq_equiv };
}

impl Hash for Wanted<'_> {
    ghost hash_input = { λ x. x.bytes.now ∷ [] };

    ghost respects_eq = { λ x y e. ap (λ name. name ∷ []) ((bytes_decides x.bytes.now y.bytes.now).0 e) };

    fn hash<H: Hasher>(&self, state: &mut H) {
        state.write(self.bytes);
    }
}

impl Equivalent<Key> for Wanted<'_> {
    ghost equivalent = { λ x key. bytes_eq x.bytes.now key.name };

    ghost respects_hash = { λ x key e. ap (λ name. name ∷ []) ((bytes_decides x.bytes.now key.name).0 e) };

    ghost respects_eq = { λ x k l e. nat_list_eq_equiv.congr x.bytes.now k.name l.name e };

    fn equivalent(&self, key: &Key) -> bool {
        is_same(self.bytes, key.name.bytes())
    }
}
