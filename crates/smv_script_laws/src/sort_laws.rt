// A law of the sorts of terms. This function does nothing.
ghost use Rattle.smv_script_laws.specs.WellScopedLaws.{TermsAreWellScoped};

/// Proves that the translation of a typed expression is well formed over the system's variables.
///
/// The model is parsed and accepted. The expression's term has the sort of its type. The term of membership of a term
/// of this sort has the sort of truth values. This holds whatever variables an enclosing translation binds.
pub fn terms_are_well_scoped()
    ensures { TermsAreWellScoped }
{}
