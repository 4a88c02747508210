// Laws: the model parser agrees with the grammar. These functions do nothing.
ghost use Rattle.std.specs.Prelude.{◌≡◌, ◌+◌, [], ℕ, List, Some, None, length};
ghost use Rattle.text_core.specs.declared.place.Place.{Place};
ghost use Rattle.smv_text.specs.declared.token.Token.{Token};
ghost use Rattle.smv_text.specs.Heights.{first_high, of_modules};
ghost use Rattle.smv_text.specs.Sources.{SpellsModules, SpellsSource, IsDeadAt};
ghost use Rattle.smv_text.specs.Tree.{PlainModule, PlainSource};
ghost use Rattle.smv_grammar.specs.Readers.{found, died, many};
ghost use Rattle.smv_grammar.specs.Rules.{module_pick, model};

/// Proves that the grammar of models is unambiguous: no token list spells two different models.
pub fn one_source()
    ensures { (end : Place) (xs : List Token) (s t : PlainSource) → SpellsSource s end xs → SpellsSource t end xs → s ≡ t }
{}

/// Proves that the module parser finds exactly the modules that the tokens spell.
///
/// Otherwise it finds the first expression that is too high, or the token at which no model can continue.
pub fn readers_are_exact()
    // What the parser finds is spelled, and no expression in it is too high.
    ensures found { (xs : List Token) (ms : List PlainModule) → many module_pick None xs ≡ found ms None [] → SpellsModules ms xs × (first_high (of_modules ms) ≡ None) }
    // The parser finds what is spelled, with the place of the first expression that is too high. Where there is none,
    // it finds the modules unchanged.
    ensures spelled { (ms : List PlainModule) (xs : List Token) → SpellsModules ms xs → (ns : List PlainModule) × (many module_pick None xs ≡ found ns (first_high (of_modules ms)) []) × (first_high (of_modules ms) ≡ None → ns ≡ ms) }
    // A place of an expression that is too high is that of the first such expression of a model that the tokens spell.
    ensures high { (xs : List Token) (ms : List PlainModule) (p : Place) → many module_pick None xs ≡ found ms (Some p) [] → (ns : List PlainModule) × SpellsModules ns xs × (first_high (of_modules ns) ≡ Some p) }
    // Where the parser fails with n tokens left, the first of these is the failing token.
    ensures dead { (xs : List Token) (n i : ℕ) → model xs ≡ died n → i + n ≡ length xs → IsDeadAt xs i }
{}
