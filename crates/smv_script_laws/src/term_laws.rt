// Laws of the values of terms. These functions do nothing.
ghost use Rattle.smv_script_laws.specs.TermLaws.{TermsHaveValues, ValuesRoundTrip, DataRoundTrip};

/// Proves that the term of each typed expression has the datum of the expression's value in the environments of the
/// rows of two states.
///
/// The term of membership says of a value whether the expression permits it. Both hold also in branches that are not
/// taken.
pub fn terms_have_values()
    ensures { TermsHaveValues }
{}

/// Proves that decoding the datum of a value returns the value.
///
/// The width represents the integers of the value's type, and its symbols are the model's.
pub fn values_round_trip()
    ensures { ValuesRoundTrip }
{}

/// Proves that encoding the decoded value of a datum of a type's sort returns the datum.
pub fn data_round_trip()
    ensures { DataRoundTrip }
{}
