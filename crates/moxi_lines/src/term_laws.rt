// Laws about the words of values and about the lines of terms.
ghost use Rattle.moxi_lines.specs.TermLaws.{CodesRoundTrip, TermsHaveTheirWords};

/// Proves that decoding the word of a value of a sort returns the value.
pub fn codes_round_trip()
    ensures { CodesRoundTrip }
{}

/// Proves that a term's line has the word of the term's value, in each row of words that satisfies the lines.
pub fn terms_have_their_words()
    ensures { TermsHaveTheirWords }
{}
