ghost use Rattle.ppd_parse.specs.LexLaws.{AreApartByGaps, AreLongest, AreReadOrFaulty, AreReadOrRefused, HaveOneFault, HaveOneReading};

/// Law: all bytes are one list of tokens or have one fault, and no bytes both.
pub fn one_list_of_tokens()
    ensures reading { HaveOneReading }
    ensures fault { HaveOneFault }
    ensures refused { AreReadOrRefused }
    ensures some { AreReadOrFaulty }
{}

/// Law: each token is the longest text from its first byte on that is a token.
pub fn longest_is_taken()
    ensures { AreLongest }
{}

/// Law: only white space and comments stand before the first token and between tokens.
pub fn gaps_are_blank()
    ensures { AreApartByGaps }
{}
