// Theorems about the tokens of a text.
ghost use Rattle.grammar.specs.Spelling.{ToldApart};
ghost use Rattle.grammar.specs.TokenCases.{SmallTexts};
ghost use Rattle.grammar.specs.TokenList.{TokensAreInOrder};
ghost use Rattle.grammar.specs.TokenRule.{ReadingIsTheRule, OneNextToken, TokensLieWithin, BlanksDoNotMatter, ReadingLooksNoFurther};

// Keywords and marks are told apart by how they are written.
pub fn told_apart()
    ensures { ToldApart }
{}

// Reading answers the next token in the grammar's own words, and is refused exactly where there is none.
pub fn reading_is_the_rule()
    ensures { ReadingIsTheRule }
{}

// At most one token stands next.
pub fn one_next_token()
    ensures { OneNextToken }
{}

// A token lies behind the place asked and within the text.
pub fn tokens_lie_within()
    ensures { TokensLieWithin }
{}

// Blanks before a token do not matter.
pub fn blanks_do_not_matter()
    ensures { BlanksDoNotMatter }
{}

// Reading a token looks at no byte behind the one that ends it.
pub fn reading_looks_no_further()
    ensures { ReadingLooksNoFurther }
{}

// The tokens of a text lie one behind the other, and none is left out before the end or a place where none can be read.
pub fn tokens_are_in_order()
    ensures { TokensAreInOrder }
{}

// Small texts read as they should.
pub fn small_texts()
    ensures { SmallTexts }
{}
