// What a text is read with.
ghost use Rattle.std.specs.Prelude.{◌≡◌, ◌+◌, ◌*◌, ◌≤◌, length};
ghost use Rattle.grammar.specs.Expressions.{most_atoms};
ghost use Rattle.grammar.specs.Reading.{most_statements};
ghost use Rattle.lexis.specs.Meaning.{text_of, place_of};
ghost use Rattle.script.specs.Meaning.{exprs_of, codes_of};

use grammar::Counts;
use lexis::Reader;
use script::Script;

// Where reading goes on, what was built of the script so far, and how many statements and atoms were counted for it. That the text
// stays the same speaks of a reader before and after, so each method says it: a ghost field speaks of one value.
#[derive(Drop)]
pub(crate) struct Parser<'a> {
    pub(crate) reader: Reader<'a>,
    pub(crate) script: Script,
    pub(crate) counts: Counts,
    // So what was counted has room in a script: an atom takes two nodes at most, and a statement one block.
    ghost nodes: { length (exprs_of script) ≤ 2 * counts.atoms },
    ghost few: { counts.atoms ≤ most_atoms },
    ghost blocks: { length (codes_of script) ≤ counts.begun + 1 },
    ghost limit: { counts.begun ≤ most_statements },
}

impl<'a> Parser<'a> {
    // At the start of a text.
    pub(crate) fn new(text: &'a [u8]) -> Self
        ensures text { text_of result.reader ≡ text.now }
        ensures place { place_of result.reader ≡ 0 }
        ensures counts { result.counts ≡ record { begun = 0; atoms = 0 } }
    {
        Parser {
            reader: Reader::new(text),
            script: Script::new(),
            counts: Counts { begun: 0, atoms: 0 },
        }
    }
}
