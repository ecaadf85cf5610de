ghost use Rattle.std.specs.Prelude.{◌≡◌, ◌≤◌, length};
ghost use Rattle.std.specs.List.{AllByRecursion};
ghost use Rattle.grammar.specs.Spelling.{keyword_of};
ghost use Rattle.grammar.specs.Tokens.{Letter};
ghost use Rattle.lexis.specs.Codes.{packed, keyword_with};
ghost use Rattle.lexis.specs.Table.{entry_with};

use grammar::Keyword;

// A keyword behind its code: its letters packed, a byte each, the first the highest.
// A constant table of packed codes is a form of the project, so the words are not matched as text.
#[derive(Clone, Copy)]
struct Entry(u64, Keyword);

const TABLE: [Entry; 17] = [
    Entry(0x76_61_72, Keyword::Var),
    Entry(0x61_74, Keyword::At),
    Entry(0x73_65_74, Keyword::Set),
    Entry(0x69_66, Keyword::If),
    Entry(0x65_6c_73_65, Keyword::Else),
    Entry(0x77_68_65_6e, Keyword::When),
    Entry(0x76_65_6e_64_6f_72_73, Keyword::Vendors),
    Entry(0x65_61_63_68, Keyword::Each),
    Entry(0x69_6e, Keyword::In),
    Entry(0x61_64_64, Keyword::Add),
    Entry(0x64_72_6f_70, Keyword::Drop),
    Entry(0x77_68_65_72_65, Keyword::Where),
    Entry(0x61_6c_74_65_72, Keyword::Alter),
    Entry(0x6f_70_65_6e, Keyword::Open),
    Entry(0x6d_65, Keyword::Me),
    Entry(0x6d_69_6e, Keyword::Min),
    Entry(0x6d_61_78, Keyword::Max),
];

// The keyword beside this code, if the table has the code.
fn look_up(table: &[Entry], code: u64) -> Option<Keyword>
    ensures { result ≡ entry_with code table.now }
{
    table
        .iter()
        .find(|entry| entry.0 == code)
        .map(|entry| entry.1)
}

// The keyword of this code, if there is one.
fn with_code(code: u64) -> Option<Keyword>
    ensures { result ≡ keyword_with code }
{
    look_up(&TABLE, code)
}

// A word's letters packed into one number.
fn pack(word: &[u8]) -> u64
    requires { length word.now ≤ 8 }
    ensures { result ≡ packed word.now }
{
    let mut code: u64 = 0;
    for letter in word {
        code = code * 256 + u64::from(*letter);
    }
    code
}

// The keyword that is written so, if there is one.
#[tactic(auto, using(crate::proofs::Packing::with_code_is_keyword))]
pub(crate) fn keyword_of(word: &[u8]) -> Option<Keyword>
    requires short { length word.now ≤ 8 }
    requires letters { AllByRecursion Letter word.now }
    ensures { result ≡ keyword_of word.now }
{
    with_code(pack(word))
}
