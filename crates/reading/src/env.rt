// What a statement is read in.
ghost use Rattle.std.specs.Prelude.{◌≡◌, ◌<◌, length};
ghost use Rattle.grammar.specs.Scopes.{make, most_names};
ghost use Rattle.grammar.specs.Statements.{naming, visited};
ghost use Rattle.clauses.specs.Names.{scope_of};
ghost use Rattle.reading.specs.Stated.{env_of};

use clauses::Scope;
use grammar::NameKind;

// The plan and the names in scope, and how many blocks and how many `vendors` may still nest.
#[derive(Clone, Copy)]
pub(crate) struct Env<'a> {
    pub(crate) scope: Scope<'a>,
    pub(crate) blocks: usize,
    pub(crate) turns: usize,
}

impl<'a> Env<'a> {
    // With one name more, for which there is room.
    pub(crate) fn with(&self, letters: &'a [u8], kind: NameKind) -> Env<'a>
        requires { length (scope_of self.now.scope.names) < most_names }
        ensures { env_of result ≡ naming (env_of self.now) (make letters.now kind (scope_of self.now.scope.names)) }
    {
        let scope = Scope {
            names: self.scope.names.with(letters, kind),
            ..self.scope
        };
        Env { scope, ..*self }
    }

    // With the cursor of an `each`, a `drop` or an `alter` in scope.
    pub(crate) fn visit(&self, word: &'a [u8], table: u32) -> Env<'a>
        requires { length (scope_of self.now.scope.names) < most_names }
        ensures { env_of result ≡ visited (env_of self.now) word.now table }
    {
        self.with(word, NameKind::Cursor(table as usize))
    }
}
