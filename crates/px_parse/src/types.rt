//! Types.
ghost use Rattle.std.specs.Prelude.{◌≡◌, ◌<◌, ◌+◌, length, OnOk};
ghost use Rattle.px_parse.specs.Reading as spec;
ghost use Rattle.px_parse.specs.Reading.{Gives};

use crate::error::ReadError;
use crate::source::Source;
use crate::tokens::Tokens;
use px_tree::TypeName;
use px_words::{Lexeme, Word};

impl Source<'_> {
    // Behind the type of an array's elements.
    #[tactic(auto, unfolding(crate::specs::Reading::array_type))]
    fn array_behind(&self, tokens: &mut Tokens<'_>, x: Lexeme) -> Result<TypeName, ReadError>
        ensures gives { Gives (spec.array_type self.now.bytes.now x tokens.old.left.now) result tokens.new.left.now }
        ensures fewer { OnOk result (length tokens.new.left.now < length tokens.old.left.now) }
    {
        tokens.take()?;
        tokens.expect(Word::CloseBracket)?;
        Ok(self.array_type(x)?)
    }

    #[tactic(auto, unfolding(crate::specs::Reading::type_name))]
    pub fn type_name(&self, tokens: &mut Tokens<'_>) -> Result<TypeName, ReadError>
        ensures gives { Gives (spec.type_name self.now.bytes.now tokens.old.left.now) result tokens.new.left.now }
        ensures fewer { OnOk result (length tokens.new.left.now < length tokens.old.left.now) }
    {
        let x = tokens.take()?;
        if tokens.sees(Word::OpenBracket) {
            self.array_behind(tokens, x)
        } else {
            Ok(self.single_type(x)?)
        }
    }
}
