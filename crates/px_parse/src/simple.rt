//! Statements that may stand in a `for`.
ghost use Rattle.std.specs.Prelude.{◌≡◌, ◌<◌, ◌≤◌, length, Some, OnOk};
ghost use Rattle.px_parse.specs.Reading as spec;
ghost use Rattle.px_parse.specs.Reading.{Gives};
ghost use Rattle.px_parse.specs.Trees as tree;
ghost use Rattle.px_words.specs.Words as words;
ghost use Rattle.px_tree.specs.declared.ExprForm.{out-ExprForm};
ghost use Rattle.px_tree.specs.declared.StmtForm.TheVariants as s;

use crate::error::ReadError;
use crate::source::Source;
use crate::tokens::Tokens;
use px_tree::{Expr, ExprForm, Name, Sign, Stmt, StmtForm};
use px_words::{Word, compound_sign};

// The name that a name alone is.
fn bare_name(form: ExprForm) -> Option<Name>
    ensures { result ≡ spec.bare_name (out-ExprForm form) }
{
    match form {
        ExprForm::Name(name) => Some(name),
        _ => None,
    }
}

// Behind a variable, before `++` or `--`.
#[tactic(auto, unfolding(crate::specs::Reading::stepped))]
fn up(tokens: &mut Tokens<'_>, place: Expr) -> Result<Stmt, ReadError>
    ensures gives { Gives (spec.stepped place (λ name. tree.statement_of place.token (s.Up name)) (spec.bare_name (out-ExprForm place.form)) tokens.old.left.now) result tokens.new.left.now }
    ensures fewer { OnOk result (length tokens.new.left.now < length tokens.old.left.now) }
{
    let Expr { token, form, .. } = place;
    match bare_name(form) {
        Some(name) => {
            tokens.take()?;
            Ok(Stmt {
                id: 0,
                token,
                form: StmtForm::Up(name),
            })
        }
        None => Err(ReadError::Unreadable),
    }
}

#[tactic(auto, unfolding(crate::specs::Reading::stepped))]
fn down(tokens: &mut Tokens<'_>, place: Expr) -> Result<Stmt, ReadError>
    ensures gives { Gives (spec.stepped place (λ name. tree.statement_of place.token (s.Down name)) (spec.bare_name (out-ExprForm place.form)) tokens.old.left.now) result tokens.new.left.now }
    ensures fewer { OnOk result (length tokens.new.left.now < length tokens.old.left.now) }
{
    let Expr { token, form, .. } = place;
    match bare_name(form) {
        Some(name) => {
            tokens.take()?;
            Ok(Stmt {
                id: 0,
                token,
                form: StmtForm::Down(name),
            })
        }
        None => Err(ReadError::Unreadable),
    }
}

impl Source<'_> {
    #[tactic(auto, unfolding(crate::specs::Reading::assigned))]
    fn assigned(&self, tokens: &mut Tokens<'_>, place: Expr) -> Result<Stmt, ReadError>
        ensures gives { Gives (spec.assigned self.now.bytes.now place tokens.old.left.now) result tokens.new.left.now }
        ensures fewer { OnOk result (length tokens.new.left.now < length tokens.old.left.now) }
    {
        tokens.take()?;
        let value = self.expression(tokens)?;
        Ok(Stmt {
            id: 0,
            token: place.token,
            form: StmtForm::Assign { place, value },
        })
    }

    #[tactic(auto, unfolding(crate::specs::Reading::compounded))]
    fn compounded(
        &self,
        tokens: &mut Tokens<'_>,
        place: Expr,
        sign: Sign,
    ) -> Result<Stmt, ReadError>
        ensures gives { Gives (spec.compound_on self.now.bytes.now place (spec.bare_name (out-ExprForm place.form)) (Some sign) tokens.old.left.now) result tokens.new.left.now }
        ensures fewer { OnOk result (length tokens.new.left.now < length tokens.old.left.now) }
    {
        let Expr { token, form, .. } = place;
        match bare_name(form) {
            Some(name) => {
                tokens.take()?;
                let value = self.expression(tokens)?;
                Ok(Stmt {
                    id: 0,
                    token,
                    form: StmtForm::Compound { name, sign, value },
                })
            }
            None => Err(ReadError::Unreadable),
        }
    }

    fn compounded_or_called(&self, tokens: &mut Tokens<'_>, place: Expr) -> Result<Stmt, ReadError>
        ensures gives { Gives (spec.compound_on self.now.bytes.now place (spec.bare_name (out-ExprForm place.form)) (words.compound_sign (spec.next_word tokens.old.left.now)) tokens.old.left.now) result tokens.new.left.now }
        ensures left { OnOk result (length tokens.new.left.now ≤ length tokens.old.left.now) }
    {
        match compound_sign(tokens.peek()) {
            Some(sign) => self.compounded(tokens, place, sign),
            None => Ok(Stmt {
                id: 0,
                token: place.token,
                form: StmtForm::Call(place),
            }),
        }
    }

    #[tactic(auto, unfolding(crate::specs::Reading::simple, crate::specs::Reading::simple_on))]
    pub fn simple(&self, tokens: &mut Tokens<'_>) -> Result<Stmt, ReadError>
        ensures gives { Gives (spec.simple self.now.bytes.now tokens.old.left.now) result tokens.new.left.now }
        ensures fewer { OnOk result (length tokens.new.left.now < length tokens.old.left.now) }
    {
        let place = self.postfix(tokens)?;
        match tokens.peek() {
            Word::Assign => self.assigned(tokens, place),
            Word::Increment => up(tokens, place),
            Word::Decrement => down(tokens, place),
            _ => self.compounded_or_called(tokens, place),
        }
    }
}
