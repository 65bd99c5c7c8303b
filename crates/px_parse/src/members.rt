//! Members of a class.
ghost use Rattle.std.specs.Prelude.{◌≡◌, ◌<◌, ◌≤◌, [], ◌∷◌, length, IfOk, OnOk};
ghost use Rattle.px_parse.specs.Reading as spec;
ghost use Rattle.px_parse.specs.Reading.{Gives};
ghost use Rattle.px_parse.specs.Trees as tree;

use crate::error::ReadError;
use crate::nodes::block_of;
use crate::parts::Braces;
use crate::source::Source;
use crate::tokens::Tokens;
use px_tree::{Access, FieldDecl, Member, Method, Param, TypeName};
use px_words::{Lexeme, Word};
use sqlite_items::Items;
use std::alloc::AllocError;

#[tactic(auto, unfolding(crate::specs::Reading::access_on))]
fn access(tokens: &mut Tokens<'_>) -> Result<Access, ReadError>
    ensures gives { Gives (spec.by_word spec.access_on tokens.old.left.now) result tokens.new.left.now }
    ensures fewer { OnOk result (length tokens.new.left.now ≤ length tokens.old.left.now) }
{
    match tokens.peek() {
        Word::Public => {
            tokens.take()?;
            Ok(Access::Public)
        }
        Word::Private => {
            tokens.take()?;
            Ok(Access::Private)
        }
        _ => Ok(Access::Plain),
    }
}

#[tactic(auto, unfolding(crate::specs::Reading::throws, crate::specs::Reading::skip_two))]
fn throws(tokens: &mut Tokens<'_>) -> Result<(), ReadError>
    ensures gives { Gives (spec.throws tokens.old.left.now) result tokens.new.left.now }
    ensures fewer { OnOk result (length tokens.new.left.now ≤ length tokens.old.left.now) }
{
    if tokens.sees(Word::Throws) {
        tokens.take()?;
        tokens.take()?;
    }
    Ok(())
}

impl Source<'_> {
    // The type of a method's result or of a field; none for `void`.
    #[tactic(auto, unfolding(crate::specs::Reading::result, crate::specs::Reading::no_result, crate::specs::Reading::some_result))]
    fn result(&self, tokens: &mut Tokens<'_>) -> Result<Option<TypeName>, ReadError>
        ensures gives { Gives (spec.result self.now.bytes.now tokens.old.left.now) result tokens.new.left.now }
        ensures fewer { OnOk result (length tokens.new.left.now < length tokens.old.left.now) }
    {
        if tokens.sees(Word::Void) {
            tokens.take()?;
            Ok(None)
        } else {
            let ty = self.type_name(tokens)?;
            Ok(Some(ty))
        }
    }

    fn param_of(&self, ty: TypeName, name: Lexeme) -> Result<Param, AllocError>
        ensures { IfOk result (λ p. p ≡ tree.param_of self.now.bytes.now ty name) }
    {
        let name = self.name(name)?;
        Ok(Param { ty, name })
    }

    #[tactic(auto, unfolding(crate::specs::Reading::param))]
    fn param(&self, tokens: &mut Tokens<'_>) -> Result<Param, ReadError>
        ensures gives { Gives (spec.param self.now.bytes.now tokens.old.left.now) result tokens.new.left.now }
        ensures fewer { OnOk result (length tokens.new.left.now < length tokens.old.left.now) }
    {
        let ty = self.type_name(tokens)?;
        let name = tokens.take()?;
        Ok(self.param_of(ty, name)?)
    }

    // A comma and a parameter.
    #[tactic(auto, unfolding(crate::specs::Reading::next_param))]
    fn next_param(&self, tokens: &mut Tokens<'_>) -> Result<Param, ReadError>
        ensures gives { Gives (spec.next_param self.now.bytes.now tokens.old.left.now) result tokens.new.left.now }
        ensures fewer { OnOk result (length tokens.new.left.now < length tokens.old.left.now) }
    {
        tokens.take()?;
        self.param(tokens)
    }

    // The parameters behind the first, with it.
    fn more_params(&self, tokens: &mut Tokens<'_>, first: Param) -> Result<Items<Param>, ReadError>
        ensures gives { Gives (spec.all_while (spec.sees Word.Comma) (spec.next_param self.now.bytes.now) (first ∷ []) tokens.old.left.now) result tokens.new.left.now }
        ensures fewer { OnOk result (length tokens.new.left.now ≤ length tokens.old.left.now) }
    {
        let mut params = Items::new(self.alloc);
        params.push(first)?;
        for _turn in 0..tokens.left.len() {
            if !tokens.sees(Word::Comma) {
                return Ok(params);
            }
            params.push(self.next_param(tokens)?)?;
        }
        Ok(params)
    }

    // One or more, with commas between.
    #[tactic(auto, unfolding(crate::specs::Reading::some_params))]
    fn some_params(&self, tokens: &mut Tokens<'_>) -> Result<Items<Param>, ReadError>
        ensures gives { Gives (spec.some_params self.now.bytes.now tokens.old.left.now) result tokens.new.left.now }
        ensures fewer { OnOk result (length tokens.new.left.now < length tokens.old.left.now) }
    {
        let first = self.param(tokens)?;
        self.more_params(tokens, first)
    }

    #[tactic(auto, unfolding(crate::specs::Reading::params))]
    fn params(&self, tokens: &mut Tokens<'_>) -> Result<Items<Param>, ReadError>
        ensures gives { Gives (spec.params self.now.bytes.now tokens.old.left.now) result tokens.new.left.now }
        ensures fewer { OnOk result (length tokens.new.left.now ≤ length tokens.old.left.now) }
    {
        if tokens.sees(Word::Close) {
            Ok(Items::new(self.alloc))
        } else {
            self.some_params(tokens)
        }
    }

    fn method_of(
        &self,
        from: u32,
        access: Access,
        gives: Option<TypeName>,
        name: Lexeme,
        params: Items<Param>,
        body: Braces,
    ) -> Result<Member, AllocError>
        ensures { IfOk result (λ m. m ≡ tree.method_with self.now.bytes.now from access gives name params (tree.block_of body.opening body.items) body.to) }
    {
        let name = self.name(name)?;
        let to = body.to;
        Ok(Member::Method(Method {
            access,
            gives,
            name,
            params,
            body: block_of(body),
            from,
            to,
        }))
    }

    // The parameters, with what stands round them.
    #[tactic(auto, unfolding(crate::specs::Reading::signature))]
    fn signature(&self, tokens: &mut Tokens<'_>) -> Result<Items<Param>, ReadError>
        ensures gives { Gives (spec.signature self.now.bytes.now tokens.old.left.now) result tokens.new.left.now }
        ensures fewer { OnOk result (length tokens.new.left.now < length tokens.old.left.now) }
    {
        tokens.expect(Word::Open)?;
        let params = self.params(tokens)?;
        tokens.expect(Word::Close)?;
        throws(tokens)?;
        Ok(params)
    }

    // Behind the name of a method.
    #[tactic(auto, unfolding(crate::specs::Reading::method))]
    fn method(
        &self,
        tokens: &mut Tokens<'_>,
        from: u32,
        access: Access,
        gives: Option<TypeName>,
        name: Lexeme,
    ) -> Result<Member, ReadError>
        ensures gives { Gives (spec.method self.now.bytes.now from access gives name tokens.old.left.now) result tokens.new.left.now }
        ensures fewer { OnOk result (length tokens.new.left.now < length tokens.old.left.now) }
    {
        let params = self.signature(tokens)?;
        let body = self.body(tokens)?;
        Ok(self.method_of(from, access, gives, name, params, body)?)
    }

    fn field_of(&self, access: Access, ty: TypeName, name: Lexeme) -> Result<Member, AllocError>
        ensures { IfOk result (λ m. m ≡ tree.field_declaration_of self.now.bytes.now access ty name) }
    {
        let name = self.name(name)?;
        Ok(Member::Field(FieldDecl { access, ty, name }))
    }

    #[tactic(auto, unfolding(crate::specs::Reading::field))]
    fn field_declaration(
        &self,
        tokens: &mut Tokens<'_>,
        access: Access,
        ty: TypeName,
        name: Lexeme,
    ) -> Result<Member, ReadError>
        ensures gives { Gives (spec.field self.now.bytes.now access ty name tokens.old.left.now) result tokens.new.left.now }
        ensures fewer { OnOk result (length tokens.new.left.now < length tokens.old.left.now) }
    {
        tokens.take()?;
        Ok(self.field_of(access, ty, name)?)
    }

    // Behind the name of a member.
    fn named_member(
        &self,
        tokens: &mut Tokens<'_>,
        from: u32,
        access: Access,
        gives: Option<TypeName>,
        name: Lexeme,
    ) -> Result<Member, ReadError>
        ensures gives { Gives (spec.member_on self.now.bytes.now from access gives name tokens.old.left.now) result tokens.new.left.now }
        ensures fewer { OnOk result (length tokens.new.left.now < length tokens.old.left.now) }
    {
        match gives {
            Some(ty) => {
                if tokens.sees(Word::Semicolon) {
                    self.field_declaration(tokens, access, ty, name)
                } else {
                    self.method(tokens, from, access, Some(ty), name)
                }
            }
            None => self.method(tokens, from, access, None, name),
        }
    }

    #[tactic(auto, unfolding(crate::specs::Reading::member_from))]
    fn one_member(&self, tokens: &mut Tokens<'_>) -> Result<Member, ReadError>
        ensures gives { Gives (spec.a_member self.now.bytes.now tokens.old.left.now) result tokens.new.left.now }
        ensures fewer { OnOk result (length tokens.new.left.now < length tokens.old.left.now) }
    {
        let from = tokens.next_token();
        let access = access(tokens)?;
        let gives = self.result(tokens)?;
        let name = tokens.take()?;
        self.named_member(tokens, from, access, gives, name)
    }

    /// What stands before a `}`.
    pub fn members(&self, tokens: &mut Tokens<'_>) -> Result<Items<Member>, ReadError>
        ensures gives { Gives (spec.all_while (spec.sees_no Word.CloseBrace) (spec.a_member self.now.bytes.now) [] tokens.old.left.now) result tokens.new.left.now }
        ensures fewer { OnOk result (length tokens.new.left.now ≤ length tokens.old.left.now) }
    {
        let mut members = Items::new(self.alloc);
        for _turn in 0..tokens.left.len() {
            if tokens.sees(Word::CloseBrace) {
                return Ok(members);
            }
            members.push(self.one_member(tokens)?)?;
        }
        Ok(members)
    }
}
