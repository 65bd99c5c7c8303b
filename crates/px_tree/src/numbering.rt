//! Numbers of statements and expressions, once the tree stands.
ghost use Rattle.std.specs.Prelude.{◌≡◌, ◌+◌, IfOk, OnOk, map, reverse, option_map};
ghost use Rattle.px_tree.specs.Numbering.{numbered_expression, numbered_expression_form, numbered_statement, numbered_statement_form, number_if, number_returned, in_order, numbered_member, numbered_class, numbered_classes};

use crate::parts::{for_of, if_of, statement_of, while_of};
use crate::{Class, Expr, ExprForm, Member, Method, Name, Sign, Stmt, StmtForm, TypeName};
use sqlite_items::{Boxed, Items};
use std::alloc::{AllocError, Global};

/// Gives out numbers, from 0 on.
#[derive(Drop)]
struct Numbers {
    alloc: Global,
    next: u32,
}

fn reversed<T: Drop>(alloc: Global, mut items: Items<T>) -> Result<Items<T>, AllocError>
    ensures { IfOk result (λ reversed. reversed ≡ reverse items) }
{
    let mut reversed = Items::new(alloc);
    while let Some(item) = items.pop() {
        reversed.push(item)?;
    }
    Ok(reversed)
}

impl Numbers {
    // A tree may have more nodes than there are numbers, though only where memory has room for so many.
    fn fresh(&mut self) -> Result<u32, AllocError>
        ensures number { IfOk result (λ n. n ≡ self.old.next) }
        ensures next { OnOk result (self.new.next ≡ self.old.next + 1) }
    {
        if self.next == u32::MAX {
            return Err(AllocError);
        }
        let number = self.next;
        self.next += 1;
        Ok(number)
    }

    #[cycle(expression)]
    fn boxed(&mut self, e: Boxed<Expr>) -> Result<Boxed<Expr>, AllocError>
        ensures { IfOk result (λ x. numbered_expression e self.old.next ≡ (x, self.new.next)) }
    {
        let numbered = self.expression(e.into_inner())?;
        Boxed::new(self.alloc, numbered)
    }

    #[cycle(expression)]
    fn receiver(&mut self, of: Option<Boxed<Expr>>) -> Result<Option<Boxed<Expr>>, AllocError>
        ensures { IfOk result (λ x. number_if (option_map numbered_expression of) self.old.next ≡ (x, self.new.next)) }
    {
        match of {
            None => Ok(None),
            Some(e) => {
                let e = self.boxed(e)?;
                Ok(Some(e))
            }
        }
    }

    #[cycle(expression)]
    fn expressions(&mut self, es: Items<Expr>) -> Result<Items<Expr>, AllocError>
        ensures { IfOk result (λ xs. in_order (map numbered_expression es) self.old.next ≡ (xs, self.new.next)) }
    {
        let mut left = reversed(self.alloc, es)?;
        let mut numbered = Items::new(self.alloc);
        while let Some(e) = left.pop() {
            numbered.push(self.expression(e)?)?;
        }
        Ok(numbered)
    }

    #[cycle(expression)]
    fn expression_form(&mut self, form: ExprForm) -> Result<ExprForm, AllocError>
        ensures { IfOk result (λ x. numbered_expression_form form self.old.next ≡ (x, self.new.next)) }
    {
        match form {
            ExprForm::Number { digits, long } => Ok(ExprForm::Number { digits, long }),
            ExprForm::Str(bytes) => Ok(ExprForm::Str(bytes)),
            ExprForm::True => Ok(ExprForm::True),
            ExprForm::False => Ok(ExprForm::False),
            ExprForm::Null => Ok(ExprForm::Null),
            ExprForm::This => Ok(ExprForm::This),
            ExprForm::Name(name) => Ok(ExprForm::Name(name)),
            ExprForm::Group(inner) => {
                let inner = self.boxed(inner)?;
                Ok(ExprForm::Group(inner))
            }
            ExprForm::Field { of, name } => {
                let of = self.boxed(of)?;
                Ok(ExprForm::Field { of, name })
            }
            ExprForm::Index { of, index } => {
                let of = self.boxed(of)?;
                let index = self.boxed(index)?;
                Ok(ExprForm::Index { of, index })
            }
            ExprForm::Call { of, name, args } => {
                let of = self.receiver(of)?;
                let args = self.expressions(args)?;
                Ok(ExprForm::Call { of, name, args })
            }
            ExprForm::NewObject(name) => Ok(ExprForm::NewObject(name)),
            ExprForm::NewArray { base, length } => {
                let length = self.boxed(length)?;
                Ok(ExprForm::NewArray { base, length })
            }
            ExprForm::Prefix { sign, value } => {
                let value = self.boxed(value)?;
                Ok(ExprForm::Prefix { sign, value })
            }
            ExprForm::Binary {
                sign,
                sign_token,
                left,
                right,
            } => {
                let left = self.boxed(left)?;
                let right = self.boxed(right)?;
                Ok(ExprForm::Binary {
                    sign,
                    sign_token,
                    left,
                    right,
                })
            }
        }
    }

    #[cycle(expression)]
    fn expression(&mut self, e: Expr) -> Result<Expr, AllocError>
        ensures { IfOk result (λ x. numbered_expression e self.old.next ≡ (x, self.new.next)) }
    {
        let Expr { id: _, token, form } = e;
        let id = self.fresh()?;
        let form = self.expression_form(form)?;
        Ok(Expr { id, token, form })
    }

    fn returned(&mut self, value: Option<Expr>) -> Result<Option<Expr>, AllocError>
        ensures { IfOk result (λ x. number_returned value self.old.next ≡ (x, self.new.next)) }
    {
        match value {
            None => Ok(None),
            Some(e) => {
                let e = self.expression(e)?;
                Ok(Some(e))
            }
        }
    }

    fn local(&mut self, ty: TypeName, name: Name, value: Expr) -> Result<StmtForm, AllocError>
        ensures { IfOk result (λ x. numbered_statement_form (StmtForm.Local ty name value) self.old.next ≡ (x, self.new.next)) }
    {
        let value = self.expression(value)?;
        Ok(StmtForm::Local { ty, name, value })
    }

    fn assign(&mut self, place: Expr, value: Expr) -> Result<StmtForm, AllocError>
        ensures { IfOk result (λ x. numbered_statement_form (StmtForm.Assign place value) self.old.next ≡ (x, self.new.next)) }
    {
        let place = self.expression(place)?;
        let value = self.expression(value)?;
        Ok(StmtForm::Assign { place, value })
    }

    fn compound(&mut self, name: Name, sign: Sign, value: Expr) -> Result<StmtForm, AllocError>
        ensures { IfOk result (λ x. numbered_statement_form (StmtForm.Compound name sign value) self.old.next ≡ (x, self.new.next)) }
    {
        let value = self.expression(value)?;
        Ok(StmtForm::Compound { name, sign, value })
    }

    fn call(&mut self, call: Expr) -> Result<StmtForm, AllocError>
        ensures { IfOk result (λ x. numbered_statement_form (StmtForm.Call call) self.old.next ≡ (x, self.new.next)) }
    {
        let call = self.expression(call)?;
        Ok(StmtForm::Call(call))
    }

    fn return_of(&mut self, value: Option<Expr>) -> Result<StmtForm, AllocError>
        ensures { IfOk result (λ x. numbered_statement_form (StmtForm.Return value) self.old.next ≡ (x, self.new.next)) }
    {
        let value = self.returned(value)?;
        Ok(StmtForm::Return(value))
    }

    fn print(&mut self, value: Expr) -> Result<StmtForm, AllocError>
        ensures { IfOk result (λ x. numbered_statement_form (StmtForm.Print value) self.old.next ≡ (x, self.new.next)) }
    {
        let value = self.expression(value)?;
        Ok(StmtForm::Print(value))
    }

    #[cycle(statement)]
    fn boxed_statement(&mut self, s: Boxed<Stmt>) -> Result<Boxed<Stmt>, AllocError>
        ensures { IfOk result (λ x. numbered_statement s self.old.next ≡ (x, self.new.next)) }
    {
        let numbered = self.statement(s.into_inner())?;
        Boxed::new(self.alloc, numbered)
    }

    #[cycle(statement)]
    fn else_part(&mut self, s: Option<Boxed<Stmt>>) -> Result<Option<Boxed<Stmt>>, AllocError>
        ensures { IfOk result (λ x. number_if (option_map numbered_statement s) self.old.next ≡ (x, self.new.next)) }
    {
        match s {
            None => Ok(None),
            Some(s) => {
                let s = self.boxed_statement(s)?;
                Ok(Some(s))
            }
        }
    }

    #[cycle(statement)]
    fn items(&mut self, items: Items<Stmt>) -> Result<Items<Stmt>, AllocError>
        ensures { IfOk result (λ xs. in_order (map numbered_statement items) self.old.next ≡ (xs, self.new.next)) }
    {
        let mut left = reversed(self.alloc, items)?;
        let mut numbered = Items::new(self.alloc);
        while let Some(item) = left.pop() {
            numbered.push(self.statement(item)?)?;
        }
        Ok(numbered)
    }

    #[cycle(statement)]
    fn conditional(
        &mut self,
        test: Expr,
        yes: Boxed<Stmt>,
        no: Option<Boxed<Stmt>>,
    ) -> Result<StmtForm, AllocError>
        ensures { IfOk result (λ x. numbered_statement_form (StmtForm.If test yes no) self.old.next ≡ (x, self.new.next)) }
    {
        let test = self.expression(test);
        let yes = self.boxed_statement(yes);
        let no = self.else_part(no);
        if_of(test, yes, no)
    }

    #[cycle(statement)]
    fn for_loop(
        &mut self,
        first: Boxed<Stmt>,
        test: Expr,
        last: Boxed<Stmt>,
        body: Boxed<Stmt>,
    ) -> Result<StmtForm, AllocError>
        ensures { IfOk result (λ x. numbered_statement_form (StmtForm.For first test last body) self.old.next ≡ (x, self.new.next)) }
    {
        let first = self.boxed_statement(first);
        let test = self.expression(test);
        let last = self.boxed_statement(last);
        let body = self.boxed_statement(body);
        for_of(first, test, last, body)
    }

    #[cycle(statement)]
    fn while_loop(&mut self, test: Expr, body: Boxed<Stmt>) -> Result<StmtForm, AllocError>
        ensures { IfOk result (λ x. numbered_statement_form (StmtForm.While test body) self.old.next ≡ (x, self.new.next)) }
    {
        let test = self.expression(test);
        let body = self.boxed_statement(body);
        while_of(test, body)
    }

    #[cycle(statement)]
    fn block(&mut self, items: Items<Stmt>) -> Result<StmtForm, AllocError>
        ensures { IfOk result (λ x. numbered_statement_form (StmtForm.Block items) self.old.next ≡ (x, self.new.next)) }
    {
        let items = self.items(items)?;
        Ok(StmtForm::Block(items))
    }

    #[cycle(statement)]
    fn statement_form(&mut self, form: StmtForm) -> Result<StmtForm, AllocError>
        ensures { IfOk result (λ x. numbered_statement_form form self.old.next ≡ (x, self.new.next)) }
    {
        match form {
            StmtForm::Block(items) => self.block(items),
            StmtForm::Empty => Ok(StmtForm::Empty),
            StmtForm::Local { ty, name, value } => self.local(ty, name, value),
            StmtForm::Assign { place, value } => self.assign(place, value),
            StmtForm::Compound { name, sign, value } => self.compound(name, sign, value),
            StmtForm::Up(name) => Ok(StmtForm::Up(name)),
            StmtForm::Down(name) => Ok(StmtForm::Down(name)),
            StmtForm::Call(call) => self.call(call),
            StmtForm::If { test, yes, no } => self.conditional(test, yes, no),
            StmtForm::While { test, body } => self.while_loop(test, body),
            StmtForm::For {
                first,
                test,
                last,
                body,
            } => self.for_loop(first, test, last, body),
            StmtForm::Return(value) => self.return_of(value),
            StmtForm::Print(value) => self.print(value),
        }
    }

    #[cycle(statement)]
    fn statement(&mut self, s: Stmt) -> Result<Stmt, AllocError>
        ensures { IfOk result (λ x. numbered_statement s self.old.next ≡ (x, self.new.next)) }
    {
        let Stmt { id: _, token, form } = s;
        let id = self.fresh();
        let form = self.statement_form(form);
        statement_of(id, token, form)
    }

    fn member(&mut self, member: Member) -> Result<Member, AllocError>
        ensures { IfOk result (λ x. numbered_member member self.old.next ≡ (x, self.new.next)) }
    {
        match member {
            Member::Field(field) => Ok(Member::Field(field)),
            Member::Method(method) => {
                let Method {
                    access,
                    gives,
                    name,
                    params,
                    body,
                    from,
                    to,
                } = method;
                let body = self.statement(body)?;
                Ok(Member::Method(Method {
                    access,
                    gives,
                    name,
                    params,
                    body,
                    from,
                    to,
                }))
            }
        }
    }

    fn members(&mut self, members: Items<Member>) -> Result<Items<Member>, AllocError>
        ensures { IfOk result (λ xs. in_order (map numbered_member members) self.old.next ≡ (xs, self.new.next)) }
    {
        let mut left = reversed(self.alloc, members)?;
        let mut numbered = Items::new(self.alloc);
        while let Some(member) = left.pop() {
            numbered.push(self.member(member)?)?;
        }
        Ok(numbered)
    }

    fn class(&mut self, class: Class) -> Result<Class, AllocError>
        ensures { IfOk result (λ x. numbered_class class self.old.next ≡ (x, self.new.next)) }
    {
        let Class { name, members } = class;
        let members = self.members(members)?;
        Ok(Class { name, members })
    }

    fn classes(&mut self, classes: Items<Class>) -> Result<Items<Class>, AllocError>
        ensures { IfOk result (λ xs. in_order (map numbered_class classes) self.old.next ≡ (xs, self.new.next)) }
    {
        let mut left = reversed(self.alloc, classes)?;
        let mut numbered = Items::new(self.alloc);
        while let Some(class) = left.pop() {
            numbered.push(self.class(class)?)?;
        }
        Ok(numbered)
    }
}

/// Numbers the nodes of the classes.
pub fn number(alloc: Global, classes: Items<Class>) -> Result<Items<Class>, AllocError>
    ensures { IfOk result (λ cs. cs ≡ numbered_classes classes) }
{
    let mut numbers = Numbers { alloc, next: 0 };
    numbers.classes(classes)
}
