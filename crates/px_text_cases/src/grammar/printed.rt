//! A tree as a text, for comparison: each form in parentheses, what it is called first.
use px_tree::{
    Access, Base, Class, Expr, ExprForm, FieldDecl, Member, Method, Name, Param, Program, Sign,
    Stmt, StmtForm, TableDecl, TypeName,
};
use std::alloc::{AllocError, Global};

/// A text that grows.
#[derive(Drop)]
pub struct Printed {
    pub text: Vec<u8>,
    alloc: Global,
    /// Whether a node's number and those of tokens are printed.
    numbered: bool,
}

fn sign_text(sign: Sign) -> &'static [u8] {
    match sign {
        Sign::Plus => b"+",
        Sign::Minus => b"-",
        Sign::Times => b"*",
        Sign::Over => b"/",
        Sign::Rest => b"%",
        Sign::And => b"&",
        Sign::Or => b"|",
        Sign::Xor => b"^",
        Sign::Shl => b"<<",
        Sign::Shr => b">>",
        Sign::Ushr => b">>>",
        Sign::Less => b"<",
        Sign::AtMost => b"<=",
        Sign::More => b">",
        Sign::AtLeast => b">=",
        Sign::Equal => b"==",
        Sign::Unequal => b"!=",
        Sign::Both => b"&&",
        Sign::Either => b"||",
        Sign::Not => b"!",
        Sign::Inv => b"~",
        Sign::ToInt => b"int",
        Sign::ToLong => b"long",
    }
}

fn access_text(access: Access) -> &'static [u8] {
    match access {
        Access::Public => b" public",
        Access::Private => b" private",
        Access::Plain => b"",
    }
}

fn column_text(text: bool) -> &'static [u8] {
    if text { b" TEXT" } else { b" LONG" }
}

impl Printed {
    pub fn new(alloc: Global, numbered: bool) -> Printed {
        Printed {
            text: Vec::new(alloc),
            alloc,
            numbered,
        }
    }

    fn add(&mut self, text: &[u8]) -> Result<(), AllocError> {
        self.text.extend_from_slice(text)?;
        Ok(())
    }

    // A number of a token.
    fn at(&mut self, token: u32) -> Result<(), AllocError> {
        if self.numbered {
            let number = format!(in self.alloc; "@{token}")?;
            self.add(number.as_bytes())?;
        }
        Ok(())
    }

    // The number of a node, and that of its first token.
    fn node(&mut self, id: u32, token: u32) -> Result<(), AllocError> {
        if self.numbered {
            let number = format!(in self.alloc; " #{id}@{token}")?;
            self.add(number.as_bytes())?;
        }
        Ok(())
    }

    // A name behind a space.
    fn name(&mut self, name: &Name) -> Result<(), AllocError> {
        self.add(b" ")?;
        self.add(name.bytes.as_slice())?;
        self.at(name.token)
    }

    fn base(&mut self, base: &Base) -> Result<(), AllocError> {
        match base {
            Base::Int => self.add(b" int"),
            Base::Long => self.add(b" long"),
            Base::Boolean => self.add(b" boolean"),
            Base::Str => self.add(b" String"),
            Base::ResultSet => self.add(b" ResultSet"),
            Base::Class(name) => {
                self.add(b" class")?;
                self.name(name)
            }
        }
    }

    fn type_name(&mut self, ty: &TypeName) -> Result<(), AllocError> {
        self.base(&ty.base)?;
        if ty.array {
            self.add(b"[]")?;
        }
        self.at(ty.token)
    }

    fn variable(&mut self, ty: &TypeName, name: &Name) -> Result<(), AllocError> {
        self.type_name(ty)?;
        self.name(name)
    }

    fn open(&mut self, name: &[u8]) -> Result<(), AllocError> {
        self.add(b" (")?;
        self.add(name)
    }

    fn close(&mut self) -> Result<(), AllocError> {
        self.add(b")")
    }

    fn number(&mut self, digits: &[u8], long: bool) -> Result<(), AllocError> {
        self.add(b" ")?;
        self.add(digits)?;
        if long { self.add(b"L") } else { Ok(()) }
    }

    fn quoted(&mut self, bytes: &[u8]) -> Result<(), AllocError> {
        self.add(b" \"")?;
        self.add(bytes)?;
        self.add(b"\"")
    }

    #[cycle(expression)]
    fn expression(&mut self, e: &Expr) -> Result<(), AllocError> {
        self.node(e.id, e.token)?;
        self.form(&e.form)
    }

    #[cycle(expression)]
    fn form(&mut self, form: &ExprForm) -> Result<(), AllocError> {
        match form {
            ExprForm::Number { digits, long } => self.number(digits.as_slice(), *long),
            ExprForm::Str(bytes) => self.quoted(bytes.as_slice()),
            ExprForm::True => self.add(b" true"),
            ExprForm::False => self.add(b" false"),
            ExprForm::Null => self.add(b" null"),
            ExprForm::This => self.add(b" this"),
            ExprForm::Name(name) => self.name(name),
            ExprForm::NewObject(name) => {
                self.open(b"new")?;
                self.name(name)?;
                self.close()
            }
            ExprForm::Group(inner) => {
                self.open(b"group")?;
                self.expression(inner.get())?;
                self.close()
            }
            ExprForm::Field { of, name } => {
                self.open(b"field")?;
                self.expression(of.get())?;
                self.name(name)?;
                self.close()
            }
            ExprForm::Index { of, index } => {
                self.open(b"index")?;
                self.expression(of.get())?;
                self.expression(index.get())?;
                self.close()
            }
            ExprForm::Call {
                of: Some(of),
                name,
                args,
            } => {
                self.open(b"call")?;
                self.expression(of.get())?;
                self.name(name)?;
                self.arguments(args.as_slice())
            }
            ExprForm::Call {
                of: None,
                name,
                args,
            } => {
                self.open(b"own")?;
                self.name(name)?;
                self.arguments(args.as_slice())
            }
            ExprForm::NewArray { base, length } => {
                self.open(b"array")?;
                self.base(base)?;
                self.expression(length.get())?;
                self.close()
            }
            ExprForm::Prefix { sign, value } => {
                self.open(sign_text(*sign))?;
                self.expression(value.get())?;
                self.close()
            }
            ExprForm::Binary {
                sign,
                sign_token,
                left,
                right,
            } => {
                self.open(sign_text(*sign))?;
                self.at(*sign_token)?;
                self.expression(left.get())?;
                self.expression(right.get())?;
                self.close()
            }
        }
    }

    #[cycle(expression)]
    fn arguments(&mut self, args: &[Expr]) -> Result<(), AllocError> {
        for arg in args {
            self.expression(arg)?;
        }
        self.close()
    }

    #[cycle(statement)]
    fn statement(&mut self, s: &Stmt) -> Result<(), AllocError> {
        self.node(s.id, s.token)?;
        self.statement_form(&s.form)
    }

    #[cycle(statement)]
    fn statement_form(&mut self, form: &StmtForm) -> Result<(), AllocError> {
        match form {
            StmtForm::Block(items) => {
                self.open(b"block")?;
                self.statements(items.as_slice())
            }
            StmtForm::Empty => self.add(b" (empty)"),
            StmtForm::Local { ty, name, value } => {
                self.open(b"local")?;
                self.variable(ty, name)?;
                self.expression(value)?;
                self.close()
            }
            StmtForm::Assign { place, value } => {
                self.open(b"=")?;
                self.expression(place)?;
                self.expression(value)?;
                self.close()
            }
            StmtForm::Compound { name, sign, value } => {
                self.open(sign_text(*sign))?;
                self.add(b"=")?;
                self.name(name)?;
                self.expression(value)?;
                self.close()
            }
            StmtForm::Up(name) => {
                self.open(b"++")?;
                self.name(name)?;
                self.close()
            }
            StmtForm::Down(name) => {
                self.open(b"--")?;
                self.name(name)?;
                self.close()
            }
            StmtForm::Call(call) => {
                self.open(b"do")?;
                self.expression(call)?;
                self.close()
            }
            StmtForm::If {
                test,
                yes,
                no: None,
            } => {
                self.open(b"if")?;
                self.expression(test)?;
                self.statement(yes.get())?;
                self.close()
            }
            StmtForm::If {
                test,
                yes,
                no: Some(no),
            } => {
                self.open(b"if")?;
                self.expression(test)?;
                self.statement(yes.get())?;
                self.statement(no.get())?;
                self.close()
            }
            StmtForm::While { test, body } => {
                self.open(b"while")?;
                self.expression(test)?;
                self.statement(body.get())?;
                self.close()
            }
            StmtForm::For {
                first,
                test,
                last,
                body,
            } => {
                self.open(b"for")?;
                self.statement(first.get())?;
                self.expression(test)?;
                self.statement(last.get())?;
                self.statement(body.get())?;
                self.close()
            }
            StmtForm::Return(None) => self.add(b" (return)"),
            StmtForm::Return(Some(value)) => {
                self.open(b"return")?;
                self.expression(value)?;
                self.close()
            }
            StmtForm::Print(value) => {
                self.open(b"print")?;
                self.expression(value)?;
                self.close()
            }
        }
    }

    #[cycle(statement)]
    fn statements(&mut self, items: &[Stmt]) -> Result<(), AllocError> {
        for item in items {
            self.statement(item)?;
        }
        self.close()
    }

    fn field(&mut self, field: &FieldDecl) -> Result<(), AllocError> {
        self.open(b"field")?;
        self.add(access_text(field.access))?;
        self.variable(&field.ty, &field.name)?;
        self.close()
    }

    fn result(&mut self, gives: &Option<TypeName>) -> Result<(), AllocError> {
        match gives {
            Some(ty) => self.type_name(ty),
            None => self.add(b" void"),
        }
    }

    fn params(&mut self, params: &[Param]) -> Result<(), AllocError> {
        self.open(b"params")?;
        for param in params {
            self.variable(&param.ty, &param.name)?;
        }
        self.close()
    }

    fn method(&mut self, method: &Method) -> Result<(), AllocError> {
        self.open(b"method")?;
        self.at(method.from)?;
        self.at(method.to)?;
        self.add(access_text(method.access))?;
        self.result(&method.gives)?;
        self.name(&method.name)?;
        self.params(method.params.as_slice())?;
        self.statement(&method.body)?;
        self.close()
    }

    fn class(&mut self, class: &Class) -> Result<(), AllocError> {
        self.open(b"class")?;
        self.name(&class.name)?;
        for member in class.members.as_slice() {
            match member {
                Member::Field(field) => self.field(field)?,
                Member::Method(method) => self.method(method)?,
            }
        }
        self.close()
    }

    fn table(&mut self, table: &TableDecl) -> Result<(), AllocError> {
        self.open(b"table")?;
        self.name(&table.name)?;
        for column in table.columns.as_slice() {
            self.name(&column.name)?;
            self.add(column_text(column.text))?;
        }
        self.close()
    }

    pub fn program(&mut self, program: &Program) -> Result<(), AllocError> {
        for table in program.tables.as_slice() {
            self.table(table)?;
        }
        for class in program.classes.as_slice() {
            self.class(class)?;
        }
        Ok(())
    }
}
