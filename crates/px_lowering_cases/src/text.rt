//! Code as text, a line for each statement.
use px_normal::{Class, Code, Method, Operand, Site, Tree, Word};
use px_value::{Kind, Op, Text, Value};
use sqlite_items::at;
use std::alloc::{AllocError, Global};

/// The lines so far.
#[derive(Drop)]
pub struct Lines<'a> {
    alloc: Global,
    code: &'a Code,
    text: String,
}

fn op_name(op: Op) -> &'static str {
    match op {
        Op::Add => "add",
        Op::Sub => "sub",
        Op::Mul => "mul",
        Op::Div => "div",
        Op::Rem => "rem",
        Op::And => "and",
        Op::Or => "or",
        Op::Xor => "xor",
        Op::Shl => "shl",
        Op::Shr => "shr",
        Op::Ushr => "ushr",
        Op::Lt => "lt",
        Op::Le => "le",
        Op::Gt => "gt",
        Op::Ge => "ge",
        Op::Eq => "eq",
        Op::Ne => "ne",
        Op::Neg => "neg",
        Op::Inv => "inv",
        Op::Not => "not",
        Op::Widen => "widen",
        Op::Narrow => "narrow",
        Op::Concat => "concat",
        Op::Equals => "equals",
        Op::Length => "length",
    }
}

impl<'a> Lines<'a> {
    fn put(&mut self, text: &str) -> Result<(), AllocError> {
        self.text.push_str(text)
    }

    fn name(&mut self, name: &Text) -> Result<(), AllocError> {
        for byte in name.as_slice() {
            self.text.push(char::from(*byte))?;
        }
        Ok(())
    }

    fn literal(&mut self, value: &Value) -> Result<(), AllocError> {
        let alloc = self.alloc;
        match value {
            Value::Int(n) => self.put(format!(in alloc; "{n}")?.as_str()),
            Value::Long(n) => self.put(format!(in alloc; "{n}L")?.as_str()),
            Value::Bool(true) => self.put("true"),
            Value::Bool(false) => self.put("false"),
            Value::Null => self.put("null"),
            Value::Ref(_) => self.put("?"),
            Value::Text(text) => self.quoted(text),
        }
    }

    fn quoted(&mut self, text: &Text) -> Result<(), AllocError> {
        self.put("\"")?;
        for byte in text.as_slice() {
            match *byte {
                10 => self.put("\\n")?,
                9 => self.put("\\t")?,
                34 => self.put("\\\"")?,
                92 => self.put("\\\\")?,
                13 => self.put("\\r")?,
                byte => self.text.push(char::from(byte))?,
            }
        }
        self.put("\"")
    }

    fn slot(&mut self, slot: u16) -> Result<(), AllocError> {
        let alloc = self.alloc;
        self.put(format!(in alloc; " %{slot}")?.as_str())
    }

    fn number(&mut self, n: u32) -> Result<(), AllocError> {
        let alloc = self.alloc;
        self.put(format!(in alloc; " {n}")?.as_str())
    }

    fn operand(&mut self, a: &Operand) -> Result<(), AllocError> {
        match a {
            Operand::Slot(slot) => self.slot(*slot),
            Operand::Literal(value) => {
                self.put(" ")?;
                self.literal(value)
            }
        }
    }

    fn operands(&mut self, list: &[Operand]) -> Result<(), AllocError> {
        for a in list {
            self.operand(a)?;
        }
        Ok(())
    }

    fn class_name(&mut self, class: u16) -> Result<(), AllocError> {
        match at(self.code.classes.as_slice(), usize::from(class)) {
            Some(class) => self.name(&class.name),
            None => self.put("?"),
        }
    }

    fn class(&mut self, class: u16) -> Result<(), AllocError> {
        self.put(" ")?;
        self.class_name(class)
    }

    fn field(&mut self, class: u16, place: u16) -> Result<(), AllocError> {
        self.class(class)?;
        self.put(".")?;
        match at(self.code.classes.as_slice(), usize::from(class)) {
            Some(class) => match at(class.fields.as_slice(), usize::from(place)) {
                Some(field) => self.name(&field.name),
                None => self.put("?"),
            },
            None => self.put("?"),
        }
    }

    fn method_name(&mut self, number: u16) -> Result<(), AllocError> {
        match at(
            self.code.methods.as_slice(),
            usize::from(number).wrapping_sub(1),
        ) {
            Some(method) => {
                self.class(method.class)?;
                self.put(".")?;
                self.name(&method.name)
            }
            None => self.put(" ?"),
        }
    }

    fn element(&mut self, element: u16) -> Result<(), AllocError> {
        match element {
            0 => self.put(" int"),
            1 => self.put(" long"),
            2 => self.put(" boolean"),
            3 => self.put(" String"),
            _ => self.class(element - 4),
        }
    }

    fn word(&mut self, word: &Word) -> Result<(), AllocError> {
        match word {
            Word::Set { to, value } => {
                self.put("set")?;
                self.slot(*to)?;
                self.operand(value)
            }
            Word::Op {
                op,
                to,
                left,
                right,
            } => {
                self.put("op ")?;
                self.put(op_name(*op))?;
                self.slot(*to)?;
                self.operand(left)?;
                match right {
                    Some(right) => self.operand(right),
                    None => Ok(()),
                }
            }
            Word::Get {
                to,
                of,
                class,
                field,
            } => {
                self.put("get")?;
                self.slot(*to)?;
                self.operand(of)?;
                self.field(*class, *field)
            }
            Word::Put {
                of,
                class,
                field,
                value,
            } => {
                self.put("put")?;
                self.operand(of)?;
                self.field(*class, *field)?;
                self.operand(value)
            }
            Word::Load { to, of, index } => {
                self.put("load")?;
                self.slot(*to)?;
                self.operand(of)?;
                self.operand(index)
            }
            Word::Store { of, index, value } => {
                self.put("store")?;
                self.operand(of)?;
                self.operand(index)?;
                self.operand(value)
            }
            Word::Len { to, of } => {
                self.put("len")?;
                self.slot(*to)?;
                self.operand(of)
            }
            Word::New { to, class, site } => {
                self.put("new")?;
                self.slot(*to)?;
                self.class(*class)?;
                self.number(u32::from(*site))
            }
            Word::Array {
                to,
                element,
                length,
                site,
            } => {
                self.put("array")?;
                self.slot(*to)?;
                self.element(*element)?;
                self.operand(length)?;
                self.number(u32::from(*site))
            }
            Word::Call {
                to,
                of,
                method,
                args,
            } => {
                self.put("call")?;
                match to {
                    Some(to) => self.slot(*to)?,
                    None => self.put(" -")?,
                }
                self.operand(of)?;
                self.method_name(*method)?;
                self.operands(args.as_slice())
            }
            Word::Query {
                to,
                statement,
                site,
                params,
            } => {
                self.put("query")?;
                self.slot(*to)?;
                self.number(u32::from(*statement))?;
                self.number(u32::from(*site))?;
                self.operands(params.as_slice())
            }
            Word::Update {
                to,
                statement,
                params,
            } => {
                self.put("update")?;
                self.slot(*to)?;
                self.number(u32::from(*statement))?;
                self.operands(params.as_slice())
            }
            Word::Next { to, of } => {
                self.put("next")?;
                self.slot(*to)?;
                self.operand(of)
            }
            Word::Long { to, of, column } => {
                self.put("long")?;
                self.slot(*to)?;
                self.operand(of)?;
                self.operand(column)
            }
            Word::Text { to, of, column } => {
                self.put("text")?;
                self.slot(*to)?;
                self.operand(of)?;
                self.operand(column)
            }
            Word::Print(a) => {
                self.put("print")?;
                self.operand(a)
            }
            Word::Return(None) => self.put("return"),
            Word::Return(Some(a)) => {
                self.put("return")?;
                self.operand(a)
            }
        }
    }

    fn begin(&mut self, node: u32) -> Result<(), AllocError> {
        let alloc = self.alloc;
        self.put(format!(in alloc; "{node} ")?.as_str())
    }

    #[cycle(trees)]
    fn tree(&mut self, tree: &Tree) -> Result<(), AllocError> {
        match tree {
            Tree::Do { node, word } => {
                self.begin(*node)?;
                self.word(word)?;
                self.put("\n")
            }
            Tree::If {
                node,
                test,
                yes,
                no,
            } => {
                self.begin(*node)?;
                self.put("if")?;
                self.operand(test)?;
                self.put("\n")?;
                self.trees(yes.as_slice())?;
                self.put("else\n")?;
                self.trees(no.as_slice())?;
                self.put("end\n")
            }
            Tree::Loop {
                first,
                node,
                test,
                body,
            } => {
                self.put("loop\n")?;
                self.trees(first.as_slice())?;
                self.begin(*node)?;
                self.put("test")?;
                self.operand(test)?;
                self.put("\n")?;
                self.trees(body.as_slice())?;
                self.put("end\n")
            }
        }
    }

    #[cycle(trees)]
    fn trees(&mut self, trees: &[Tree]) -> Result<(), AllocError> {
        for tree in trees {
            self.tree(tree)?;
        }
        Ok(())
    }

    fn method(&mut self, method: &Method) -> Result<(), AllocError> {
        let alloc = self.alloc;
        let node = method.node;
        let slots = method.slots.len();
        self.put(format!(in alloc; "method {node}")?.as_str())?;
        self.class(method.class)?;
        self.put(".")?;
        self.name(&method.name)?;
        self.put(format!(in alloc; " {slots}\n")?.as_str())?;
        self.trees(method.body.as_slice())?;
        self.put("end\n")
    }

    fn fields(&mut self, class: &Class) -> Result<(), AllocError> {
        for field in class.fields.as_slice() {
            self.put("field ")?;
            self.name(&class.name)?;
            self.put(".")?;
            self.name(&field.name)?;
            self.put("\n")?;
        }
        Ok(())
    }

    fn site(&mut self, number: usize, site: &Site) -> Result<(), AllocError> {
        let alloc = self.alloc;
        match site.kind {
            Kind::Object(_) => Ok(()),
            _ => self.put(format!(in alloc; "site {number}\n")?.as_str()),
        }
    }

    fn lines_of_nodes(&mut self) -> Result<(), AllocError> {
        let alloc = self.alloc;
        self.put("lines")?;
        for node in self.code.nodes.as_slice() {
            let line = node.line;
            self.put(format!(in alloc; " {line}")?.as_str())?;
        }
        self.put("\n")
    }

    fn whole(&mut self) -> Result<(), AllocError> {
        for class in self.code.classes.as_slice() {
            self.fields(class)?;
        }
        let mut number = 1usize;
        for site in self.code.sites.as_slice() {
            self.site(number, site)?;
            number = number.saturating_add(1);
        }
        for method in self.code.methods.as_slice() {
            self.method(method)?;
        }
        self.lines_of_nodes()
    }
}

/// The text of code: its fields, its sites, and its methods with their statements.
pub fn text_of(alloc: Global, code: &Code) -> Result<String, AllocError> {
    let mut lines = Lines {
        alloc,
        code,
        text: String::new(alloc),
    };
    lines.whole()?;
    Ok(lines.text)
}
