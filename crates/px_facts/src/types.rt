//! Static types.
ghost use Rattle.std.specs.Prelude.{◌≡◌};
ghost use Rattle.px_facts.specs.Types as types;

/// The type of an array's elements.
#[derive(Clone, Copy, Debug, PartialEq, Eq)]
pub enum Element {
    Int,
    Long,
    Boolean,
    Text,
    /// An object of a class, by the class's place in the file, from 0.
    Object(usize),
}

/// The type of an expression, a variable or a result.
#[derive(Clone, Copy, Debug, PartialEq, Eq)]
pub enum Ty {
    /// A breach elsewhere leaves it unknown.
    Unknown,
    Void,
    Null,
    Int,
    Long,
    Boolean,
    Text,
    /// An object of a class, by the class's place in the file, from 0.
    Object(usize),
    Array(Element),
    /// The rows that a query gave.
    ResultSet,
}

impl Ty {
    pub fn is_unknown(self) -> bool
        ensures { result ≡ types.is_unknown self }
    {
        matches!(self, Ty::Unknown)
    }

    pub fn is_void(self) -> bool
        ensures { result ≡ types.is_void self }
    {
        matches!(self, Ty::Void)
    }

    pub fn is_null(self) -> bool
        ensures { result ≡ types.is_null self }
    {
        matches!(self, Ty::Null)
    }

    pub fn is_number(self) -> bool
        ensures { result ≡ types.is_number self }
    {
        matches!(self, Ty::Int | Ty::Long)
    }

    pub fn is_boolean(self) -> bool
        ensures { result ≡ types.is_boolean self }
    {
        matches!(self, Ty::Boolean)
    }

    pub fn is_text(self) -> bool
        ensures { result ≡ types.is_text self }
    {
        matches!(self, Ty::Text)
    }

    pub fn is_rows(self) -> bool
        ensures { result ≡ types.is_rows self }
    {
        matches!(self, Ty::ResultSet)
    }

    pub fn is_array(self) -> bool
        ensures { result ≡ types.is_array self }
    {
        matches!(self, Ty::Array(_))
    }

    pub fn is_reference(self) -> bool
        ensures { result ≡ types.is_reference self }
    {
        matches!(
            self,
            Ty::Text | Ty::Object(_) | Ty::Array(_) | Ty::ResultSet
        )
    }

    pub fn is_printable(self) -> bool
        ensures { result ≡ types.is_printable self }
    {
        matches!(
            self,
            Ty::Unknown | Ty::Int | Ty::Long | Ty::Boolean | Ty::Text
        )
    }

    /// The type of an array of such elements.
    pub fn array(self) -> Ty
        ensures { result ≡ types.array_of self }
    {
        match self {
            Ty::Int => Ty::Array(Element::Int),
            Ty::Long => Ty::Array(Element::Long),
            Ty::Boolean => Ty::Array(Element::Boolean),
            Ty::Text => Ty::Array(Element::Text),
            Ty::Object(class) => Ty::Array(Element::Object(class)),
            _ => Ty::Unknown,
        }
    }

    /// The type of an array's elements.
    pub fn indexed(self) -> Ty
        ensures { result ≡ types.indexed self }
    {
        match self {
            Ty::Array(element) => element_type(element),
            _ => Ty::Unknown,
        }
    }
}

fn element_type(element: Element) -> Ty
    ensures { result ≡ types.element_type element }
{
    match element {
        Element::Int => Ty::Int,
        Element::Long => Ty::Long,
        Element::Boolean => Ty::Boolean,
        Element::Text => Ty::Text,
        Element::Object(class) => Ty::Object(class),
    }
}

pub fn same(a: Ty, b: Ty) -> bool
    ensures { result ≡ types.same a b }
{
    match (a, b) {
        (Ty::Object(a), Ty::Object(b)) => a == b,
        (Ty::Array(a), Ty::Array(b)) => same_element(a, b),
        (Ty::Unknown, Ty::Unknown)
        | (Ty::Void, Ty::Void)
        | (Ty::Null, Ty::Null)
        | (Ty::Int, Ty::Int)
        | (Ty::Long, Ty::Long)
        | (Ty::Boolean, Ty::Boolean)
        | (Ty::Text, Ty::Text)
        | (Ty::ResultSet, Ty::ResultSet) => true,
        _ => false,
    }
}

fn same_element(a: Element, b: Element) -> bool
    ensures { result ≡ types.same_element a b }
{
    match (a, b) {
        (Element::Object(a), Element::Object(b)) => a == b,
        (Element::Int, Element::Int)
        | (Element::Long, Element::Long)
        | (Element::Boolean, Element::Boolean)
        | (Element::Text, Element::Text) => true,
        _ => false,
    }
}

/// Whether a value of the second type may become one of the first.
pub fn fits(to: Ty, from: Ty) -> bool
    ensures { result ≡ types.fits to from }
{
    match (to, from) {
        (_, Ty::Void) => false,
        (_, Ty::Unknown) | (Ty::Unknown, _) | (Ty::Long, Ty::Int) => true,
        (_, Ty::Null) => to.is_reference(),
        _ => same(to, from),
    }
}
