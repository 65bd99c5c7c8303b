//! What nodes are called in texts.
ghost use Rattle.std.specs.Prelude.{◌≡◌, IfOk, map, option_map};
ghost use Rattle.px_partition.specs.Words.{word_of, word_of_kind, with_word, with_tree, with_trees, with_methods, words_of, name, pin_of, print_pins};

use px_code::{Pins, Side};
use px_normal::{Code, Method, Node, NodeKind, Tree, Word};
use sqlite_items::Items;
use std::alloc::{AllocError, Global};

/// What a node is, by the word of its statement.
#[derive(Clone, Copy, Debug, PartialEq, Eq)]
pub enum NodeWord {
    Method,
    Field,
    Site,
    Set,
    Op,
    Get,
    Put,
    Load,
    Store,
    Len,
    New,
    Array,
    Call,
    Query,
    Update,
    Next,
    Long,
    Text,
    Print,
    Return,
    If,
    Test,
}

impl NodeWord {
    pub fn name(self) -> &'static [u8]
        ensures { result.now ≡ name self }
    {
        match self {
            NodeWord::Method => b"method",
            NodeWord::Field => b"field",
            NodeWord::Site => b"site",
            NodeWord::Set => b"set",
            NodeWord::Op => b"op",
            NodeWord::Get => b"get",
            NodeWord::Put => b"put",
            NodeWord::Load => b"load",
            NodeWord::Store => b"store",
            NodeWord::Len => b"len",
            NodeWord::New => b"new",
            NodeWord::Array => b"array",
            NodeWord::Call => b"call",
            NodeWord::Query => b"query",
            NodeWord::Update => b"update",
            NodeWord::Next => b"next",
            NodeWord::Long => b"long",
            NodeWord::Text => b"text",
            NodeWord::Print => b"print",
            NodeWord::Return => b"return",
            NodeWord::If => b"if",
            NodeWord::Test => b"test",
        }
    }
}

fn word_of(word: &Word) -> NodeWord
    ensures { result ≡ word_of word.now }
{
    match word {
        Word::Set { .. } => NodeWord::Set,
        Word::Op { .. } => NodeWord::Op,
        Word::Get { .. } => NodeWord::Get,
        Word::Put { .. } => NodeWord::Put,
        Word::Load { .. } => NodeWord::Load,
        Word::Store { .. } => NodeWord::Store,
        Word::Len { .. } => NodeWord::Len,
        Word::New { .. } => NodeWord::New,
        Word::Array { .. } => NodeWord::Array,
        Word::Call { .. } => NodeWord::Call,
        Word::Query { .. } => NodeWord::Query,
        Word::Update { .. } => NodeWord::Update,
        Word::Next { .. } => NodeWord::Next,
        Word::Long { .. } => NodeWord::Long,
        Word::Text { .. } => NodeWord::Text,
        Word::Print(_) => NodeWord::Print,
        Word::Return(_) => NodeWord::Return,
    }
}

fn word_of_kind(node: &Node) -> Option<NodeWord>
    ensures { result ≡ word_of_kind node.now }
{
    match node.kind {
        NodeKind::Method => Some(NodeWord::Method),
        NodeKind::Field => Some(NodeWord::Field),
        NodeKind::Site => Some(NodeWord::Site),
        NodeKind::Normal => None,
    }
}

fn set_word(words: &mut Items<Option<NodeWord>>, node: u32, word: NodeWord)
    ensures { words.new ≡ with_word node word words.old }
{
    if node > 0 && node as usize <= words.len() {
        words.set(node as usize - 1, Some(word));
    }
}

#[cycle(words)]
fn set_trees(words: &mut Items<Option<NodeWord>>, trees: &[Tree])
    ensures { words.new ≡ with_trees trees.now words.old }
{
    for tree in trees {
        set_tree(words, tree);
    }
}

#[cycle(words)]
fn set_tree(words: &mut Items<Option<NodeWord>>, tree: &Tree)
    ensures { words.new ≡ with_tree tree.now words.old }
{
    match tree {
        Tree::Do { node, word } => set_word(words, *node, word_of(word)),
        Tree::If {
            node,
            test: _,
            yes,
            no,
        } => {
            set_word(words, *node, NodeWord::If);
            set_trees(words, yes.as_slice());
            set_trees(words, no.as_slice());
        }
        Tree::Loop {
            first,
            node,
            test: _,
            body,
        } => {
            set_word(words, *node, NodeWord::Test);
            set_trees(words, first.as_slice());
            set_trees(words, body.as_slice());
        }
    }
}

fn words_by_kind(alloc: Global, nodes: &[Node]) -> Result<Items<Option<NodeWord>>, AllocError>
    ensures { IfOk result (λ words. words ≡ map word_of_kind nodes.now) }
{
    let mut words = Items::new(alloc);
    for node in nodes {
        words.push(word_of_kind(node))?;
    }
    Ok(words)
}

fn set_methods(words: &mut Items<Option<NodeWord>>, methods: &[Method])
    ensures { words.new ≡ with_methods methods.now words.old }
{
    for method in methods {
        set_trees(words, method.body.as_slice());
    }
}

/// The word of each node, by number from 1.
pub fn words_of(alloc: Global, code: &Code) -> Result<Items<Option<NodeWord>>, AllocError>
    ensures { IfOk result (λ words. words ≡ words_of code.now) }
{
    let mut words = words_by_kind(alloc, code.nodes.as_slice())?;
    set_methods(&mut words, code.methods.as_slice());
    Ok(words)
}

fn pin_of(word: Option<NodeWord>) -> Option<Side>
    ensures { result ≡ pin_of word }
{
    match word {
        Some(NodeWord::Print) => Some(Side::App),
        _ => None,
    }
}

/// The sides of prints, which are at APP.
pub fn print_pins(alloc: Global, words: &[Option<NodeWord>]) -> Result<Pins, AllocError>
    ensures { IfOk result (λ pins. pins.sides ≡ print_pins words.now) }
{
    let mut sides = Items::new(alloc);
    for word in words {
        sides.push(pin_of(*word))?;
    }
    Ok(Pins { sides })
}
