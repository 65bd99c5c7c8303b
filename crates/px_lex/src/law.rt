//! What the definitions that the other contracts cite have in common.
ghost use Rattle.std.specs.Prelude.{◌≡◌, ℕ, ◌<◌, ◌↔◌, true, List, length};
ghost use Rattle.px_lex.specs.declared.token.Token.{Token};
ghost use Rattle.px_lex.specs.Pieces.{piece_of};
ghost use Rattle.px_lex.specs.Cutting.{tokens_of};
ghost use Rattle.px_lex.specs.declared.token.TokenKind.TheVariants.{Id};
ghost use Rattle.px_lex.specs.Names.{is_identifier};
ghost use Rattle.px_lex.specs.Lexical.{IsFirstPiece, IsCut, IsToken};

/// The longest match: a text is cut behind the longest front that is a separator or a token, and
/// behind one bad byte where no front is one. There is one such cut.
pub fn longest_match()
    ensures piece { (bytes : List ℕ) → 0 < length bytes → IsFirstPiece (piece_of bytes) bytes }
    ensures tokens { (bytes : List ℕ) (tokens : List Token) → (IsCut 0 1 bytes tokens) ↔ (tokens ≡ tokens_of bytes) }
{}

/// What is an identifier is a token of that kind, and the other way round.
pub fn identifiers_are_tokens()
    ensures { (word : List ℕ) → IsToken Id word ↔ (is_identifier word ≡ true) }
{}
