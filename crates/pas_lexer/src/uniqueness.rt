ghost use Rattle.std.specs.Prelude.{◌≡◌, List};
ghost use Rattle.pas_lexer.specs.Covering.{Piece, IsCovering, HasTokens, HasFault};
ghost use Rattle.pas_lexer.specs.Lexeme.{Text};
ghost use Rattle.pas_lexer.specs.declared.fault.LexFault.{LexFault};
ghost use Rattle.pas_lexer.specs.declared.token.Token.{Token};

/// A law of the definitions: a text has at most one covering. So it has one list of tokens or one fault, and not both.
pub fn a_text_has_one_covering()
    ensures coverings { (text : Text) (pieces others : List Piece) → IsCovering text pieces → IsCovering text others → pieces ≡ others }
    ensures tokens { (text : Text) (ts us : List Token) → HasTokens text ts → HasTokens text us → ts ≡ us }
    ensures either { (text : Text) (ts : List Token) (fault : LexFault) → HasTokens text ts → HasFault text fault → ⊥ }
    ensures faults { (text : Text) (fault other : LexFault) → HasFault text fault → HasFault text other → fault ≡ other }
{}
