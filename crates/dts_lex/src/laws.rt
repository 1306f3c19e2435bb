ghost use Rattle.std.specs.Prelude.{◌≡◌, ℕ, List, Ok, Err, length, nat_le, if◌then◌else◌};
ghost use Rattle.dts_lex.specs.declared.fault.LexFault.{LexFault};
ghost use Rattle.dts_lex.specs.declared.number.NumberFault.TheVariants.{TooWide};
ghost use Rattle.dts_lex.specs.declared.token.Token.{Token};
ghost use Rattle.dts_lex.specs.Faults.{Tells};
ghost use Rattle.dts_lex.specs.Lex.{lexed, SpansRise};
ghost use Rattle.dts_lex.specs.Number.{number_of};
ghost use Rattle.dts_lex.specs.Shape.{Covers, KindsFit};
ghost use Rattle.dts_lex.specs.Spelling.{Spells, IsReadOf};
ghost use Rattle.dts_lex.specs.Standing.{RunsEnd, NumbersStand};

/// Tokens stand in the order of their text, none is empty, and no two of them overlap.
pub fn spans_rise()
    ensures { (text : List ℕ) (tokens : List Token)
        → lexed text ≡ Ok tokens → SpansRise 0 (length text) tokens }
{}

/// What a token's kind says of its bytes.
pub fn kinds_fit()
    ensures { (text : List ℕ) (tokens : List Token)
        → lexed text ≡ Ok tokens → KindsFit text tokens }
{}

/// Every byte is in a token, a blank or in a comment, up to the end of the text or to the token that
/// ends the reading.
pub fn tokens_cover()
    ensures { (text : List ℕ) (tokens : List Token)
        → lexed text ≡ Ok tokens → Covers text tokens }
{}

/// No token is cut in two.
pub fn runs_end()
    ensures { (text : List ℕ) (tokens : List Token)
        → lexed text ≡ Ok tokens → RunsEnd text tokens }
{}

/// A token is a number exactly where it begins with a digit among cells.
pub fn numbers_stand()
    ensures { (text : List ℕ) (tokens : List Token)
        → lexed text ≡ Ok tokens → NumbersStand text tokens }
{}

/// A fault tells of the first piece that can't be read, and why.
pub fn faults_tell()
    ensures { (text : List ℕ) (fault : LexFault)
        → lexed text ≡ Err fault → Tells text fault }
{}

/// What is read of a word is the number that it spells, and each word that spells one is read so.
pub fn numbers_spell()
    ensures read { (word : List ℕ) → IsReadOf word (number_of word) }
    ensures spelled { (word : List ℕ) (n : ℕ) → Spells word n
        → number_of word ≡ (if nat_le n 4294967295 then Ok n else Err TooWide) }
{}
